ghost use Rattle.std.specs.Prelude.{◌≡◌, MatchResult};
ghost use Rattle.im_cmd_lines.specs.Refusals.{refused_of};
ghost use Rattle.im_cmd.specs.Memories.{RefusesResume};
ghost use Rattle.im_cmd.specs.Stages.{RefusesMemory, ResumesOn, ResumesText, differs};

use crate::files::read_file;
use im_cmd_lines::Refusal;
use im_emu::Machine;
use im_image::{Form, Image};
use im_io::Shelf;
use im_mem_file::MemoryFault;
use im_mem_paged::PagedMem;
use std::alloc::Global;

/// Bytes of a memory's file: a text of version 2 with 1280 pages.
const MEMORY_LIMIT: u64 = 5_248_016;

// A machine with the memory that a text says.
fn resume_text<'a>(
    alloc: Global,
    image: &Image,
    name: &'a str,
    text: &[u8],
) -> Result<Machine<PagedMem>, Refusal<'a>>
    ensures { MatchResult result (λ machine. ResumesText image.now text.now machine)
        (λ refusal. RefusesMemory name.now text.now (refused_of refusal)) }
{
    match Machine::resume(alloc, image, text) {
        Ok(machine) => Ok(machine),
        Err(MemoryFault::OutOfMemory) => Err(Refusal::OutOfMemory),
        Err(fault) => Err(Refusal::NotAMemory(name, fault)),
    }
}

// Whether an image and a memory have different forms.
fn differs(one: Form, other: Form) -> bool
    ensures { result ≡ differs one other }
{
    one.number() != other.number()
}

/// A machine with the memory of a file, whose form is the image's.
pub fn resume_image<'a, H: Shelf>(
    alloc: Global,
    shelf: &mut H,
    image_name: &'a str,
    image: &Image,
    name: &'a str,
) -> Result<Machine<PagedMem>, Refusal<'a>>
    ensures { MatchResult result (λ machine. ResumesOn image.now name.now machine
        (H.state shelf.old) (H.state shelf.new))
        (λ refusal. RefusesResume image_name.now image.now name.now (H.state shelf.old)
        (H.state shelf.new) (refused_of refusal)) }
{
    let text = match read_file(alloc, shelf, name, MEMORY_LIMIT) {
        Ok(text) => text,
        Err(refusal) => return Err(refusal),
    };
    let machine = match resume_text(alloc, image, name, &text) {
        Ok(machine) => machine,
        Err(refusal) => return Err(refusal),
    };
    let form = machine.output_form();
    if differs(form, image.form) {
        return Err(Refusal::FormsDiffer(image_name, image.form, name, form));
    }
    Ok(machine)
}
