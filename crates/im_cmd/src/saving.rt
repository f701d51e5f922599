ghost use Rattle.std.specs.Prelude.{MatchResult, option_map};
ghost use Rattle.im_mem.specs.Memory.{view};
ghost use Rattle.im_cmd_lines.specs.Refusals.{refused_of};
ghost use Rattle.im_cmd.specs.Memories.{Saves, StoresMemory};
ghost use Rattle.im_cmd.specs.Stages.{RefusesSave, RefusesStoring};

use im_cmd_lines::Refusal;
use im_emu::Machine;
use im_io::{Shelf, store};
use im_mem_paged::PagedMem;
use im_num::NoMemory;
use std::alloc::Global;

// Writes a machine's memory to a file.
fn store_memory<'a, H: Shelf>(
    alloc: Global,
    shelf: &mut H,
    machine: &Machine<PagedMem>,
    name: &'a str,
) -> Result<(), Refusal<'a>>
    ensures { MatchResult result (λ stored. StoresMemory name.now machine.now.form
        (view machine.now.memory) (H.state shelf.old) (H.state shelf.new))
        (λ refusal. RefusesStoring name.now machine.now.form (view machine.now.memory)
        (H.state shelf.old) (H.state shelf.new) (refused_of refusal)) }
{
    let text = match machine.save(alloc) {
        Ok(text) => text,
        Err(NoMemory::OutOfMemory) => return Err(Refusal::OutOfMemory),
    };
    match store(shelf, name, &text) {
        Ok(()) => Ok(()),
        Err(_) => Err(Refusal::CannotWrite(name)),
    }
}

/// Writes a machine's memory to the file that is named for it, and nowhere without a name.
pub fn save_memory<'a, H: Shelf>(
    alloc: Global,
    shelf: &mut H,
    machine: &Machine<PagedMem>,
    file: Option<&'a str>,
) -> Result<(), Refusal<'a>>
    ensures { let named = option_map (λ file. file.now) file.entry in MatchResult result
        (λ saved. Saves named machine.now.form (view machine.now.memory) (H.state shelf.old)
        (H.state shelf.new))
        (λ refusal. RefusesSave named machine.now.form (view machine.now.memory)
        (H.state shelf.old) (H.state shelf.new) (refused_of refusal)) }
{
    match file {
        Some(name) => match store_memory(alloc, shelf, machine, name) {
            Ok(()) => Ok(()),
            Err(refusal) => Err(refusal),
        },
        None => Ok(()),
    }
}
