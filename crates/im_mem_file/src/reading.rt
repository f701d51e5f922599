ghost use Rattle.std.specs.Prelude.{◌≡◌, OnOk, IfOk, IfErr, None};
ghost use Rattle.im_mem.specs.Memory.{view};
ghost use Rattle.im_image.specs.Faults.{version_at};
ghost use Rattle.im_mem_file.specs.Text.{MemoryText};
ghost use Rattle.im_mem_file.specs.Faults.{fault_of, memory_at, form_at, IsFaultOf};

use crate::fault::MemoryFault;
use crate::header::read_header;
use crate::pages::read_pages;
use im_image::{Form, Version};
use im_mem_paged::PagedMem;
use std::alloc::Global;

/// A memory file's content.
#[derive(Drop)]
pub struct Saved {
    /// The version of the text.
    pub version: Version,
    /// How the memory tells the length of its output.
    pub form: Form,
    pub memory: PagedMem,
}

/// The memory and the form that the bytes are the text of.
pub fn read_memory(alloc: Global, bytes: &[u8]) -> Result<Saved, MemoryFault>
    // The bytes are the text of what is read.
    ensures text { IfOk result
        (λ saved. MemoryText bytes.now saved.version saved.form (view saved.memory)) }
    ensures memory { IfOk result (λ saved. view saved.memory ≡ memory_at bytes.now) }
    ensures form { IfOk result (λ saved. saved.form ≡ form_at bytes.now) }
    ensures version { IfOk result (λ saved. saved.version ≡ version_at bytes.now) }
    // A text of a memory is read, want of memory aside; a refusal names the first fault.
    ensures right { OnOk result (fault_of bytes.now ≡ None) }
    ensures wrong { IfErr result (λ fault. IsFaultOf fault (fault_of bytes.now)) }
{
    let header = read_header(bytes)?;
    let mut memory = PagedMem::new(alloc)?;
    read_pages(&mut memory, bytes, header.pages, header.place)?;
    Ok(Saved {
        version: header.version,
        form: header.form,
        memory,
    })
}
