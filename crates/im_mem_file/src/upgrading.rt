ghost use Rattle.std.specs.Prelude.{IfOk, IfErr};
ghost use Rattle.im_mem_file.specs.Text.{IsUpgrade};
ghost use Rattle.im_mem_file.specs.Faults.{fault_of, IsFaultOf};

use crate::fault::MemoryFault;
use crate::reading::read_memory;
use crate::writing::write_memory;
use std::alloc::Global;

/// The version 2 text of the memory that the bytes are the text of, whose form stays.
pub fn upgrade_memory(alloc: Global, bytes: &[u8]) -> Result<Vec<u8>, MemoryFault>
    // The bytes are a memory's text, and what is written is that of the same memory in version 2.
    ensures upgraded { IfOk result (λ text. IsUpgrade bytes.now text.items) }
    // A refusal names the first thing that isn't as it must be.
    ensures refused { IfErr result (λ fault. IsFaultOf fault (fault_of bytes.now)) }
{
    let saved = read_memory(alloc, bytes)?;
    Ok(write_memory(alloc, &saved.memory, saved.form)?)
}
