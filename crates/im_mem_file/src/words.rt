ghost use Rattle.std.specs.Prelude.{◌≡◌, ◌+◌, ◌<◌, ◌≤◌, length, true, false, IfOk, OnOk, OnErr};
ghost use Rattle.std.specs.Prelude.{IfErr};
ghost use Rattle.im_mem_file.specs.declared.fault.MemoryFault.TheVariants.{ShortMemory};
ghost use Rattle.im_image.specs.Faults.{word_at as word_of};

use crate::fault::MemoryFault;

/// The bytes are fewer than what is read next wants.
pub fn short(bytes: &[u8]) -> MemoryFault
    ensures { result ≡ ShortMemory (length bytes.now) }
{
    MemoryFault::ShortMemory(bytes.len() as u64)
}

/// A rule, and the fault where it is broken.
pub fn check(holds: bool, fault: MemoryFault) -> Result<(), MemoryFault>
    ensures kept { OnOk result (holds ≡ true) }
    ensures broken { OnErr result (holds ≡ false) }
    ensures fault { IfErr result (λ answer. answer ≡ fault) }
{
    if holds { Ok(()) } else { Err(fault) }
}

/// The word whose first byte stands at a place.
#[tactic(auto, unfolding(im_image::specs::Faults::word_at))]
pub fn word_at(bytes: &[u8], place: usize) -> Result<u32, MemoryFault>
    requires { place ≤ length bytes.now }
    ensures there { IfOk result (λ _. place + 4 ≤ length bytes.now) }
    ensures word { IfOk result (λ word. word ≡ word_of bytes.now place) }
    ensures ends { IfErr result (λ _. length bytes.now < place + 4) }
    ensures fault { IfErr result (λ fault. fault ≡ ShortMemory (length bytes.now)) }
{
    let rest = &bytes[place..];
    if rest.len() < 4 {
        return Err(short(bytes));
    }
    Ok(u32::from_le_bytes([rest[0], rest[1], rest[2], rest[3]]))
}
