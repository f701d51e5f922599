ghost use Rattle.std.specs.Prelude.{MatchResult};
ghost use Rattle.im_cmd_lines.specs.Refusals.{refused_of};
ghost use Rattle.im_cmd.specs.Files.{ReadsFile, RefusesFile};

use im_cmd_lines::Refusal;
use im_io::{ReadFault, Shelf, read_whole};
use std::alloc::Global;

/// The bytes of a file of at most `limit` bytes.
pub fn read_file<'a, H: Shelf>(
    alloc: Global,
    shelf: &mut H,
    name: &'a str,
    limit: u64,
) -> Result<Vec<u8>, Refusal<'a>>
    ensures { MatchResult result (λ bytes. ReadsFile name.now bytes.items limit (H.state shelf.old)
        (H.state shelf.new))
        (λ refusal. RefusesFile name.now limit (H.state shelf.old) (H.state shelf.new)
        (refused_of refusal)) }
{
    match read_whole(alloc, shelf, name, limit) {
        Ok(bytes) => Ok(bytes),
        Err(ReadFault::Absent) => Err(Refusal::CannotRead(name)),
        Err(ReadFault::Fault) => Err(Refusal::CannotRead(name)),
        Err(ReadFault::TooLong(most)) => Err(Refusal::FileTooLong(name, most)),
        Err(ReadFault::OutOfMemory) => Err(Refusal::OutOfMemory),
    }
}
