//! Whether the bytes of a struct are a number of 64 bits.
ghost use Rattle.std.specs.Prelude.{◌≡◌, ◌<◌, ◌+◌, ◌^◌, max, length, IfOk, OnOk};
ghost use Rattle.im_ctype.specs.Kept.{AreMembersIn};
ghost use Rattle.im_ctype.specs.Layout as l;
ghost use Rattle.im_ctype.specs.Table.{members_in, structs_of, types_of};

use im_ctype::{Extent, Member, TypeTable};
use im_num::{NoMemory, beyond_memory};

fn sum(first: u64, second: u64) -> Result<u64, NoMemory>
    ensures { IfOk result (λ n. n ≡ first + second) }
{
    match first.checked_add(second) {
        Some(n) => Ok(n),
        None => Err(beyond_memory()),
    }
}

/// The least multiple of the alignment that is not below the offset.
fn round_up(offset: u64, alignment: u64) -> Result<u64, NoMemory>
    ensures { IfOk result (λ n. n ≡ l.round_up offset alignment) }
{
    if alignment == 0 {
        return Err(beyond_memory());
    }
    sum(offset, (alignment - offset % alignment) % alignment)
}

/// The extent of members with one more behind them (C11 6.7.2.1p15).
fn with_member(so_far: Extent, part: Extent) -> Result<Extent, NoMemory>
    ensures { IfOk result (λ e. e ≡ record {
      size = l.round_up so_far.size part.alignment + part.size;
      alignment = max so_far.alignment part.alignment;
      cells = so_far.cells + part.cells;
    }) }
{
    let offset = round_up(so_far.size, part.alignment)?;
    let size = sum(offset, part.size)?;
    let cells = sum(so_far.cells, part.cells)?;
    Ok(Extent {
        size,
        alignment: so_far.alignment.max(part.alignment),
        cells,
    })
}

/// Want of memory where a struct of these members has 2^64 bytes or more.
pub(crate) fn held(table: &TypeTable, members: &[Member]) -> Result<(), NoMemory>
    requires { AreMembersIn (length table.now.nodes) members.now }
    ensures { OnOk result ((l.struct_in (l.layouts (structs_of table.now))
        (members_in (types_of table.now) members.now)).size < 2 ^ 64) }
{
    let mut so_far = Extent {
        size: 0,
        alignment: 1,
        cells: 0,
    };
    for member in members {
        let part = table.extent(member.ty);
        let next = with_member(so_far, part)?;
        so_far = next;
    }
    let _size = round_up(so_far.size, so_far.alignment)?;
    Ok(())
}
