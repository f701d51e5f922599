ghost use Rattle.std.specs.Prelude.{◌≡◌, ◌≤◌, ◌<◌, ◌+◌, ◌-◌, ◌^◌, ◌++◌, length, replicate, IfOk};
ghost use Rattle.std.specs.Prelude.{OnOk};
ghost use Rattle.im_num.specs.Bytes.{bytes_of};
ghost use Rattle.im_num.specs.Kinds.{kind_size as size_of_kind};
ghost use Rattle.im_frame.specs.Layout.{room};
ghost use Rattle.im_pack.specs.Packed.{word_of as word_of_value};
ghost use Rattle.im_pack.specs.Bytes.{static_bytes, statics_bytes, IsWord, HasWords, AreReady};

use im_block::{Constant, Static};
use im_num::{Kind, NoMemory};
use std::alloc::Global;

/// The bytes of a cell of a kind.
pub(crate) fn kind_size(kind: Kind) -> u32
    ensures { result ≡ size_of_kind kind }
{
    match kind {
        Kind::I8 | Kind::U8 => 1,
        Kind::I16 | Kind::U16 => 2,
        Kind::I32 | Kind::U32 | Kind::Ptr => 4,
    }
}

/// Bytes of a static, its unused byte, and up to a multiple of 4.
fn room_of(size: u32) -> usize
    ensures { result ≡ room size }
{
    (size as usize / 4 + 1) * 4
}

/// The word of a first value.
fn word_of(addresses: &[u32], value: Constant) -> u32
    requires { IsWord addresses.now value }
    ensures { result ≡ word_of_value addresses.now value }
{
    match value {
        Constant::Number(number) => number.rem_euclid(1 << 32) as u32,
        Constant::Null => 0,
        Constant::Inside { object, offset } => addresses[object as usize] + offset,
    }
}

/// Adds so many bytes of a word, the lowest first.
fn push_word(bytes: &mut Vec<u8>, word: u32, count: u32) -> Result<(), NoMemory>
    ensures { OnOk result (bytes.new.items ≡ bytes.old.items ++ bytes_of count word) }
{
    let mut rest = word;
    for _ in 0..count {
        bytes.push((rest % 256) as u8)?;
        rest /= 256;
    }
    Ok(())
}

/// Adds zeros up to a length.
fn fill(bytes: &mut Vec<u8>, len: usize) -> Result<(), NoMemory>
    requires { length bytes.old.items ≤ len }
    ensures { OnOk result
        (bytes.new.items ≡ bytes.old.items ++ replicate (len - length bytes.old.items) 0) }
{
    bytes.resize(len, 0)?;
    Ok(())
}

/// Adds the bytes of a static, with zeros where it has no cell.
fn push_static(bytes: &mut Vec<u8>, addresses: &[u32], part: &Static) -> Result<(), NoMemory>
    requires ready { HasWords addresses.now part.now }
    requires fits { length bytes.old.items + room part.now.object.size < 2 ^ 62 }
    ensures adds { OnOk result
        (bytes.new.items ≡ bytes.old.items ++ static_bytes addresses.now part.now) }
    ensures size { OnOk result
        (length bytes.new.items ≡ length bytes.old.items + room part.now.object.size) }
{
    let start = bytes.len();
    for i in 0..part.object.cells.len() {
        let cell = part.object.cells[i];
        fill(bytes, start + cell.offset as usize)?;
        push_word(
            bytes,
            word_of(addresses, part.values[i]),
            kind_size(cell.kind),
        )?;
    }
    fill(bytes, start + room_of(part.object.size))
}

/// The first bytes of statics, one behind the other.
pub(crate) fn first_bytes(
    alloc: Global,
    statics: &[Static],
    addresses: &[u32],
) -> Result<Vec<u8>, NoMemory>
    requires { AreReady statics.now addresses.now }
    ensures { IfOk result (λ bytes. bytes.items ≡ statics_bytes addresses.now statics.now) }
{
    let mut bytes = Vec::new(alloc);
    for part in statics {
        push_static(&mut bytes, addresses, part)?;
    }
    Ok(bytes)
}
