//! The rules of an image's fields, each as a test.

ghost use Rattle.std.specs.Prelude.{◌≡◌, ◌<◌, ◌^◌, map, Option};
ghost use Rattle.im_num.specs.Kinds.{kind_size as size_of_kind};
ghost use Rattle.im_image.specs.Contents as rules;
ghost use Rattle.im_image.specs.Faults.{kind_of};
ghost use Rattle.std.specs.List.{list_all};

use crate::object::CellRun;
use crate::objects::ObjectHead;
use im_mem::{
    CODE_CAPACITY, CODE_START, OUTPUT_CAPACITY, STACK_CAPACITY, STATICS_CAPACITY, STATICS_START,
};
use im_num::Kind;

pub fn is_word_count(words: u32) -> bool
    ensures { result ≡ rules.is_word_count words }
{
    1 <= words && words <= CODE_CAPACITY / 4
}

pub fn is_statics_size(statics: u32) -> bool
    ensures { result ≡ rules.is_statics_size statics }
{
    statics <= STATICS_CAPACITY && statics % 4 == 0
}

pub fn is_stack_size(stack: u32) -> bool
    ensures { result ≡ rules.is_stack_size stack }
{
    256 <= stack && stack <= STACK_CAPACITY
}

pub fn is_output_capacity(out_cap: u32) -> bool
    ensures { result ≡ rules.is_output_capacity out_cap }
{
    out_cap <= OUTPUT_CAPACITY
}

/// A multiple of 4 among the addresses of the code words.
pub fn is_entry(words: u32, entry: u32) -> bool
    ensures { result ≡ rules.is_entry words entry }
{
    entry % 4 == 0
        && CODE_START <= entry
        && u64::from(entry) + 1 <= u64::from(CODE_START) + 4 * u64::from(words)
}

pub fn is_name_byte(byte: u8) -> bool
    ensures { result ≡ rules.is_name_byte byte }
{
    matches!(byte, b'a'..=b'z' | b'A'..=b'Z' | b'0'..=b'9' | b'_' | b'$')
}

pub fn is_name(name: &[u8]) -> bool
    ensures { result ≡ list_all rules.is_name_byte name.now }
{
    name.iter().all(|byte| is_name_byte(*byte))
}

/// The bytes of a cell of a kind.
pub fn kind_size(kind: Kind) -> u32
    ensures { result ≡ size_of_kind kind }
{
    match kind {
        Kind::I8 | Kind::U8 => 1,
        Kind::I16 | Kind::U16 => 2,
        Kind::I32 | Kind::U32 | Kind::Ptr => 4,
    }
}

pub fn kind_code(kind: Kind) -> u32
    ensures { result ≡ rules.kind_code kind }
{
    match kind {
        Kind::I8 => 0,
        Kind::U8 => 1,
        Kind::I16 => 2,
        Kind::U16 => 3,
        Kind::I32 => 4,
        Kind::U32 => 5,
        Kind::Ptr => 6,
    }
}

/// The kind of a code from 0 to 6.
pub fn kind_of_code(code: u32) -> Kind
    ensures { result ≡ kind_of code }
{
    match code {
        0 => Kind::I8,
        1 => Kind::U8,
        2 => Kind::I16,
        3 => Kind::U16,
        4 => Kind::I32,
        5 => Kind::U32,
        _ => Kind::Ptr,
    }
}

/// Bytes from the object's start to where a run's cells end.
pub fn run_end(run: &CellRun) -> u64
    ensures { result ≡ rules.run_end run.now }
{
    u64::from(run.offset) + u64::from(run.count) * u64::from(kind_size(run.kind))
}

/// Where the run before ends; the object's start where there is none.
pub fn end_of(before: Option<CellRun>) -> u64
    ensures { result ≡ rules.end_of before }
{
    match before {
        None => 0,
        Some(before) => run_end(&before),
    }
}

/// A run goes on where the one before ends, in the same kind.
pub fn continues(before: Option<CellRun>, run: &CellRun) -> bool
    ensures { result ≡ rules.continues before run.now }
{
    match before {
        None => false,
        Some(before) => {
            u64::from(run.offset) == run_end(&before)
                && kind_code(run.kind) == kind_code(before.kind)
        }
    }
}

/// A run of an object at this address, of this size.
pub fn is_run(at: u32, size: u32, before: Option<CellRun>, run: &CellRun) -> bool
    ensures { result ≡ rules.is_run at size before run.now }
{
    let first_cell = u64::from(at) + u64::from(run.offset);
    1 <= run.count
        && end_of(before) <= u64::from(run.offset)
        && run_end(run) <= u64::from(size)
        && first_cell % u64::from(kind_size(run.kind)) == 0
        && !continues(before, run)
}

/// An object of this size at this address, with so long a name and so many runs, lies in the
/// statics, from the address `least` on.
pub fn is_object_place(statics: u32, least: u64, head: &ObjectHead) -> bool
    ensures { result ≡ rules.is_object_place statics least head.now.at head.now.size head.now.name
        head.now.runs }
{
    1 <= head.size
        && least <= u64::from(head.at)
        && u64::from(head.at) + u64::from(head.size)
            <= u64::from(STATICS_START) + u64::from(statics)
        && 1 <= head.name
        && 1 <= head.runs
}
