ghost use Rattle.std.specs.Prelude.{◌≡◌, ◌+◌, ◌*◌, ◌<◌, ◌≤◌, length, None, IfOk, OnOk, IfErr};
ghost use Rattle.std.specs.Prelude.{Option};
ghost use Rattle.im_image.specs.Faults.{runs_at, run_at, run_requirements, first_unmet};
ghost use Rattle.im_image.specs.Faults.{objects_field, version_at, IsFaultOf, word_at as word_of};

use crate::fault::ImageFault;
use crate::object::CellRun;
use crate::rules::{is_run, kind_of_code};
use crate::words::{short, word_at};
use std::alloc::Global;

/// The run at a place, of an object at this address, of this size. The objects are the field of
/// this number.
#[tactic(auto, unfolding(crate::specs::Faults::run_requirements))]
fn read_run(
    bytes: &[u8],
    field: u32,
    at: u32,
    size: u32,
    before: Option<CellRun>,
    place: usize,
) -> Result<CellRun, ImageFault>
    requires field { field ≡ objects_field (version_at bytes.now) }
    requires there { place ≤ length bytes.now }
    ensures there { IfOk result (λ _. place + 12 ≤ length bytes.now) }
    ensures run { IfOk result (λ run. run ≡ run_at bytes.now place) }
    ensures right { OnOk result (first_unmet (length bytes.now)
        (run_requirements bytes.now at size 1 before place) ≡ None) }
    ensures wrong { IfErr result
        (λ fault. IsFaultOf fault (first_unmet (length bytes.now) (run_requirements bytes.now at size 1 before place))) }
{
    if bytes.len() - place < 12 {
        return Err(short(bytes));
    }
    let offset = word_at(bytes, place)?;
    let code = word_at(bytes, place + 4)?;
    let count = word_at(bytes, place + 8)?;
    let run = CellRun {
        offset,
        kind: kind_of_code(code),
        count,
    };
    if code > 6 || !is_run(at, size, before, &run) {
        return Err(ImageFault::BadField(field));
    }
    Ok(run)
}

/// So many runs from a place on, of an object at this address, of this size.
pub fn read_runs(
    alloc: Global,
    bytes: &[u8],
    field: u32,
    at: u32,
    size: u32,
    count: u32,
    place: usize,
) -> Result<Vec<CellRun>, ImageFault>
    requires field { field ≡ objects_field (version_at bytes.now) }
    requires there { place ≤ length bytes.now }
    ensures there { IfOk result (λ _. place + 12 * count ≤ length bytes.now) }
    ensures runs { IfOk result (λ runs. runs.items ≡ runs_at bytes.now count place) }
    ensures right { OnOk result (first_unmet (length bytes.now)
        (run_requirements bytes.now at size count None place) ≡ None) }
    ensures wrong { IfErr result
        (λ fault. IsFaultOf fault (first_unmet (length bytes.now) (run_requirements bytes.now at size count None place))) }
{
    let mut runs = Vec::new(alloc);
    let mut before = None;
    let mut next = place;
    for _ in 0..count {
        let run = read_run(bytes, field, at, size, before, next)?;
        runs.push(run)?;
        before = Some(run);
        next += 12;
    }
    Ok(runs)
}
