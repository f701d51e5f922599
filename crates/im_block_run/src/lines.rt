ghost use Rattle.im_block.specs.Meaning as meaning;
ghost use Rattle.im_block.specs.declared.unit.Unit as blocks;
ghost use Rattle.im_block_run.specs.Laid.{AreLaidOut};
ghost use Rattle.im_block_run.specs.Shown.{Follows, IsState, setting_of};

use crate::calls::{Callee, call};
use crate::code::Code;
use crate::places::{read, write};
use crate::sets::{
    address, compare, compute, computes, convert, copy, move_by, negate, put, subtract, unary,
};
use crate::state::State;
use crate::stop::Stop;
use crate::streams::serve;
use im_block::{Line, Place};
use im_eval_store::Value;
use im_num::Kind;
use std::alloc::Global;

/// What stands at a place comes into a register.
fn reads(state: &mut State, to: u32, place: Place, kind: Kind) -> Result<(), Stop>
    ensures { (u : blocks.Unit) (site : meaning.Site) (s : meaning.State) → IsState state.old s
        → Follows u result state.new (meaning.reads to site (meaning.read_place place kind
        s.frame.active s.frame.registers s.store) s.frame.spot.rest s) }
{
    let value = read(&state.memory, &state.frame, place, kind)?;
    state.frame.set(to, value)?;
    Ok(())
}

/// A register's value is stored at a place.
fn writes(state: &mut State, place: Place, kind: Kind, from: u32) -> Result<(), Stop>
    ensures { (u : blocks.Unit) (site : meaning.Site) (s : meaning.State) → IsState state.old s
        → Follows u result state.new (meaning.writes site (meaning.write_place place kind
        (s.frame.registers from) s.frame.active s.frame.registers s.store) s.frame.spot.rest s) }
{
    let value = state.frame.register(from);
    write(&mut state.memory, &state.frame, place, kind, value)?;
    Ok(())
}

/// One line. Those of slots, which placed code alone has, aren't served.
pub(crate) fn perform<'u>(
    alloc: Global,
    code: Code<'u>,
    state: &mut State<'u>,
    line: Line,
) -> Result<(), Stop>
    requires { AreLaidOut code.unit.now code.layouts.now }
    ensures { (s : meaning.State) → IsState state.old s → Follows code.entry.unit.now result state.new
        (meaning.does code.entry.unit.now (setting_of code.entry.setting) line s.frame.spot.rest s) }
{
    match line {
        Line::Put { to, number } => put(state, to, number),
        Line::PutNull { to } => computes(state, to, Ok(Value::Null)),
        Line::Copy { to, from } => copy(state, to, from),
        Line::Convert { to, kind, from } => convert(state, to, kind, from),
        Line::Unary { to, op, kind, from } => unary(state, to, op, kind, from),
        Line::Not { to, from } => negate(state, to, from),
        Line::Compute {
            to,
            op,
            kind,
            left,
            right,
        } => compute(state, to, op, kind, left, right),
        Line::Compare {
            to,
            op,
            kind,
            left,
            right,
        } => compare(state, to, op, kind, left, right),
        Line::Move {
            to,
            size,
            back,
            pointer,
            by,
        } => move_by(state, to, size, back, pointer, by),
        Line::Distance {
            to,
            size,
            left,
            right,
        } => subtract(state, to, size, left, right),
        Line::Address { to, place } => address(state, to, place),
        Line::Read {
            to,
            place,
            kind,
            ..
        } => reads(state, to, place, kind),
        Line::Write {
            place,
            kind,
            from,
            ..
        } => writes(state, place, kind, from),
        Line::Reload { .. } | Line::Spill { .. } => Err(Stop::Beyond),
        Line::Cut(_) => Ok(()),
        Line::Call {
            to,
            function,
            first,
            count,
        } => {
            let target = Callee {
                to,
                function,
                first,
                count,
            };
            call(alloc, code, state, target)
        }
        Line::Serve { to, service, from } => serve(
            alloc,
            code.unit,
            code.setting.capacity,
            state,
            to,
            service,
            from,
        ),
    }
}
