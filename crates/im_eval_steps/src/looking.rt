ghost use Rattle.std.specs.Prelude.{◌≡◌, ℕ};
ghost use Rattle.im_ctype.specs.Table.{Table};
ghost use Rattle.im_typed.specs.Meaning.{place_of, value_of};
ghost use Rattle.im_typed.specs.Program as program;
ghost use Rattle.im_typed.specs.ProgramOf.{expr_of, place_of as typed_place};
ghost use Rattle.im_typed.specs.Programs.{Setting};
ghost use Rattle.im_typed.specs.Runs.{State};
ghost use Rattle.im_eval_store.specs.Living.{Holds};
ghost use Rattle.im_eval_store.specs.Shown.{shown};
ghost use Rattle.im_eval_machine.specs.Shown.{one};
ghost use Rattle.im_eval_machine.specs.Small.{small_expr, small_place};
ghost use Rattle.im_eval_machine.specs.declared.here.Here.{Here};
ghost use Rattle.im_eval_tasks.specs.Stack.{in_activation};
ghost use Rattle.im_eval_steps.specs.Seen.{Sees};

use crate::operators::{binary, compare, convert, negated, unary};
use crate::parts::{number, used};
use crate::pointers::{address, member_of, moved, read_from};
use crate::unseen::Unseen;
use im_eval_machine::{Here, small};
use im_eval_store::{Memory, ObjectName, Place, Value};
use im_typed as typed;
use im_typed::Expr;

/// The place that an expression designates, so many operands deep.
#[cycle(looks)]
fn place_seen(
    memory: &Memory,
    here: Here,
    depth: u32,
    place: &typed::Place,
) -> Result<Value, Unseen>
    ensures { (types : Table) (g : Setting) (n last : ℕ) (s : State)
        → Holds memory.now last s.world.store → Sees shown result s (place_of
        (in_activation types g n here) (small_place (typed_place types place.now)) s) }
{
    match place {
        typed::Place::Static(number) => static_place(*number),
        typed::Place::Local(number) => local_place(here, *number),
        typed::Place::Target(pointer) => used(memory, seen(memory, here, depth, pointer)),
        typed::Place::Member(whole, offset) => {
            member_of(memory, *offset, place_seen(memory, here, depth, whole))
        }
    }
}

/// The place of a static.
fn static_place(number: u32) -> Result<Value, Unseen>
    ensures { (types : Table) (g : Setting) (n : ℕ) (here : Here) (s : State) → Sees shown result s
        (place_of (in_activation types g n here) (program.Static number) s) }
{
    Ok(Value::Pointer(Place {
        object: ObjectName {
            activation: 0,
            depth: 0,
            number: number as u64,
        },
        offset: 0,
        level: 0,
    }))
}

/// The place of a local.
fn local_place(here: Here, number: u32) -> Result<Value, Unseen>
    ensures { (types : Table) (g : Setting) (n : ℕ) (s : State) → Sees shown result s
        (place_of (in_activation types g n here) (program.Local number) s) }
{
    Ok(Value::Pointer(Place {
        object: here.local(number),
        offset: 0,
        level: here.level,
    }))
}

/// The value of an expression that has no call, changes nothing and is so many operands deep.
#[cycle(looks)]
fn seen(memory: &Memory, here: Here, depth: u32, expr: &Expr) -> Result<Value, Unseen>
    ensures { (types : Table) (g : Setting) (n last : ℕ) (s : State)
        → Holds memory.now last s.world.store → Sees one result s (value_of
        (in_activation types g n here) (small_expr (expr_of types expr.now)) s) }
{
    if depth == 0 {
        return Err(Unseen::Elsewhere);
    }
    let below = depth - 1;
    match expr {
        Expr::Number(_, value) => Ok(Value::Number(small(*value))),
        Expr::Null => Ok(Value::Null),
        Expr::Read(access, place) => {
            read_from(memory, *access, place_seen(memory, here, below, place))
        }
        Expr::Address(place) => address(place_seen(memory, here, below, place)),
        Expr::Convert(kind, operand) => {
            convert(memory, *kind, seen(memory, here, below, operand))
        }
        Expr::Unary(op, kind, operand) => {
            unary(memory, *op, *kind, seen(memory, here, below, operand))
        }
        Expr::Not(operand) => negated(memory, seen(memory, here, below, operand)),
        Expr::Binary(op, kind, left, right) => {
            match number(memory, seen(memory, here, below, left)) {
                Err(why) => Err(why),
                Ok(x) => binary(memory, *op, *kind, x, seen(memory, here, below, right)),
            }
        }
        Expr::Compare(op, _, left, right) => match used(memory, seen(memory, here, below, left)) {
            Err(why) => Err(why),
            Ok(x) => compare(memory, *op, x, seen(memory, here, below, right)),
        },
        Expr::Move {
            size,
            back,
            pointer,
            by,
        } => match used(memory, seen(memory, here, below, pointer)) {
            Err(why) => Err(why),
            Ok(x) => moved(memory, *size, *back, x, seen(memory, here, below, by)),
        },
        Expr::Choose(test, first, second) => match used(memory, seen(memory, here, below, test)) {
            Err(why) => Err(why),
            Ok(x) => {
                if x.holds() {
                    seen(memory, here, below, first)
                } else {
                    seen(memory, here, below, second)
                }
            }
        },
        _ => Err(Unseen::Elsewhere),
    }
}

/// How many operands deep a look goes.
const DEPTH: u32 = 12;

/// The value of an expression that has no call, changes nothing and isn't deep.
pub fn look(memory: &Memory, here: Here, expr: &Expr) -> Result<Value, Unseen>
    ensures { (types : Table) (g : Setting) (n last : ℕ) (s : State)
        → Holds memory.now last s.world.store → Sees one result s (value_of
        (in_activation types g n here) (small_expr (expr_of types expr.now)) s) }
{
    seen(memory, here, DEPTH, expr)
}

/// The place that an expression designates, where it has no call, changes nothing and isn't deep.
pub fn look_place(memory: &Memory, here: Here, place: &typed::Place) -> Result<Value, Unseen>
    ensures { (types : Table) (g : Setting) (n last : ℕ) (s : State)
        → Holds memory.now last s.world.store → Sees shown result s (place_of
        (in_activation types g n here) (small_place (typed_place types place.now)) s) }
{
    place_seen(memory, here, DEPTH, place)
}
