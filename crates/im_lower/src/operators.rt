ghost use Rattle.std.specs.Prelude.{◌≡◌, IfOk, OnOk, length};
ghost use Rattle.im_ctype.specs.Table.{Table};
ghost use Rattle.im_typed.specs.ProgramOf.{expr_of};
ghost use Rattle.im_lower_plain.specs.Made.{close};
ghost use Rattle.im_lower_plain.specs.Make.{fails_made, holds_made, put_operator};

use crate::builder::{Builder, Targets, next};
use im_block::{Exit, Line};
use im_num::NoMemory;
use im_typed::Expr;

/// Puts the line that an operator has behind those of its operands, which are in the register
/// `free` and the next one.
pub(crate) fn put_operator(
    code: &mut Builder,
    expression: &Expr,
    to: u32,
    free: u32,
) -> Result<(), NoMemory>
    ensures { (types : Table) → OnOk result (code.new
        ≡ put_operator (expr_of types expression.now) to free code.old) }
{
    let above = next(free)?;
    match expression {
        Expr::Convert(kind, _) => code.put(Line::Convert {
            to,
            kind: *kind,
            from: to,
        }),
        Expr::Unary(op, kind, _) => code.put(Line::Unary {
            to,
            op: *op,
            kind: *kind,
            from: free,
        }),
        Expr::Not(_) => code.put(Line::Not { to, from: free }),
        Expr::ServeWith(service, _) => code.put(Line::Serve {
            to,
            service: *service,
            from: Some(free),
        }),
        Expr::Binary(op, kind, _, _) => code.put(Line::Compute {
            to,
            op: *op,
            kind: *kind,
            left: free,
            right: above,
        }),
        Expr::Compare(op, kind, _, _) => code.put(Line::Compare {
            to,
            op: *op,
            kind: *kind,
            left: free,
            right: above,
        }),
        Expr::Move { size, back, .. } => code.put(Line::Move {
            to,
            size: *size,
            back: *back,
            pointer: free,
            by: above,
        }),
        Expr::MoveBy { size, .. } => code.put(Line::Move {
            to,
            size: *size,
            back: false,
            pointer: above,
            by: free,
        }),
        Expr::Distance { size, .. } => code.put(Line::Distance {
            to,
            size: *size,
            left: free,
            right: above,
        }),
        Expr::Number(_, _)
        | Expr::Null
        | Expr::Serve(_)
        | Expr::Read(_, _)
        | Expr::Address(_)
        | Expr::And(_, _)
        | Expr::Or(_, _)
        | Expr::Choose(_, _, _)
        | Expr::Comma(_, _)
        | Expr::Discard(_)
        | Expr::Assign(_, _, _)
        | Expr::Update { .. }
        | Expr::Increment { .. }
        | Expr::Part { .. }
        | Expr::Call(_, _) => Ok(()),
    }
}

/// Puts the two blocks of a truth value. Each puts it into the register `to`, and goes on at what
/// was open; what is open then is a jump to that of 1.
pub(crate) fn put_truths(code: &mut Builder, to: u32) -> Result<Targets, NoMemory>
    ensures holds { IfOk result (λ truths. truths.holds ≡ length (holds_made to code.old).blocks) }
    ensures fails { IfOk result (λ truths. truths.fails ≡ length (fails_made to code.old).blocks) }
    ensures made { OnOk result (code.new ≡ close (holds_made to code.old)) }
{
    let join = code.close()?;
    code.put(Line::Put { to, number: 0 })?;
    let fails = code.close()?;
    code.start(Exit::Jump(join))?;
    code.put(Line::Put { to, number: 1 })?;
    let holds = code.close()?;
    Ok(Targets { holds, fails })
}
