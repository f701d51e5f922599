ghost use Rattle.std.specs.Prelude.{◌≡◌, ◌+◌, ◌<◌, ℕ, IfOk, IfSome, MatchOption, slice_get};
ghost use Rattle.std.specs.Option.{option_map};
ghost use Rattle.im_ctype.specs.Table.{Table};
ghost use Rattle.im_lower_relation.specs.Codes.{further_in};
ghost use Rattle.im_typed.specs.declared.expression.Expr.{size-Expr};
ghost use Rattle.im_typed.specs.declared.expression.Place.{size-Place};
ghost use Rattle.im_typed.specs.Program as program;
ghost use Rattle.im_typed.specs.ProgramOf.{access_of, expr_of, place_of, program_of};
ghost use Rattle.im_typed.specs.Typing.{result_shape, shape_of};
ghost use Rattle.im_typed.specs.Values.{changed_kind};
ghost use Rattle.im_lower_plain.specs.Made.{Made};
ghost use Rattle.im_lower_plain.specs.Make.{behind, make, make_place, place_at};

use crate::builder::{next, sum};
use im_num::{Kind, NoMemory};
use im_typed::{Access, Change, Expr, Place, Prog};

/// Where a place is: in a named object, or behind the pointer in the register `free`.
pub(crate) fn place_at(place: &Place, free: u32, first: u32) -> Result<im_block::Place, NoMemory>
    ensures { (types : Table) → IfOk result (λ p. p
        ≡ place_at first (place_of types place.now) free) }
{
    match place {
        Place::Static(object) => Ok(im_block::Place::Static {
            object: *object,
            offset: 0,
        }),
        Place::Local(local) => Ok(im_block::Place::Local {
            object: sum(first, *local)?,
            offset: 0,
        }),
        Place::Target(_) => Ok(im_block::Place::Through {
            pointer: free,
            offset: 0,
        }),
        Place::Member(whole, offset) => further_in(place_at(whole, free, first)?, *offset),
    }
}

/// So many bytes further on.
pub(crate) fn further_in(place: im_block::Place, by: u32) -> Result<im_block::Place, NoMemory>
    ensures { IfOk result (λ p. p ≡ further_in place by) }
{
    match place {
        im_block::Place::Static { object, offset } => Ok(im_block::Place::Static {
            object,
            offset: sum(offset, by)?,
        }),
        im_block::Place::Local { object, offset } => Ok(im_block::Place::Local {
            object,
            offset: sum(offset, by)?,
        }),
        im_block::Place::Through { pointer, offset } => Ok(im_block::Place::Through {
            pointer,
            offset: sum(offset, by)?,
        }),
    }
}

/// The first register that a place leaves free: a pointer is kept in one.
pub(crate) fn behind(place: &Place, free: u32) -> Result<u32, NoMemory>
    ensures { (types : Table) → IfOk result (λ n. n ≡ behind (place_of types place.now) free) }
{
    match place {
        Place::Static(_) | Place::Local(_) => Ok(free),
        Place::Target(_) => next(free),
        Place::Member(whole, _) => behind(whole, free),
    }
}

/// The pointer that a place is reached by, if it is reached by one: its code is that of the place.
pub(crate) fn pointer_of(place: &Place) -> Option<&Expr>
    ensures made { (types : Table) (g : program.Prog) (first free : ℕ) (m : Made) → MatchOption result
        (make_place g first (place_of types place.now) free m ≡ m)
        (λ pointer. make_place g first (place_of types place.now) free m
        ≡ make g first (expr_of types pointer.now) free (free + 1) m) }
    ensures below { IfSome result (λ pointer. size-Expr pointer.now < size-Place place.now) }
{
    match place {
        Place::Static(_) | Place::Local(_) => None,
        Place::Target(pointer) => Some(pointer),
        Place::Member(whole, _) => pointer_of(whole),
    }
}

/// What an expression gives: nothing, a value of a kind, or a struct.
pub(crate) fn shape_of(expression: &Expr, prog: &Prog) -> Option<Access>
    ensures { option_map (access_of prog.now.types) result
        ≡ shape_of (program_of prog.now) (expr_of prog.now.types expression.now) }
{
    match expression {
        Expr::Number(kind, _)
        | Expr::Convert(kind, _)
        | Expr::Unary(_, kind, _)
        | Expr::Binary(_, kind, _, _) => Some(Access::Scalar(*kind)),
        Expr::Null | Expr::Address(_) | Expr::Move { .. } | Expr::MoveBy { .. } => {
            Some(Access::Scalar(Kind::Ptr))
        }
        Expr::Distance { .. }
        | Expr::Compare(_, _, _, _)
        | Expr::Not(_)
        | Expr::And(_, _)
        | Expr::Or(_, _) => Some(Access::Scalar(Kind::I32)),
        Expr::Serve(service) | Expr::ServeWith(service, _) => {
            Some(Access::Scalar(service.gives()))
        }
        Expr::Read(access, _) | Expr::Assign(access, _, _) | Expr::Part { access, .. } => {
            Some(*access)
        }
        Expr::Choose(_, first, _) => shape_of(first, prog),
        Expr::Comma(_, right) => shape_of(right, prog),
        Expr::Discard(_) => None,
        Expr::Update { change, .. } | Expr::Increment { change, .. } => {
            Some(Access::Scalar(changed_kind(*change)))
        }
        Expr::Call(function, _) => result_shape(*function, prog),
    }
}

/// The kind of the cell that a change changes.
pub(crate) fn changed_kind(change: Change) -> Kind
    ensures { result ≡ changed_kind change }
{
    match change {
        Change::Number { kind, .. } => kind,
        Change::Move { .. } => Kind::Ptr,
    }
}

/// What a call of a function gives.
fn result_shape(function: u32, prog: &Prog) -> Option<Access>
    ensures { option_map (access_of prog.now.types) result
        ≡ result_shape (slice_get (program_of prog.now).funcs function) }
{
    match prog.funcs.get(function as usize) {
        Some(func) => match func.result {
            Some(kind) => Some(Access::Scalar(kind)),
            None => None,
        },
        None => None,
    }
}
