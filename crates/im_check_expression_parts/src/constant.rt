//! Values as constant expressions (C11 6.6).
ghost use Rattle.std.specs.Prelude.{◌≡◌};
ghost use Rattle.im_check_declarators.specs.im_ctype.Table.{Table};
ghost use Rattle.im_check_declarators.specs.im_typed.ProgramOf.{expr_of};
ghost use Rattle.im_rules.specs.Constants.{constant_value};
ghost use Rattle.im_rules.specs.Terms as r;
ghost use Rattle.im_check_operands.specs.Shape.{term_in};
ghost use Rattle.im_check_constancy.specs.Told.{constant_in};

use im_check_constancy::{Annotated, Constancy};
use im_check_operands::Term;

fn known(constancy: Constancy) -> Option<i128>
    ensures { result ≡ constant_in constancy }
{
    if !constancy.is_constant {
        return None;
    }
    match constancy.value {
        Some(z) => Some(z.value),
        None => None,
    }
}

fn value_of(v: &Annotated) -> Option<i128>
    ensures { (types : Table) → result ≡ constant_value (expr_of types v.now.tree) }
{
    known(v.constancy)
}

/// The value of a term as a constant expression, if it is one.
pub fn constant_of(term: &Term) -> Option<i128>
    ensures { (types : Table) → result ≡ r.constant_in (term_in types term.now) }
{
    match term {
        Term::Lvalue(_, _, _) => None,
        Term::Value(value) => value_of(&value.expr),
    }
}
