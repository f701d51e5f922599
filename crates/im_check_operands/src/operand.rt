ghost use Rattle.std.specs.Prelude.{◌≡◌};
ghost use Rattle.im_ctype.specs.Table.{Table};
ghost use Rattle.im_typed.specs.ProgramOf.{expr_of};
ghost use Rattle.im_check_constancy.specs.im_rules.Constants.{constant_value};
ghost use Rattle.im_check_constancy.specs.im_rules.Terms as r;
ghost use Rattle.im_check_operands.specs.Shape.{seen, term_in};
ghost use Rattle.im_check_constancy.specs.Told.{constant_in};

use crate::term::Term;
use im_check_constancy::{Annotated, Constancy};
use im_types::Type;

/// An expression as the rules see it.
#[derive(Clone, Copy)]
pub struct Operand<'a> {
    pub is_lvalue: bool,
    pub constant: bool,
    /// Its type, an array as it is.
    pub ty: &'a Type,
    /// An integer constant expression of value 0 (C11 6.3.2.3p3).
    pub is_null: bool,
}

fn is_zero(constancy: Constancy) -> bool
    ensures { result ≡ r.is_zero (constant_in constancy) }
{
    if !constancy.is_constant {
        return false;
    }
    match constancy.value {
        Some(z) => z.value == 0,
        None => false,
    }
}

fn is_null(v: &Annotated) -> bool
    ensures { (types : Table) → result ≡ r.is_zero (constant_value (expr_of types v.now.tree)) }
{
    is_zero(v.constancy)
}

/// What the rules see of a term.
pub fn operand_of<'a>(term: &'a Term) -> Operand<'a>
    ensures { (types : Table) → seen result ≡ r.operand_of (term_in types term.now) }
{
    match term {
        Term::Lvalue(constant, ty, _) => Operand {
            is_lvalue: true,
            constant: *constant,
            ty,
            is_null: false,
        },
        Term::Value(value) => Operand {
            is_lvalue: false,
            constant: false,
            ty: &value.ty,
            is_null: is_null(&value.expr),
        },
    }
}
