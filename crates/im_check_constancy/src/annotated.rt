//! A typed expression beside what it is as a constant expression, one for each form that constant expressions have.
ghost use Rattle.std.specs.Prelude.{◌≡◌, IfOk};
ghost use Rattle.im_rules.specs.im_ctype.Table.{Table};
ghost use Rattle.im_typed.specs.Program as p;
ghost use Rattle.im_typed.specs.ProgramOf.{expr_of};
ghost use Rattle.im_check_constancy.specs.Told as t;
ghost use Rattle.im_check_constancy.specs.Told.{Told};

use crate::constancy::Constancy;
use crate::values::{
    and_value, binary_value, choice_value, comparison_value, converted_value, not_value, or_value,
    unary_value,
};
use im_num::{Kind, NoMemory};
use im_store::{BinaryOp, Comparison, Number, UnaryOp};
use im_typed::Expr;
use std::alloc::Global;

/// A typed expression, and what it is as a constant expression (C11 6.6).
#[derive(Drop)]
pub struct Annotated {
    pub tree: Expr,
    pub constancy: Constancy,
    pub ghost told: { (types : Table) → Told constancy (expr_of types tree) },
}

/// A number of that kind.
pub fn number(kind: Kind, z: Number) -> Annotated
    ensures { (types : Table) → expr_of types result.tree ≡ p.Constant kind z.value }
{
    Annotated {
        tree: Expr::Number(kind, z.value),
        constancy: Constancy {
            is_constant: true,
            value: Some(z),
        },
    }
}

/// What is no constant expression.
pub fn variable(tree: Expr) -> Annotated
    requires { (types : Table) → Told t.variable (expr_of types tree) }
    ensures { result.tree ≡ tree }
{
    Annotated {
        tree,
        constancy: Constancy::VARIABLE,
    }
}

/// A value converted to an integer type of another kind (C11 6.3.1.3).
pub fn conversion(alloc: Global, kind: Kind, operand: Annotated) -> Result<Annotated, NoMemory>
    ensures { (types : Table) → IfOk result
        (λ e. expr_of types e.tree ≡ p.Convert kind (expr_of types operand.tree)) }
{
    let constancy = Constancy {
        is_constant: operand.constancy.is_constant,
        value: converted_value(kind, operand.constancy.value),
    };
    let tree = Expr::Convert(kind, Box::new(alloc, operand.tree)?);
    Ok(Annotated { tree, constancy })
}

pub fn unary(
    alloc: Global,
    op: UnaryOp,
    kind: Kind,
    operand: Annotated,
) -> Result<Annotated, NoMemory>
    ensures { (types : Table) → IfOk result
        (λ e. expr_of types e.tree ≡ p.Unary op kind (expr_of types operand.tree)) }
{
    let constancy = Constancy {
        is_constant: operand.constancy.is_constant,
        value: unary_value(op, kind, operand.constancy.value),
    };
    let tree = Expr::Unary(op, kind, Box::new(alloc, operand.tree)?);
    Ok(Annotated { tree, constancy })
}

pub fn negation(alloc: Global, operand: Annotated) -> Result<Annotated, NoMemory>
    ensures { (types : Table) → IfOk result
        (λ e. expr_of types e.tree ≡ p.Not (expr_of types operand.tree)) }
{
    let constancy = Constancy {
        is_constant: operand.constancy.is_constant,
        value: not_value(operand.constancy.value),
    };
    let tree = Expr::Not(Box::new(alloc, operand.tree)?);
    Ok(Annotated { tree, constancy })
}

pub fn binary(
    alloc: Global,
    op: BinaryOp,
    kind: Kind,
    left: Annotated,
    right: Annotated,
) -> Result<Annotated, NoMemory>
    ensures { (types : Table) → IfOk result (λ e. expr_of types e.tree
        ≡ p.Binary op kind (expr_of types left.tree) (expr_of types right.tree)) }
{
    let constancy = Constancy {
        is_constant: left.constancy.is_constant && right.constancy.is_constant,
        value: binary_value(op, kind, left.constancy.value, right.constancy.value),
    };
    let first = Box::new(alloc, left.tree)?;
    let second = Box::new(alloc, right.tree)?;
    let tree = Expr::Binary(op, kind, first, second);
    Ok(Annotated { tree, constancy })
}

pub fn comparison(
    alloc: Global,
    op: Comparison,
    kind: Kind,
    left: Annotated,
    right: Annotated,
) -> Result<Annotated, NoMemory>
    ensures { (types : Table) → IfOk result (λ e. expr_of types e.tree
        ≡ p.Compare op kind (expr_of types left.tree) (expr_of types right.tree)) }
{
    let constancy = Constancy {
        is_constant: left.constancy.is_constant && right.constancy.is_constant,
        value: comparison_value(op, left.constancy.value, right.constancy.value),
    };
    let first = Box::new(alloc, left.tree)?;
    let second = Box::new(alloc, right.tree)?;
    let tree = Expr::Compare(op, kind, first, second);
    Ok(Annotated { tree, constancy })
}

pub fn conjunction(alloc: Global, left: Annotated, right: Annotated) -> Result<Annotated, NoMemory>
    ensures { (types : Table) → IfOk result
        (λ e. expr_of types e.tree ≡ p.And (expr_of types left.tree) (expr_of types right.tree)) }
{
    let constancy = Constancy {
        is_constant: left.constancy.is_constant && right.constancy.is_constant,
        value: and_value(left.constancy.value, right.constancy.value),
    };
    let first = Box::new(alloc, left.tree)?;
    let second = Box::new(alloc, right.tree)?;
    let tree = Expr::And(first, second);
    Ok(Annotated { tree, constancy })
}

pub fn disjunction(alloc: Global, left: Annotated, right: Annotated) -> Result<Annotated, NoMemory>
    ensures { (types : Table) → IfOk result
        (λ e. expr_of types e.tree ≡ p.Or (expr_of types left.tree) (expr_of types right.tree)) }
{
    let constancy = Constancy {
        is_constant: left.constancy.is_constant && right.constancy.is_constant,
        value: or_value(left.constancy.value, right.constancy.value),
    };
    let first = Box::new(alloc, left.tree)?;
    let second = Box::new(alloc, right.tree)?;
    let tree = Expr::Or(first, second);
    Ok(Annotated { tree, constancy })
}

/// One of two values (C11 6.5.15).
pub fn choice(
    alloc: Global,
    test: Annotated,
    first: Annotated,
    second: Annotated,
) -> Result<Annotated, NoMemory>
    ensures { (types : Table) → IfOk result (λ e. expr_of types e.tree ≡ p.Choose
        (expr_of types test.tree) (expr_of types first.tree) (expr_of types second.tree)) }
{
    let constancy = Constancy {
        is_constant: test.constancy.is_constant
            && (first.constancy.is_constant && second.constancy.is_constant),
        value: choice_value(
            test.constancy.value,
            first.constancy.value,
            second.constancy.value,
        ),
    };
    let condition = Box::new(alloc, test.tree)?;
    let left = Box::new(alloc, first.tree)?;
    let right = Box::new(alloc, second.tree)?;
    let tree = Expr::Choose(condition, left, right);
    Ok(Annotated { tree, constancy })
}
