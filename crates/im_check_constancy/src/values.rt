//! The values of constant expressions, one for each form of typed expression (C11 6.6).
ghost use Rattle.std.specs.Prelude.{◌≡◌, ◌&&◌};
ghost use Rattle.std.specs.Ordering.{int_eq};
ghost use Rattle.im_num.specs.Kinds.{wrap};
ghost use Rattle.im_store.specs.Numbers.{apply, apply_one, compares};
ghost use Rattle.im_rules.specs.Constants as c;
ghost use Rattle.im_check_constancy.specs.Told.{number_in, negated, compared_as};

use im_num::Kind;
use im_store::{
    BinaryOp, Comparison, Number, UnaryOp, applied, applied_to_one, compared, converted,
};

fn truth(holds: bool) -> Number
    ensures { result.value ≡ c.truth holds }
{
    if holds { Number::ONE } else { Number::ZERO }
}

fn is_true(number: Number) -> bool
    ensures { result ≡ c.is_true number.value }
{
    number.value != 0
}

pub fn converted_value(kind: Kind, operand: Option<Number>) -> Option<Number>
    ensures { number_in result ≡ c.on_one (wrap kind) (number_in operand) }
{
    match operand {
        None => None,
        Some(z) => Some(converted(kind, z)),
    }
}

pub fn unary_value(op: UnaryOp, kind: Kind, operand: Option<Number>) -> Option<Number>
    ensures { number_in result ≡ c.on_one (apply_one op kind) (number_in operand) }
{
    match operand {
        None => None,
        Some(z) => Some(applied_to_one(op, kind, z)),
    }
}

pub fn not_value(operand: Option<Number>) -> Option<Number>
    ensures { number_in result ≡ c.on_one negated (number_in operand) }
{
    match operand {
        None => None,
        Some(z) => Some(truth(z.value == 0)),
    }
}

fn operated(op: BinaryOp, kind: Kind, left: Number, right: Number) -> Option<Number>
    ensures { number_in result ≡ c.defined (apply op kind left.value right.value) }
{
    match applied(op, kind, left, right) {
        Ok(z) => Some(z),
        Err(_) => None,
    }
}

pub fn binary_value(
    op: BinaryOp,
    kind: Kind,
    left: Option<Number>,
    right: Option<Number>,
) -> Option<Number>
    ensures { number_in result ≡ c.on_both (λ x y. c.defined (apply op kind x y)) (number_in left)
        (number_in right) }
{
    match left {
        None => None,
        Some(x) => match right {
            None => None,
            Some(y) => operated(op, kind, x, y),
        },
    }
}

pub fn comparison_value(
    op: Comparison,
    left: Option<Number>,
    right: Option<Number>,
) -> Option<Number>
    ensures { number_in result ≡ c.on_both (compared_as op) (number_in left) (number_in right) }
{
    match left {
        None => None,
        Some(x) => match right {
            None => None,
            Some(y) => Some(truth(compared(op, x, y))),
        },
    }
}

fn truth_of(operand: Option<Number>) -> Option<Number>
    ensures { number_in result ≡ c.as_truth (number_in operand) }
{
    match operand {
        None => None,
        Some(z) => Some(truth(is_true(z))),
    }
}

/// The right operand isn't evaluated where the left one is 0 (C11 6.5.13p4).
pub fn and_value(left: Option<Number>, right: Option<Number>) -> Option<Number>
    ensures { number_in result ≡ c.and_then (number_in left) (number_in right) }
{
    match left {
        None => None,
        Some(x) => {
            if is_true(x) {
                truth_of(right)
            } else {
                Some(Number::ZERO)
            }
        }
    }
}

/// The right operand isn't evaluated where the left one isn't 0 (C11 6.5.14p4).
pub fn or_value(left: Option<Number>, right: Option<Number>) -> Option<Number>
    ensures { number_in result ≡ c.or_else (number_in left) (number_in right) }
{
    match left {
        None => None,
        Some(x) => {
            if is_true(x) {
                Some(Number::ONE)
            } else {
                truth_of(right)
            }
        }
    }
}

/// One of the results is evaluated (C11 6.5.15p4).
pub fn choice_value(
    test: Option<Number>,
    first: Option<Number>,
    second: Option<Number>,
) -> Option<Number>
    ensures { number_in result ≡ c.picked (number_in test) (number_in first) (number_in second) }
{
    match test {
        None => None,
        Some(x) => { if is_true(x) { first } else { second } }
    }
}
