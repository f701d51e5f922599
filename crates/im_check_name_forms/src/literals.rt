//! The terms of constants and of string literals.
ghost use Rattle.std.specs.Prelude.{◌≡◌, pos, IfOk};
ghost use Rattle.im_ctype.specs.Table.{Table};
ghost use Rattle.im_check_conversions.specs.im_rules.Conversions as c;
ghost use Rattle.im_check_conversions.specs.im_rules.Terms as r;
ghost use Rattle.im_check_operands.specs.Shape.{term_in};

use im_check_conversions::literal;
use im_check_operands::Term;
use im_ctype::Integer;
use im_num::NoMemory;
use im_store::Number;
use im_tok::NumberType;
use im_typed::Place;
use im_types::{Type, array_of};
use std::alloc::Global;

fn number_type(ty: NumberType) -> Integer
    ensures { result ≡ c.number_type ty }
{
    match ty {
        NumberType::Int => Integer::Int,
        NumberType::UnsignedInt => Integer::UnsignedInt,
        NumberType::Long => Integer::Long,
        NumberType::UnsignedLong => Integer::UnsignedLong,
    }
}

/// An integer constant (C11 6.4.4.1).
pub fn number_term(number: im_tok::Number) -> Term
    ensures { (types : Table) → term_in types result ≡ r.value
        (c.literal (c.number_type number.number_type) (pos number.value)) }
{
    let value = Number {
        value: number.value as i128,
    };
    Term::Value(literal(number_type(number.number_type), value))
}

/// A character constant (C11 6.4.4.4p10).
pub fn character_term(value: u8) -> Term
    ensures { (types : Table) → term_in types result ≡ r.value
        (c.literal Integer.Int (pos value)) }
{
    let number = Number {
        value: value as i128,
    };
    Term::Value(literal(Integer::Int, number))
}

/// A string literal, which is the static of that number (C11 6.4.5p6).
pub fn string_term(alloc: Global, number: u32, bytes: &[u8]) -> Result<Term, NoMemory>
    ensures { (types : Table) → IfOk result
        (λ t. term_in types t ≡ c.string_term number bytes.now) }
{
    let count = bytes.len() as u64 + 1;
    let ty = array_of(alloc, Type::Integer(Integer::Char), count)?;
    Ok(Term::Lvalue(false, ty, Place::Static(number)))
}
