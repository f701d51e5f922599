//! An array whose length its initialiser gives (C11 6.7.9p22).
ghost use Rattle.std.specs.Prelude.{◌≡◌, ◌+◌, ℕ, length};
ghost use Rattle.im_ctree.specs.Shape.{initializer_of, maybe_initializer_of};
ghost use Rattle.im_ctree.specs.Tree as t;
ghost use Rattle.im_ctype.specs.Types as y;
ghost use Rattle.im_ctype.specs.Types.{CType};
ghost use Rattle.im_check_stop.specs.im_rules.Initialisers as n;
ghost use Rattle.im_ctree_parts.specs.Lists.{expression_in, initializers_from};
ghost use Rattle.im_types.specs.Shape.{type_of};

use crate::parts::{only_string, text_in};
use im_ctree::{Expression, Initializer};
use im_types::{Type, is_character};

/// The bytes of a string with its zero.
fn with_zero(bytes: &[u8]) -> u64
    ensures { result ≡ length bytes.now + 1 }
{
    bytes.len() as u64 + 1
}

/// The elements that an expression gives: the bytes of a string with its zero.
fn counted_value(e: &Expression) -> u64
    ensures { (a : CType) → result ≡ n.counted a (t.value_initializer (expression_in e.now)) }
{
    match text_in(e) {
        Some(s) => with_zero(s),
        None => 0,
    }
}

/// The elements that a list in braces gives: as many as stand in it, or the bytes of a string with
/// its zero.
fn counted_list(element: &Type, items: &[Initializer]) -> u64
    ensures { (at : ℕ) → result ≡ n.counted (type_of element.now)
        (t.braced_initializer at (initializers_from items.now)) }
{
    if is_character(element) {
        if let Some(s) = only_string(items) {
            return with_zero(s);
        }
    }
    items.len() as u64
}

fn counted(element: &Type, i: &Initializer) -> u64
    ensures { result ≡ n.counted (type_of element.now) (initializer_of i.now) }
{
    match i {
        Initializer::Value(e) => counted_value(e),
        Initializer::List(_, items) => counted_list(element, items),
    }
}

fn completed_by(ty: Type, i: &Initializer) -> Type
    ensures { type_of result
        ≡ n.completed (type_of ty) (t.an_initializer (initializer_of i.now)) }
{
    match &ty {
        Type::Unsized(element) => {
            let count = counted(element, i);
            ty.into_array(count)
        }
        Type::Void
        | Type::Integer(_)
        | Type::Pointer(_, _)
        | Type::Array(_, _)
        | Type::Struct(_)
        | Type::Function(_, _) => ty,
    }
}

/// The type of an object: an array has the length that its initialiser gives where none is written.
pub fn completed(ty: Type, initializer: &Option<Initializer>) -> Type
    ensures { type_of result ≡ n.completed (type_of ty) (maybe_initializer_of initializer.now) }
{
    match initializer {
        None => ty,
        Some(i) => completed_by(ty, i),
    }
}
