//! Which form of initialiser stands for which type (C11 6.7.9p11 to p17).
ghost use Rattle.std.specs.Prelude.{◌≡◌};
ghost use Rattle.im_ctree.specs.Shape.{initializer_of};
ghost use Rattle.im_check_stop.specs.im_rules.Initialisers as n;
ghost use Rattle.im_types.specs.Shape.{type_of};
ghost use Rattle.im_ctype.specs.Types.{array};
ghost use Rattle.im_check_shapes.specs.Shape.{shape_in};

use crate::parts::{one_expression, string_in};
use crate::shape::Shape;
use crate::strings::is_string_within;
use im_ctree::Initializer;
use im_types::Type;

fn one_shape<'a>(i: &'a Initializer) -> Shape<'a>
    ensures { shape_in result ≡ n.one_shape (initializer_of i.now) }
{
    match one_expression(i) {
        Some(e) => Shape::One(e),
        None => Shape::Misshapen,
    }
}

fn string_shape<'a>(element: &'a Type, i: &'a Initializer) -> Shape<'a>
    ensures { shape_in result ≡ n.string_shape (type_of element.now) (initializer_of i.now) }
{
    match string_in(i) {
        Some(s) => Shape::Bytes(element, s),
        None => Shape::Misshapen,
    }
}

fn element_shape<'a>(element: &'a Type, i: &'a Initializer) -> Shape<'a>
    ensures { shape_in result ≡ n.element_shape (type_of element.now) (initializer_of i.now) }
{
    match i {
        Initializer::Value(_) => Shape::Misshapen,
        Initializer::List(_, items) => Shape::Elements(element, items),
    }
}

fn struct_shape<'a>(number: u32, i: &'a Initializer) -> Shape<'a>
    ensures { shape_in result ≡ n.struct_shape number (initializer_of i.now) }
{
    match i {
        Initializer::Value(e) => Shape::One(e),
        Initializer::List(_, items) => Shape::Members(number, items),
    }
}

fn array_shape<'a>(element: &'a Type, count: u64, i: &'a Initializer) -> Shape<'a>
    ensures { shape_in result ≡ n.shape (array (type_of element.now) count)
        (initializer_of i.now) }
{
    if is_string_within(element, count, i) {
        string_shape(element, i)
    } else {
        element_shape(element, i)
    }
}

/// Which form of initialiser stands for an object of that type.
pub fn shape_of<'a>(ty: &'a Type, i: &'a Initializer) -> Shape<'a>
    ensures { shape_in result ≡ n.shape (type_of ty.now) (initializer_of i.now) }
{
    match ty {
        Type::Integer(_) | Type::Pointer(_, _) => one_shape(i),
        Type::Array(element, count) => array_shape(element, *count, i),
        Type::Struct(number) => struct_shape(*number, i),
        Type::Void | Type::Unsized(_) | Type::Function(_, _) => Shape::Misshapen,
    }
}
