//! Types derived from others (C11 6.2.5p20).
ghost use Rattle.std.specs.Prelude.{◌≡◌, IfOk};
ghost use Rattle.im_ctype.specs.Types as t;
ghost use Rattle.im_types.specs.Shape.{type_of, types_in};

use crate::tree::Type;
use im_num::NoMemory;
use std::alloc::Global;

/// The type in a box.
fn part(alloc: Global, ty: Type) -> Result<Box<Type>, NoMemory>
    ensures { IfOk result (λ b. b.value ≡ ty) }
{
    Ok(Box::new(alloc, ty)?)
}

/// A pointer; `constant` says that its target is `const`.
pub fn pointer_to(alloc: Global, constant: bool, target: Type) -> Result<Type, NoMemory>
    ensures { IfOk result (λ ty. type_of ty ≡ t.pointer constant (type_of target)) }
{
    Ok(Type::Pointer(constant, part(alloc, target)?))
}

/// An array of so many elements.
pub fn array_of(alloc: Global, element: Type, count: u64) -> Result<Type, NoMemory>
    ensures { IfOk result (λ ty. type_of ty ≡ t.array (type_of element) count) }
{
    Ok(Type::Array(part(alloc, element)?, count))
}

/// An array whose length is not written.
pub fn unsized_of(alloc: Global, element: Type) -> Result<Type, NoMemory>
    ensures { IfOk result (λ ty. type_of ty ≡ t.unsized (type_of element)) }
{
    Ok(Type::Unsized(part(alloc, element)?))
}

/// A function of these parameters.
pub fn function_of(alloc: Global, returned: Type, parameters: Vec<Type>) -> Result<Type, NoMemory>
    ensures { IfOk result
        (λ ty. type_of ty ≡ t.function (type_of returned) (types_in parameters.items)) }
{
    Ok(Type::Function(part(alloc, returned)?, parameters))
}
