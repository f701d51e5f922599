//! Types copied.
ghost use Rattle.std.specs.Prelude.{◌≡◌, map, IfOk};
ghost use Rattle.im_types.specs.declared.tree.Type as rust;
ghost use Rattle.im_types.specs.Shape.{type_of};

use crate::tree::Type;
use im_num::NoMemory;
use std::alloc::Global;

/// The type once more.
#[cycle(copy)]
pub fn copy(alloc: Global, ty: &Type) -> Result<Type, NoMemory>
    ensures { IfOk result (λ t. type_of t ≡ type_of ty.now) }
{
    match ty {
        Type::Void => Ok(Type::Void),
        Type::Integer(i) => Ok(Type::Integer(*i)),
        Type::Pointer(constant, target) => {
            let to = copy(alloc, target)?;
            Ok(Type::Pointer(*constant, Box::new(alloc, to)?))
        }
        Type::Array(element, count) => {
            let each = copy(alloc, element)?;
            Ok(Type::Array(Box::new(alloc, each)?, *count))
        }
        Type::Unsized(element) => {
            let each = copy(alloc, element)?;
            Ok(Type::Unsized(Box::new(alloc, each)?))
        }
        Type::Struct(number) => Ok(Type::Struct(*number)),
        Type::Function(returned, parameters) => {
            let r = copy(alloc, returned)?;
            let ps = copy_all(alloc, parameters)?;
            Ok(Type::Function(Box::new(alloc, r)?, ps))
        }
    }
}

/// The types once more, in their order.
#[cycle(copy)]
pub fn copy_all(alloc: Global, types: &[Type]) -> Result<Vec<Type>, NoMemory>
    ensures { IfOk result (λ ts. map {A = rust.Type} type_of ts.items
        ≡ map {A = rust.Type} type_of types.now) }
{
    let mut done = Vec::new(alloc);
    for ty in types {
        done.push(copy(alloc, ty)?)?;
    }
    Ok(done)
}
