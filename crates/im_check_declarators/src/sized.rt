//! Lengths that may not be absent (C11 6.7.6.2p4).
ghost use Rattle.std.specs.Prelude.{◌≡◌, ◌∷◌, [], IfErr};
ghost use Rattle.im_rules.specs.Declared as d;
ghost use Rattle.im_rules.specs.Demands.{asks};
ghost use Rattle.im_check_stop.specs.declared.stop.Stop.TheVariants.{Memory};
ghost use Rattle.im_types.specs.Shape.{type_of};
ghost use Rattle.im_check_type_specifiers.specs.Specified.{IsQualified};

use crate::declared::Declared;
use im_check_stop::{Stop, refused};
use im_check_type_specifiers::Qualified;
use im_types::Type;

/// Whether no array in a type lacks its length, but in functions.
pub fn is_sized(ty: &Type) -> bool
    ensures { result ≡ d.is_sized (type_of ty.now) }
{
    match ty {
        Type::Unsized(_) => false,
        Type::Array(element, _) => is_sized(element),
        Type::Pointer(_, target) => is_sized(target),
        Type::Void | Type::Integer(_) | Type::Struct(_) | Type::Function(_, _) => true,
    }
}

/// The type that a type name names, by what its declarator declares; `at` is its first token.
pub fn sized_type(at: u32, declared: Declared) -> Result<Qualified, Stop>
    ensures typed { IsQualified (asks 6 (d.is_sized (type_of declared.ty)) ∷ [])
        (record { constant = declared.constant; type = type_of declared.ty }) at result }
    ensures spared { IfErr result (λ stop. stop ≡ Memory → ⊥) }
{
    if !is_sized(&declared.ty) {
        return Err(refused(6, at));
    }
    Ok(Qualified {
        constant: declared.constant,
        ty: declared.ty,
    })
}
