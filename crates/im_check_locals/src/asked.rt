//! What is asked of an object that is declared in a block.
ghost use Rattle.std.specs.Prelude.{◌≡◌, ℕ, Bool, true, false, is_some, MatchResult};
ghost use Rattle.im_check_initialisers.specs.im_ctype.Types.{CType};
ghost use Rattle.im_rules.specs.Declared as d;
ghost use Rattle.im_rules.specs.Demands.{Meets};
ghost use Rattle.im_rules.specs.Rules as u;
ghost use Rattle.im_rules.specs.Scopes as s;
ghost use Rattle.im_check_scopes.specs.Shape.{scopes_of};
ghost use Rattle.im_check_stop.specs.Answers.{IsRefusal};
ghost use Rattle.im_types.specs.Shape.{type_of};
ghost use Rattle.im_check_locals.specs.Objects.{name_asks};

use im_check_scopes::{Entity, Scope};
use im_check_stop::{Stop, refused};
use im_num::beyond_memory;
use im_types::Type;

fn is_here(scope: &Scope, name: &[u8]) -> bool
    ensures { result ≡ is_some (s.meaning_here (scopes_of scope.now) name.now) }
{
    scope.meaning_here(name).is_some()
}

fn is_type(scope: &Scope, name: &[u8]) -> bool
    ensures { result ≡ d.is_typedef_name (s.meaning (scopes_of scope.now) name.now) }
{
    match scope.meaning(name) {
        Some(Entity::Typedef(_, _)) => true,
        _ => false,
    }
}

/// The rules on the name of an object. At file scope, where no body stands, want of memory is
/// answered of a name that is declared there.
pub(crate) fn name_asked(scope: &Scope, at: u32, name: &[u8]) -> Result<(), Stop>
    ensures { (n : ℕ) (constant : Bool) (a : CType) (initialised : Bool) → let asked =
        name_asks (scopes_of scope.now) n constant a name.now initialised in
        MatchResult result (λ u. Meets asked) (IsRefusal asked at) }
{
    if is_here(scope, name) {
        if scope.at_file_scope() {
            return Err(Stop::from(beyond_memory()));
        }
        return Err(refused(3, at));
    }
    if is_type(scope, name) {
        return Err(refused(4, at));
    }
    Ok(())
}

fn lacks_length(ty: &Type) -> bool
    ensures { result ≡ u.has_unsized (type_of ty.now) }
{
    match ty {
        Type::Unsized(_) => true,
        Type::Array(element, _) => lacks_length(element),
        Type::Pointer(_, target) => lacks_length(target),
        Type::Function(returned, _) => lacks_length(returned),
        Type::Void | Type::Integer(_) | Type::Struct(_) => false,
    }
}

/// Whether no length is absent but the outermost one of an object that is initialised
/// (C11 6.7.6.2).
pub(crate) fn has_lengths(ty: &Type, initialised: bool) -> bool
    ensures { result ≡ u.rule_6_absent (type_of ty.now) initialised }
{
    match ty {
        Type::Unsized(element) => initialised && !lacks_length(element),
        Type::Array(element, _) => !lacks_length(element),
        Type::Pointer(_, target) => !lacks_length(target),
        Type::Function(returned, _) => !lacks_length(returned),
        Type::Void | Type::Integer(_) | Type::Struct(_) => true,
    }
}
