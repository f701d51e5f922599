//! The words in which parameters are passed.
ghost use Rattle.std.specs.Prelude.{◌≡◌, ◌+◌, Some, IfOk};
ghost use Rattle.im_check_outline.specs.im_rules.Scopes as s;
ghost use Rattle.im_check_outline.specs.im_rules.Terms as r;
ghost use Rattle.im_check_outline.specs.im_rules.TypeTests as q;
ghost use Rattle.im_check_scopes.specs.Shape.{scopes_of, entity_of};
ghost use Rattle.im_rules_limits.specs.Limits as m;
ghost use Rattle.im_types.specs.Shape.{type_of, types_in};

use im_check_conversions::kind_in;
use im_check_scopes::{Entity, Scope};
use im_ctype::bytes_of_kind;
use im_num::{Kind, NoMemory, beyond_memory};
use im_types::Type;

/// The words of 4 bytes that hold a value of that kind.
fn words_of(kind: Kind) -> u64
    ensures { result ≡ m.words_of kind }
{
    let bytes = bytes_of_kind(kind);
    (bytes + 3) / 4
}

fn sum(first: u64, second: u64) -> Result<u64, NoMemory>
    ensures { IfOk result (λ n. n ≡ first + second) }
{
    match first.checked_add(second) {
        Some(n) => Ok(n),
        None => Err(beyond_memory()),
    }
}

fn word_count(ty: &Type) -> u64
    ensures { result ≡ m.words_of (r.kind_in (type_of ty.now)) }
{
    words_of(kind_in(ty))
}

fn words_in(parameters: &[Type]) -> Result<u64, NoMemory>
    ensures { IfOk result (λ n. n ≡ m.words_in (types_in parameters.now)) }
{
    let mut total: u64 = 0;
    for parameter in parameters {
        let more = sum(total, word_count(parameter))?;
        total = more;
    }
    Ok(total)
}

/// The words of a function's parameters; none of what is no function.
fn words_given(ty: &Type) -> Result<u64, NoMemory>
    ensures { IfOk result (λ n. n ≡ m.words_in (q.parameters_of (type_of ty.now))) }
{
    match ty {
        Type::Function(_, parameters) => words_in(parameters),
        Type::Void
        | Type::Integer(_)
        | Type::Pointer(_, _)
        | Type::Array(_, _)
        | Type::Unsized(_)
        | Type::Struct(_) => Ok(0),
    }
}

fn words_meant(meaning: &Entity) -> Result<u64, NoMemory>
    ensures { IfOk result (λ n. n ≡ m.words_meant (Some (entity_of meaning.now))) }
{
    match meaning {
        Entity::Function(_, _, ty) => words_given(ty),
        Entity::Typedef(_, ty) => words_given(ty),
        Entity::Object(_, _, _) | Entity::Enumerator(_) => Ok(0),
    }
}

/// The words of the parameters of the function that a name means, or whose type it stands for.
pub(crate) fn words_named(scope: &Scope, name: &[u8]) -> Result<u64, NoMemory>
    ensures { IfOk result (λ n. n ≡ m.words_meant (s.meaning (scopes_of scope.now) name.now)) }
{
    match scope.meaning(name) {
        None => Ok(0),
        Some(meaning) => words_meant(meaning),
    }
}
