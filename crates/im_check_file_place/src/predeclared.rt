//! What is predeclared.
ghost use Rattle.std.specs.Prelude.{◌≡◌, IfOk};
ghost use Rattle.im_check_place.specs.im_rules.FileScope as f;
ghost use Rattle.im_check_place.specs.im_rules.Scopes as s;
ghost use Rattle.im_check_scopes.specs.Shape.{scopes_of, entity_of, callee_of};
ghost use Rattle.im_check_file_place.specs.Predeclared.{with_function, predeclared_functions};

use im_check_scopes::{Callee, Entity, Scope};
use im_ctype::Integer;
use im_num::NoMemory;
use im_serve::Service;
use im_types::{Type, function_of};
use std::alloc::Global;

fn with_entity(alloc: Global, name: &[u8], entity: Entity, scope: Scope) -> Result<Scope, NoMemory>
    ensures { IfOk result (λ made. scopes_of made
        ≡ s.named name.now (entity_of entity) (scopes_of scope)) }
{
    let mut made = scope;
    let kept = Vec::from_slice(alloc, name)?;
    made.declare(alloc, kept, entity)?;
    Ok(made)
}

fn with_type(alloc: Global, name: &[u8], ty: Integer, scope: Scope) -> Result<Scope, NoMemory>
    ensures { IfOk result (λ made. scopes_of made
        ≡ f.predeclared_type name.now ty (scopes_of scope)) }
{
    with_entity(
        alloc,
        name,
        Entity::Typedef(false, Type::Integer(ty)),
        scope,
    )
}

/// A function of these parameters that gives an int.
fn with_character_function(
    alloc: Global,
    name: &[u8],
    callee: Callee,
    parameters: Vec<Type>,
    scope: Scope,
) -> Result<Scope, NoMemory>
    ensures { IfOk result (λ made. scopes_of made
        ≡ with_function name.now (callee_of callee) parameters.items (scopes_of scope)) }
{
    let ty = function_of(alloc, Type::Integer(Integer::Int), parameters)?;
    with_entity(alloc, name, Entity::Function(callee, false, ty), scope)
}

fn functions(alloc: Global) -> Result<Scope, NoMemory>
    ensures { IfOk result (λ made. scopes_of made ≡ predeclared_functions) }
{
    let mut one = Vec::new(alloc);
    one.push(Type::Integer(Integer::Int))?;
    let scope = with_character_function(
        alloc,
        Service::Putchar.name(),
        Callee::Service(Service::Putchar),
        one,
        Scope::new(alloc),
    )?;
    with_character_function(
        alloc,
        Service::Getchar.name(),
        Callee::Service(Service::Getchar),
        Vec::new(alloc),
        scope,
    )
}

/// The scopes before the first declaration of a unit: the types that stand in for headers,
/// `getchar` and `putchar`.
pub(crate) fn predeclared(alloc: Global) -> Result<Scope, NoMemory>
    ensures { IfOk result (λ made. scopes_of made ≡ f.predeclared) }
{
    let scope = functions(alloc)?;
    let scope = with_type(alloc, b"size_t", Integer::UnsignedInt, scope)?;
    let scope = with_type(alloc, b"uint32_t", Integer::UnsignedInt, scope)?;
    let scope = with_type(alloc, b"int32_t", Integer::Int, scope)?;
    let scope = with_type(alloc, b"uint16_t", Integer::UnsignedShort, scope)?;
    let scope = with_type(alloc, b"int16_t", Integer::Short, scope)?;
    let scope = with_type(alloc, b"uint8_t", Integer::UnsignedChar, scope)?;
    with_type(alloc, b"int8_t", Integer::SignedChar, scope)
}
