//! The parts of a declaration, with their string literals.
ghost use Rattle.std.specs.Prelude.{◌≡◌, MatchResult};
ghost use Rattle.im_ctree.specs.Tree as t;
ghost use Rattle.im_ctree.specs.Shape.{declarator_of, maybe_initializer_of};
ghost use Rattle.im_ctree.specs.declared.specifier.Specifiers.{out-Specifiers};
ghost use Rattle.im_check_initialisers.specs.im_ctype.Table.{structs_of};
ghost use Rattle.im_rules.specs.Breaks.{a_declarator};
ghost use Rattle.im_rules.specs.Declared as d;
ghost use Rattle.im_rules.specs.Rules.{named_in};
ghost use Rattle.im_rules.specs.Statements.{just_strings, initialised_strings, MayInitialise};
ghost use Rattle.im_rules.specs.Strings.{strings_of_declarator};
ghost use Rattle.im_rules.specs.Typed.{Declares};
ghost use Rattle.im_check_initialisers.specs.im_rules_limits.Limits.{IsWithin};
ghost use Rattle.im_check_stop.specs.Answers.{IsRefusal};
ghost use Rattle.im_ctree_parts.specs.Lists.{list_from};
ghost use Rattle.im_typed.specs.ProgramOf.{stmt_of};
ghost use Rattle.im_types.specs.Shape.{type_of};
ghost use Rattle.im_check_type_specifiers.specs.Specified.{qualified_of};
ghost use Rattle.im_check_declarators.specs.Shape.{declared_of};
ghost use Rattle.im_check_declarators.specs.Suffixes.{IsFault};
ghost use Rattle.im_check_place.specs.Contexts.{context_of};
ghost use Rattle.im_check_sites.specs.Sites.{IsPast};
ghost use Rattle.im_check_initialisers.specs.Given.{IsInitialisationFault, IsInitialisationWithin};
ghost use Rattle.im_check_locals.specs.Objects.{IsSpecified};
ghost use Rattle.im_check_locals.specs.Tags as tags;

use crate::tag::LoneTag;
use im_check_declarators::Declared;
use im_check_initialisers::{declarator, initialisation};
use im_check_sites::Body;
use im_check_stop::Stop;
use im_check_texts::{append_declarator, append_given_if_any};
use im_check_type_specifiers::{Qualified, declare_alone, mention, specified_type};
use im_ctree::{Declarator, Initializer, Specifiers};
use im_typed::Stmt;
use im_types::Type;
use std::alloc::Global;

/// The type that a declaration's specifiers name; a struct's tag that they mention is in scope
/// behind them.
pub(crate) fn specified(
    alloc: Global,
    written: &Specifiers,
    body: &mut Body,
) -> Result<Qualified, Stop>
    ensures { let xs = list_from (out-Specifiers written.now).items.items in
        let c = context_of body.old.place in let asked = d.specifiers_ask c xs in
        MatchResult result
        (λ q. IsSpecified body.old body.new asked (d.tags_in c (named_in xs))
        × (qualified_of q ≡ d.type_of_specifiers c xs))
        (IsRefusal asked (out-Specifiers written.now).at) }
{
    let q = specified_type(
        alloc,
        &body.place.scope,
        &body.place.outline.lists,
        written.at,
        &written.items,
    )?;
    mention(
        alloc,
        &mut body.place.scope,
        &body.place.outline.lists,
        &written.items,
    )?;
    Ok(q)
}

/// A declaration `struct s;`, whose first token is that one: the tag is the innermost scope's.
pub(crate) fn declared_alone(
    alloc: Global,
    at: u32,
    lone: LoneTag<'_>,
    body: &mut Body,
) -> Result<(), Stop>
    ensures { let xs = tags.lone lone.entry.at lone.entry.tag.now.items in let c = context_of body.old.place in
        let asked = d.declaration_asks c xs t.no_init_declarators in
        MatchResult result (λ u. IsSpecified body.old body.new asked
        (d.tags_declared c xs t.no_init_declarators)) (IsRefusal asked at) }
{
    declare_alone(
        alloc,
        &mut body.place.scope,
        &body.place.outline.lists,
        at,
        lone.at,
        lone.tag,
    )?;
    Ok(())
}

/// What a declarator declares.
pub(crate) fn declared(
    alloc: Global,
    q: Qualified,
    written: &Declarator,
    body: &mut Body,
) -> Result<Declared, Stop>
    ensures { let e = declarator_of written.now in MatchResult result
        (λ y. Declares (context_of body.old.place) (qualified_of q) e (declared_of y)
        × IsPast (just_strings (strings_of_declarator e)) body.old body.new
        × IsWithin (context_of body.old.place) (a_declarator (qualified_of q) e))
        (IsFault (context_of body.old.place) (a_declarator (qualified_of q) e)) }
{
    let y = declarator(alloc, q, written, &mut body.place)?;
    append_declarator(alloc, written, &mut body.texts)?;
    Ok(y)
}

/// What the declaration of the object of that number and type does.
pub(crate) fn begun(
    alloc: Global,
    number: u32,
    ty: &Type,
    initializer: &Option<Initializer>,
    body: &mut Body,
) -> Result<Stmt, Stop>
    ensures { let i = maybe_initializer_of initializer.now in let a = type_of ty.now in
        let c = context_of body.old.place in MatchResult result
        (λ u. MayInitialise c number a i (stmt_of body.old.place.structs u)
        × IsPast (just_strings (initialised_strings c.known a i)) body.old body.new
        × IsInitialisationWithin c a i)
        (IsInitialisationFault c a i) }
{
    let done = initialisation(alloc, number, ty, initializer, &mut body.place)?;
    append_given_if_any(
        alloc,
        body.place.structs.table(),
        ty,
        initializer,
        &mut body.texts,
    )?;
    Ok(done)
}
