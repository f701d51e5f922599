//! Declarations in a block (C11 6.7).
ghost use Rattle.std.specs.Prelude.{◌≡◌, MatchResult, IfOk};
ghost use Rattle.im_ctree.specs.Shape.{declaration_of, init_declarators_of};
ghost use Rattle.im_ctree.specs.declared.specifier.Specifiers.{out-Specifiers};
ghost use Rattle.im_ctree_parts.specs.Lists.{list_from};
ghost use Rattle.im_check_type_specifiers.specs.Specified.{qualified_of};
ghost use Rattle.im_check_locals.specs.Declarations.{DeclarationDone, IsDeclarationFault};
ghost use Rattle.im_check_locals.specs.Objects.{LocalsDone, AreLocalsFault};
ghost use Rattle.im_check_locals.specs.Tags.{IsOrdinary};

use crate::objects::local;
use crate::read::{declared_alone, specified};
use crate::tag::tag_alone;
use im_check_sites::Body;
use im_check_stop::Stop;
use im_check_type_specifiers::Qualified;
use im_ctree::{Declaration, InitDeclarator};
use im_num::NoMemory;
use im_typed::Stmt;
use im_types::copy;
use std::alloc::Global;

fn once_more(alloc: Global, q: &Qualified) -> Result<Qualified, NoMemory>
    ensures { IfOk result (λ r. qualified_of r ≡ qualified_of q.now) }
{
    Ok(Qualified {
        constant: q.constant,
        ty: copy(alloc, &q.ty)?,
    })
}

/// Declarators of objects of that type, or of types that they make of it.
fn locals(
    alloc: Global,
    q: &Qualified,
    declarators: &[InitDeclarator],
    body: &mut Body,
    done: &mut Vec<Stmt>,
) -> Result<(), Stop>
    ensures { let ds = init_declarators_of declarators.now in
        MatchResult result (λ u. LocalsDone (qualified_of q.now) body.old body.new done.old.items
        done.new.items ds) (AreLocalsFault (qualified_of q.now) body.old ds) }
{
    for x in declarators {
        let each = once_more(alloc, q)?;
        let u = local(alloc, each, x, body)?;
        done.push(u)?;
    }
    Ok(())
}

/// A declaration that isn't `struct s;` alone.
fn ordinary(
    alloc: Global,
    d: &Declaration,
    body: &mut Body,
    done: &mut Vec<Stmt>,
) -> Result<(), Stop>
    requires { IsOrdinary (list_from (out-Specifiers d.now.specifiers).items.items)
        (init_declarators_of d.now.declarators.items) }
    ensures { MatchResult result (λ u. DeclarationDone body.old body.new done.old.items
        done.new.items (declaration_of d.now)) (IsDeclarationFault body.old (declaration_of d.now)) }
{
    let q = specified(alloc, &d.specifiers, body)?;
    locals(alloc, &q, &d.declarators, body, done)
}

/// A declaration in a block: what it does is pushed behind `done`, and its names, its objects and
/// its string literals are behind those of the body. A name that the innermost scope has breaks
/// rule 3, one of a type rule 4, an absent length rule 6, and an incomplete type rule 5; the rest
/// is broken in its specifiers, declarators and initialisers. `struct s;` alone declares the tag in
/// the innermost scope, and breaks rule 3 where that has it as an enum's. A type in these, or an
/// object's own, may be over the limit of sizes. Want of memory also where an object's number has
/// more than 32 bits, and of a name that is declared already where no block is open.
pub fn declaration(
    alloc: Global,
    d: &Declaration,
    body: &mut Body,
    done: &mut Vec<Stmt>,
) -> Result<(), Stop>
    ensures { MatchResult result (λ u. DeclarationDone body.old body.new done.old.items
        done.new.items (declaration_of d.now)) (IsDeclarationFault body.old (declaration_of d.now)) }
{
    match tag_alone(d) {
        Some(lone) => declared_alone(alloc, d.specifiers.at, lone, body),
        None => ordinary(alloc, d, body, done),
    }
}
