//! What the declaration of an object of a function does (C11 6.2.4p6).
ghost use Rattle.std.specs.Prelude.{◌≡◌, MatchResult};
ghost use Rattle.im_ctree.specs.Shape.{initializer_of, maybe_initializer_of};
ghost use Rattle.im_ctree.specs.Tree as t;
ghost use Rattle.im_ctype.specs.Table.{structs_of};
ghost use Rattle.im_check_expressions.specs.im_rules.Statements.{initialised_strings};
ghost use Rattle.im_check_expressions.specs.im_rules.Statements.{MayInitialise};
ghost use Rattle.im_typed.specs.ProgramOf.{stmt_of};
ghost use Rattle.im_types.specs.Shape.{type_of};
ghost use Rattle.im_check_place.specs.Contexts.{context_of, behind_strings};
ghost use Rattle.im_check_initialisers.specs.Given.{IsInitialisationFault, IsInitialisationWithin};

use crate::cells::{cell_count, narrow};
use crate::walk::initialised;
use im_check_items::pieces_of;
use im_check_place::Place;
use im_check_stop::Stop;
use im_ctree::Initializer;
use im_typed::Stmt;
use im_types::Type;
use std::alloc::Global;

/// What the declaration of the object of that number, among those of its function, does: the object
/// is uninitialised again, or initialised. It goes on behind the string literals of the initialiser
/// that initialise no array. An initialiser is at fault as it is at `initialised`. Want of memory
/// also where an offset or the number of cells is no number of 32 bits.
pub fn initialisation(
    alloc: Global,
    local: u32,
    ty: &Type,
    initializer: &Option<Initializer>,
    place: &mut Place,
) -> Result<Stmt, Stop>
    ensures { let a = type_of ty.now in let i = maybe_initializer_of initializer.now in
        MatchResult result (λ u. MayInitialise (context_of place.old) local a i
        (stmt_of place.old.structs u) × (place.new
        ≡ behind_strings (initialised_strings (structs_of place.old.structs) a i) place.old)
        × IsInitialisationWithin (context_of place.old) a i)
        (IsInitialisationFault (context_of place.old) a i) }
{
    match initializer {
        None => Ok(Stmt::Forget(local)),
        Some(i) => given(alloc, local, ty, i, place),
    }
}

fn given(
    alloc: Global,
    local: u32,
    ty: &Type,
    i: &Initializer,
    place: &mut Place,
) -> Result<Stmt, Stop>
    ensures { let a = type_of ty.now in let i = t.an_initializer (initializer_of i.now) in
        MatchResult result (λ u. MayInitialise (context_of place.old) local a i
        (stmt_of place.old.structs u) × (place.new
        ≡ behind_strings (initialised_strings (structs_of place.old.structs) a i) place.old)
        × IsInitialisationWithin (context_of place.old) a i)
        (IsInitialisationFault (context_of place.old) a i) }
{
    let mut items = Vec::new(alloc);
    initialised(alloc, ty, 0, i, place, &mut items)?;
    let count = cell_count(place.structs.table(), ty)?;
    let cells = narrow(count)?;
    let pieces = pieces_of(alloc, place.structs.table(), items)?;
    Ok(Stmt::Initialise {
        local,
        cells,
        pieces,
    })
}
