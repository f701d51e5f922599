//! The body of a function (C11 6.9.1).
ghost use Rattle.std.specs.Prelude.{MatchResult};
ghost use Rattle.im_ctree.specs.Shape.{block_items_of};
ghost use Rattle.im_rules.specs.BodyBreaks.{some_items};
ghost use Rattle.im_check_sites.specs.Sites.{IsBodyFault};
ghost use Rattle.im_check_statements.specs.Checked.{alone, BodyDone};

use crate::statements::items;
use im_check_sites::{Body, Position};
use im_check_statement_forms::{block_made, closed};
use im_check_stop::Stop;
use im_ctree::BlockItem;
use im_typed::Stmt;
use std::alloc::Global;

/// What the items of a function's body are typed to: one block. The body's scope, with the
/// parameters in it, is open, and stays so; the names of the items are out of scope again.
pub fn body(alloc: Global, list: &[BlockItem], body: &mut Body) -> Result<Stmt, Stop>
    ensures { MatchResult result (BodyDone body.old list.now body.new)
        (IsBodyFault body.old alone (some_items (block_items_of list.now))) }
{
    let alone = Position {
        in_loop: false,
        in_switch: false,
    };
    let mark = body.place.scope.mark();
    let done = items(alloc, list, alone, body)?;
    closed(mark, body);
    Ok(block_made(done))
}
