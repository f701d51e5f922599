ghost use Rattle.std.specs.Prelude.{◌≡◌, ◌<◌, ◌-◌, ◌++◌, ◌∷◌, [], length, slice_index, OnOk, IfOk};
ghost use Rattle.im_gap.specs.Walks.{IsEndless};
ghost use Rattle.im_gap.specs.Graph.{successors_of, size_of, IsGraph};
ghost use Rattle.im_gap.specs.Search.{mark_at, changes_left, IsDone, AreDone, KeepsDone, LeadsTo};
ghost use Rattle.im_gap.specs.Search.{IsSearchOf, AreCursorsOf};

use crate::graph::Graph;
use crate::marks::{Mark, advance, greatest};
use im_num::NoMemory;
use std::alloc::Global;

// Opens a node that wasn't seen: the path goes on to it.
fn enter(marks: &mut Vec<Mark>, path: &mut Vec<u32>, graph: &Graph, v: u32) -> Result<(), NoMemory>
    requires searched { IsSearchOf graph.now marks.old.items path.old.items }
    requires inside { v < size_of graph.now }
    requires unseen { mark_at marks.old.items v ≡ Mark.Unseen }
    requires leads { LeadsTo graph.now path.old.items v }
    ensures searched { OnOk result (IsSearchOf graph.now marks.new.items path.new.items) }
    ensures path { OnOk result (path.new.items ≡ path.old.items ++ v ∷ []) }
    ensures less { OnOk result (changes_left marks.new.items < changes_left marks.old.items) }
    ensures kept { OnOk result (KeepsDone marks.old.items marks.new.items) }
{
    path.push(v)?;
    marks[v as usize] = Mark::Open;
    Ok(())
}

// The last node of the path is done, as all that it leads to is.
fn leave(marks: &mut Vec<Mark>, path: &mut Vec<u32>, graph: &Graph, v: u32)
    requires graph { IsGraph graph.now }
    requires searched { IsSearchOf graph.now marks.old.items path.old.items }
    requires some { 0 < length path.old.items }
    requires last { slice_index path.old.items (length path.old.items - 1) ≡ v }
    requires done { AreDone marks.old.items (successors_of graph.now v)
        (length (successors_of graph.now v)) }
    ensures searched { IsSearchOf graph.now marks.new.items path.new.items }
    ensures path { path.old.items ≡ path.new.items ++ v ∷ [] }
    ensures done { IsDone (mark_at marks.new.items v) }
    ensures less { changes_left marks.new.items < changes_left marks.old.items }
    ensures kept { KeepsDone marks.old.items marks.new.items }
{
    let height = graph.weight(v) + greatest(marks, graph.successors(v));
    marks[v as usize] = Mark::Done(height);
    path.pop();
}

/// What a search from a node comes to.
#[derive(Clone, Copy, PartialEq, Eq, Debug)]
pub enum Found {
    /// The heights of the node and of all that can be reached from it are known.
    Heights,
    /// The node leads to a cycle.
    Cycle,
}

/// Searches from a node that wasn't seen.
pub fn visit(
    alloc: Global,
    marks: &mut Vec<Mark>,
    cursors: &mut Vec<u32>,
    graph: &Graph,
    root: u32,
) -> Result<Found, NoMemory>
    requires graph { IsGraph graph.now }
    requires searched { IsSearchOf graph.now marks.old.items [] }
    requires inside { root < size_of graph.now }
    requires passed { AreCursorsOf graph.now marks.old.items cursors.old.items }
    requires unseen { mark_at marks.old.items root ≡ Mark.Unseen }
    ensures searched { IfOk result (λ found. found ≡ Found.Heights
        → IsSearchOf graph.now marks.new.items []) }
    ensures passed { IfOk result (λ found. found ≡ Found.Heights
        → AreCursorsOf graph.now marks.new.items cursors.new.items) }
    ensures done { IfOk result (λ found. found ≡ Found.Heights
        → IsDone (mark_at marks.new.items root)) }
    ensures endless { IfOk result (λ found. found ≡ Found.Cycle
        → IsEndless (successors_of graph.now) root) }
{
    let mut path = Vec::new(alloc);
    enter(marks, &mut path, graph, root)?;
    while let Some(&top) = path.last() {
        let successors = graph.successors(top);
        let at = advance(marks, cursors, graph, top);
        if at == successors.len() {
            leave(marks, &mut path, graph, top);
        } else {
            let successor = successors[at];
            if marks[successor as usize] == Mark::Open {
                return Ok(Found::Cycle);
            }
            enter(marks, &mut path, graph, successor)?;
        }
    }
    Ok(Found::Heights)
}
