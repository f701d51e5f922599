ghost use Rattle.std.specs.Prelude.{◌≡◌, ◌<◌, ◌≤◌, ◌⊎◌, ◌*◌, [], ℕ, length, slice_index, IfOk};
ghost use Rattle.std.specs.Prelude.{IfSome, None};
ghost use Rattle.std.specs.List.{Contains};
ghost use Rattle.im_gap.specs.Walks.{IsHeight, IsGreatest, IsEndless};
ghost use Rattle.im_gap.specs.Graph.{successors_of, weight_of, size_of, IsGraph, AreNodes};
ghost use Rattle.im_gap.specs.Search.{IsSearchOf, AreCursorsOf};

use crate::graph::Graph;
use crate::marks::Mark;
use crate::search::{Found, visit};
use im_num::NoMemory;
use std::alloc::Global;

// The greatest cost of a walk from a node; none where walks of every length begin there.
fn height_from(
    alloc: Global,
    marks: &mut Vec<Mark>,
    cursors: &mut Vec<u32>,
    graph: &Graph,
    start: u32,
) -> Result<Option<u32>, NoMemory>
    requires graph { IsGraph graph.now }
    requires searched { IsSearchOf graph.now marks.old.items [] }
    requires passed { AreCursorsOf graph.now marks.old.items cursors.old.items }
    requires inside { start < size_of graph.now }
    ensures searched { IfOk result (λ found. IfSome found (λ height.
        IsSearchOf graph.now marks.new.items [])) }
    ensures passed { IfOk result (λ found. IfSome found (λ height.
        AreCursorsOf graph.now marks.new.items cursors.new.items)) }
    ensures height { IfOk result (λ found. IfSome found (λ height.
        IsHeight (successors_of graph.now) (weight_of graph.now) start height)) }
    ensures small { IfOk result (λ found. IfSome found (λ height.
        height ≤ 2 * size_of graph.now)) }
    ensures endless { IfOk result (λ found. found ≡ None
        → IsEndless (successors_of graph.now) start) }
{
    if marks[start as usize] == Mark::Unseen {
        if visit(alloc, marks, cursors, graph, start)? == Found::Cycle {
            return Ok(None);
        }
    }
    match marks[start as usize] {
        Mark::Done(height) => Ok(Some(height)),
        _ => Ok(None),
    }
}

fn higher(a: u32, b: u32) -> u32
    ensures left { a ≤ result }
    ensures right { b ≤ result }
    ensures one { (result ≡ a) ⊎ (result ≡ b) }
{
    if a < b { b } else { a }
}

/// The greatest cost of a walk that begins at one of these nodes; none where walks of every length
/// begin at one of them.
pub fn longest(alloc: Global, graph: &Graph, starts: &[u32]) -> Result<Option<u32>, NoMemory>
    requires graph { IsGraph graph.now }
    requires inside { AreNodes starts.now (size_of graph.now) }
    ensures greatest { IfOk result (λ found. IfSome found (λ height.
        IsGreatest (successors_of graph.now) (weight_of graph.now) starts.now height)) }
    ensures small { IfOk result (λ found. IfSome found (λ height.
        height ≤ 2 * size_of graph.now)) }
    ensures endless { IfOk result (λ found. found ≡ None
        → (n : ℕ) × Contains starts.now n × IsEndless (successors_of graph.now) n) }
{
    let mut marks = vec![in alloc; Mark::Unseen; graph.nodes.len()]?;
    let mut cursors = vec![in alloc; 0; graph.nodes.len()]?;
    let mut best = 0;
    for start in starts {
        match height_from(alloc, &mut marks, &mut cursors, graph, *start)? {
            None => return Ok(None),
            Some(height) => best = higher(best, height),
        }
    }
    Ok(Some(best))
}
