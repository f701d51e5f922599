ghost use Rattle.std.specs.Prelude.{◌≡◌, ◌<◌, ◌≤◌, ◌⊎◌, ℕ, length, slice_index};
ghost use Rattle.im_gap.specs.Graph.{successors_of, size_of, IsGraph, AreNodes};
ghost use Rattle.im_gap.specs.Search.{mark_at, IsDone, AreDone, AreCursorsOf};

use crate::graph::Graph;

/// What the search knows of a node.
#[derive(Clone, Copy, PartialEq, Eq, Debug)]
pub enum Mark {
    Unseen,
    /// On the path that is being walked.
    Open,
    /// The greatest cost of a walk from it is known.
    Done(u32),
}

// the first of these nodes, from a place on, that isn't done
fn waiting(marks: &[Mark], nodes: &[u32], from: usize) -> usize
    requires inside { AreNodes nodes.now (length marks.now) }
    requires within { from ≤ length nodes.now }
    ensures later { from ≤ result }
    ensures end { result ≤ length nodes.now }
    ensures passed { (k : ℕ) → from ≤ k → k < result
        → IsDone (mark_at marks.now (slice_index nodes.now k)) }
    ensures waits { result < length nodes.now
        → ¬ IsDone (mark_at marks.now (slice_index nodes.now result)) }
{
    let mut at = from;
    while at < nodes.len() {
        match marks[nodes[at] as usize] {
            Mark::Done(_) => at += 1,
            _ => return at,
        }
    }
    at
}

/// The greatest height of these nodes, all of them done; 0 where there are none.
pub fn greatest(marks: &[Mark], nodes: &[u32]) -> u32
    requires inside { AreNodes nodes.now (length marks.now) }
    ensures above { (k h : ℕ) → k < length nodes.now
        → mark_at marks.now (slice_index nodes.now k) ≡ Mark.Done h → h ≤ result }
    ensures met { (result ≡ 0) ⊎ ((k : ℕ) × (k < length nodes.now)
        × (mark_at marks.now (slice_index nodes.now k) ≡ Mark.Done result)) }
{
    let mut best = 0;
    for node in nodes {
        if let Mark::Done(height) = marks[*node as usize] {
            if best < height {
                best = height;
            }
        }
    }
    best
}

/// Moves the cursor of a node to the first of its successors that isn't done.
pub fn advance(marks: &[Mark], cursors: &mut Vec<u32>, graph: &Graph, v: u32) -> usize
    requires graph { IsGraph graph.now }
    requires marks { length marks.now ≡ size_of graph.now }
    requires inside { v < size_of graph.now }
    requires passed { AreCursorsOf graph.now marks.now cursors.old.items }
    ensures passed { AreCursorsOf graph.now marks.now cursors.new.items }
    ensures end { result ≤ length (successors_of graph.now v) }
    ensures done { AreDone marks.now (successors_of graph.now v) result }
    ensures waits { result < length (successors_of graph.now v)
        → ¬ IsDone (mark_at marks.now (slice_index (successors_of graph.now v) result)) }
{
    let at = waiting(marks, graph.successors(v), cursors[v as usize] as usize);
    cursors[v as usize] = at as u32;
    at
}
