ghost use Rattle.std.specs.Prelude.{◌≡◌, ◌≤◌, length, IfOk, IfSome, None};
ghost use Rattle.im_gap.specs.Gap.{IsGap, HasGap};
ghost use Rattle.im_gap.specs.Table.{resume_words, Whole};

use crate::flow::index_at;
use crate::graph::{Graph, Node};
use crate::starts::longest;
use crate::table::{push_behind, push_words, small};
use im_num::NoMemory;
use im_rv::Code;
use std::alloc::Global;

// The instructions that recovery executes before a section goes on.
const RECOVERY_STEPS: u32 = 33;

// The register that a call links, and that of a cut.
const CALL_LINK: u8 = 1;

const CUT_LINK: u8 = 3;

// The flow of a code, all returns sharing the last node.
fn flow_graph(alloc: Global, words: &[u32]) -> Result<Graph, NoMemory>
    requires { length words.now ≤ 261120 }
    ensures { IfOk result (Whole words.now) }
{
    let mut nodes = Vec::with_capacity(alloc, words.len() + 1)?;
    let mut targets = Vec::with_capacity(alloc, words.len())?;
    push_words(&mut nodes, &mut targets, words)?;
    let first = small(targets.len())?;
    push_behind(&mut targets, words, CALL_LINK)?;
    let end = small(targets.len())?;
    targets.shrink_to_fit();
    nodes.push(Node {
        first,
        end,
        counts: false,
    })?;
    Ok(Graph { nodes, targets })
}

// The words at which sections begin: the entry, and the words after cuts.
fn section_starts(alloc: Global, words: &[u32], entry: u32) -> Result<Vec<u32>, NoMemory>
    requires { length words.now ≤ 261120 }
    ensures { IfOk result (λ starts. starts.items ≡ resume_words words.now entry) }
{
    let mut starts = Vec::new(alloc);
    if let Some(index) = index_at(words.len() as u32, entry) {
        starts.push(index)?;
    }
    push_behind(&mut starts, words, CUT_LINK)?;
    starts.shrink_to_fit();
    Ok(starts)
}

/// The longest gap, in instructions; none where no walk begins or they have no greatest length.
pub fn longest_gap(alloc: Global, code: &Code) -> Result<Option<u32>, NoMemory>
    requires { length code.now.words.items ≤ 261120 }
    ensures gap { IfOk result (λ found. IfSome found (λ k.
        IsGap code.now.words.items code.now.entry k)) }
    ensures undefined { IfOk result (λ found. found ≡ None
        → ¬ HasGap code.now.words.items code.now.entry) }
{
    let words = code.words.as_slice();
    let graph = flow_graph(alloc, words)?;
    let starts = section_starts(alloc, words, code.entry)?;
    if starts.is_empty() {
        return Ok(None);
    }
    match longest(alloc, &graph, &starts)? {
        None => Ok(None),
        Some(length) => Ok(Some(RECOVERY_STEPS + length)),
    }
}

/// K, the longest gap in instructions: a period of at least so many commits or ends the run.
pub fn gap(alloc: Global, code: &Code) -> Result<u32, NoMemory>
    requires few { length code.now.words.items ≤ 261120 }
    requires defined { HasGap code.now.words.items code.now.entry }
    ensures { IfOk result (IsGap code.now.words.items code.now.entry) }
{
    match longest_gap(alloc, code)? {
        None => Ok(0),
        Some(gap) => Ok(gap),
    }
}
