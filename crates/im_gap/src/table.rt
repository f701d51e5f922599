ghost use Rattle.std.specs.Prelude.{◌≡◌, ◌+◌, ◌<◌, ◌≤◌, [], ◌++◌, ◌^◌, length, slice_index, OnOk};
ghost use Rattle.std.specs.Prelude.{IfOk, cond};
ghost use Rattle.im_rv.specs.Decode.{decode as decoded};
ghost use Rattle.im_gap.specs.Flow.{links};
ghost use Rattle.im_gap.specs.Table.{following, successors_by, behind, Drawn};

use crate::flow::{Turn, Way, index_at, links_register, way_of};
use crate::graph::Node;
use im_num::{NoMemory, beyond_memory};

// the next word, if there is one
fn push_following(targets: &mut Vec<u32>, count: u32, i: u32) -> Result<(), NoMemory>
    requires { i < 2 ^ 30 }
    ensures { OnOk result (targets.new.items ≡ targets.old.items ++ following count i) }
{
    if i + 1 < count {
        targets.push(i + 1)?;
    }
    Ok(())
}

// the word at a distance from word i, if one stands there
fn push_target(targets: &mut Vec<u32>, count: u32, i: u32, distance: u32) -> Result<(), NoMemory>
    requires { i < 2 ^ 20 }
    ensures { OnOk result (targets.new.items ≡ targets.old.items
        ++ successors_by count i distance Turn.Jumps) }
{
    let address = 4096 + 4 * i;
    if let Some(index) = index_at(count, address.wrapping_add(distance)) {
        targets.push(index)?;
    }
    Ok(())
}

fn push_successors(targets: &mut Vec<u32>, count: u32, i: u32, way: Way) -> Result<(), NoMemory>
    requires { i < 2 ^ 20 }
    ensures { OnOk result (targets.new.items ≡ targets.old.items
        ++ successors_by count i way.imm way.turn) }
{
    match way.turn {
        Turn::Passes => push_following(targets, count, i)?,
        Turn::Jumps => push_target(targets, count, i, way.imm)?,
        Turn::Branches => {
            push_following(targets, count, i)?;
            push_target(targets, count, i, way.imm)?;
        }
        Turn::Returns => targets.push(count)?,
        Turn::Stops => {}
    }
    Ok(())
}

// word i + 1, if word i is a `jal` that links this register
fn push_if_linked(
    targets: &mut Vec<u32>,
    count: u32,
    i: u32,
    word: u32,
    register: u8,
) -> Result<(), NoMemory>
    requires { i < 2 ^ 30 }
    ensures { OnOk result (targets.new.items ≡ targets.old.items
        ++ cond (links register (decoded word)) (following count i) []) }
{
    if links_register(word, register) {
        push_following(targets, count, i)?;
    }
    Ok(())
}

/// The words directly behind a `jal` that links this register.
pub fn push_behind(targets: &mut Vec<u32>, words: &[u32], register: u8) -> Result<(), NoMemory>
    requires { length words.now ≤ 261120 }
    ensures { OnOk result (targets.new.items ≡ targets.old.items
        ++ behind register words.now (length words.now)) }
{
    for i in 0..words.len() {
        push_if_linked(targets, words.len() as u32, i as u32, words[i], register)?;
    }
    Ok(())
}

/// A place among the targets as a node has it.
pub fn small(place: usize) -> Result<u32, NoMemory>
    ensures { IfOk result (λ n. n ≡ place) }
{
    u32::try_from(place).map_err(|_| beyond_memory())
}

/// The nodes of the words, in their order.
pub fn push_words(
    nodes: &mut Vec<Node>,
    targets: &mut Vec<u32>,
    words: &[u32],
) -> Result<(), NoMemory>
    requires few { length words.now ≤ 261120 }
    requires nodes { nodes.old.items ≡ [] }
    ensures { OnOk result
        (Drawn words.now (length words.now) nodes.new.items targets.new.items) }
{
    for i in 0..words.len() {
        let first = small(targets.len())?;
        push_successors(targets, words.len() as u32, i as u32, way_of(words[i]))?;
        let end = small(targets.len())?;
        nodes.push(Node {
            first,
            end,
            counts: true,
        })?;
    }
    Ok(())
}
