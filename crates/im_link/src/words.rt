ghost use Rattle.std.specs.Prelude.{◌≡◌, ◌+◌, ◌<◌, ◌≤◌, ◌++◌, ◌∷◌, [], List, length, nat_eq, OnOk};
ghost use Rattle.std.specs.HashMap as hash;
ghost use Rattle.im_rv.specs.declared.code.Line.{Line as CodeLine};
ghost use Rattle.im_link.specs.Links.{AreWordsOf};
ghost use Rattle.im_link.specs.State.{AddsAim, AreAimsNear, AreLinesKept, IsAimedWord, IsNearAim};
ghost use Rattle.im_link.specs.State.{IsPut};

use crate::aim::{Aim, aimed};
use crate::places::{Places, find, note};
use im_num::NoMemory;
use im_rv::encode::encode;
use im_rv::{Instr, Line};

// Adds the aim of a line that is word `at`, if it has a target.
fn push_aim(
    aims: &mut Vec<Aim>,
    target: Option<u32>,
    instr: Instr,
    at: usize,
) -> Result<(), NoMemory>
    requires { at < 261120 }
    ensures { OnOk result (AddsAim at instr target aims.old.items aims.new.items) }
{
    let Some(label) = target else {
        return Ok(());
    };
    let at = at as u32;
    aims.push(Aim { at, label, instr })?;
    Ok(())
}

// Adds a line's word, aim and label.
fn push_line(
    words: &mut Vec<u32>,
    aims: &mut Vec<Aim>,
    places: &mut Places,
    line: &Line,
) -> Result<(), NoMemory>
    requires { length words.old.items < 261120 }
    ensures count { OnOk result (length words.new.items ≡ length words.old.items + 1) }
    ensures kept { OnOk result ((lines : List CodeLine)
        → AreLinesKept lines words.old.items aims.old.items (hash.get nat_eq places.old)
        → AreLinesKept (lines ++ line.now ∷ []) words.new.items aims.new.items
        (hash.get nat_eq places.new)) }
{
    let at = words.len();
    note(places, line.label, at)?;
    push_aim(aims, line.target, line.instr, at)?;
    words.push(encode(line.instr))?;
    Ok(())
}

/// Adds words, aims and labels of these lines.
pub fn push_lines(
    words: &mut Vec<u32>,
    aims: &mut Vec<Aim>,
    places: &mut Places,
    lines: &[Line],
) -> Result<(), NoMemory>
    requires { length words.old.items + length lines.now ≤ 261120 }
    ensures { OnOk result ((before : List CodeLine)
        → AreLinesKept before words.old.items aims.old.items (hash.get nat_eq places.old)
        → AreLinesKept (before ++ lines.now) words.new.items aims.new.items
        (hash.get nat_eq places.new)) }
{
    for line in lines {
        push_line(words, aims, places, line)?;
    }
    Ok(())
}

// The word of a line with a target, whose label has a place.
fn aimed_word(aim: &Aim, places: &Places) -> u32
    requires { IsNearAim (hash.get nat_eq places.now) aim.now }
    ensures { IsAimedWord (hash.get nat_eq places.now) aim.now result }
{
    match find(places, aim.label) {
        Some(to) => encode(aimed(&aim.instr, aim.at as usize, to)),
        None => unreachable!(),
    }
}

fn put(words: &mut Vec<u32>, at: usize, word: u32)
    requires { at < length words.old.items }
    ensures { IsPut at word words.old.items words.new.items }
{
    words[at] = word;
}

/// Makes the words of the lines with a target.
pub fn aim_words(words: &mut Vec<u32>, aims: &[Aim], places: &Places)
    requires { AreAimsNear (hash.get nat_eq places.now) (length words.old.items) aims.now }
    ensures { (lines : List CodeLine)
        → AreLinesKept lines words.old.items aims.now (hash.get nat_eq places.now)
        → AreWordsOf lines words.new.items }
{
    for aim in aims {
        put(words, aim.at as usize, aimed_word(aim, places));
    }
}
