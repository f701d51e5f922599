ghost use Rattle.std.specs.Prelude.{◌≡◌, ◌<◌, ◌+◌, ◌*◌, ◌^◌, ℕ, false, All, IfOk, OnOk, length};
ghost use Rattle.std.specs.Prelude.{suc};
ghost use Rattle.im_block.specs.Wellformed.{LineWithin, ExitThere};
ghost use Rattle.im_alloc_intervals.specs.Lines.{IsSetAt, IsPassed};
ghost use Rattle.im_block_live.specs.Words.{AreLinked};
ghost use Rattle.im_alloc_intervals.specs.Homes.{IsAble};
ghost use Rattle.im_alloc_intervals.specs.Marks.{Adds, Flags, interval_at, flag_at};
ghost use Rattle.im_alloc_intervals.specs.Tables.{AreTables, ArePlaces, AreLinesWithin, HaveLength};
ghost use Rattle.im_alloc_intervals.specs.Tables.{HaveBlock};
ghost use Rattle.im_alloc_intervals.specs.Tables.{IsLivingAt, IsLivingIn, IsLivingOf, IsSetIn};
ghost use Rattle.im_alloc_intervals.specs.Tables.{IsPassedIn};
ghost use Rattle.im_alloc_intervals.specs.Tables.{IsCrossingAt, IsCrossingIn, IsCrossingOf};
ghost use Rattle.im_alloc_intervals.specs.Tables.{IsEnteringOf};

use crate::lines::{flag_across, flag_arguments, touch_targets};
use crate::marks::{Interval, flag_word, touch_words};
use crate::places::places;
use im_block::{Block, Function};
use im_block_live::{live, points};
use im_num::NoMemory;
use std::alloc::Global;

/// What is known of each register of a function: its interval, whether it must be in a slot, and
/// whether it is a call's argument.
#[derive(Drop)]
pub(crate) struct Tables {
    pub(crate) intervals: Vec<Option<Interval>>,
    pub(crate) slotted: Vec<bool>,
    pub(crate) arguments: Vec<bool>,
}

/// What a block's lines set is marked behind them, and arguments are flagged.
fn mark_targets(
    block: &Block,
    place: u64,
    intervals: &mut [Option<Interval>],
    arguments: &mut [bool],
)
    requires within { All (LineWithin (length intervals.old)) block.now.lines.items }
    requires count { length arguments.old ≡ length intervals.old }
    requires small { length intervals.old < 2 ^ 32 }
    requires room { place + suc (length block.now.lines.items) < 2 ^ 64 }
    ensures set { Adds (IsSetAt block.now.lines.items (place + 1)) intervals.old intervals.new }
    ensures passed { Flags (IsPassed block.now.lines.items) arguments.old arguments.new }
{
    touch_targets(intervals, &block.lines, place + 1);
    flag_arguments(arguments, &block.lines);
}

/// The same in all blocks.
fn mark_lines(
    blocks: &[Block],
    places: &[u64],
    intervals: &mut [Option<Interval>],
    arguments: &mut [bool],
)
    requires places { ArePlaces blocks.now places.now }
    requires within { AreLinesWithin (length intervals.old) blocks.now }
    requires count { length arguments.old ≡ length intervals.old }
    requires small { length intervals.old < 2 ^ 32 }
    ensures set { Adds (IsSetIn blocks.now places.now) intervals.old intervals.new }
    ensures passed { Flags (IsPassedIn blocks.now) arguments.old arguments.new }
{
    for (b, block) in blocks.iter().enumerate() {
        mark_targets(block, places[b], intervals, arguments);
    }
}

/// What lives in a block is marked, of 32 registers from `base` on, and what lives across its calls
/// is flagged. `starts` has what lives at the starts of blocks.
fn mark_block(
    alloc: Global,
    base: u64,
    starts: &[u32],
    block: &Block,
    place: u64,
    intervals: &mut [Option<Interval>],
    slotted: &mut [bool],
) -> Result<(), NoMemory>
    requires there { ExitThere (length starts.now) block.now.exit }
    requires small { base + 32 < 2 ^ 64 }
    requires room { place + suc (length block.now.lines.items) < 2 ^ 64 }
    ensures living { OnOk result
        (Adds (IsLivingAt base starts.now block.now place) intervals.old intervals.new) }
    ensures crossing { OnOk result
        (Flags (IsCrossingAt base starts.now block.now) slotted.old slotted.new) }
{
    let words = points(alloc, base, starts, block)?;
    touch_words(intervals, base, &words, place);
    flag_across(slotted, base, &words, &block.lines);
    Ok(())
}

/// The same in all blocks.
fn mark_group(
    alloc: Global,
    base: u64,
    starts: &[u32],
    blocks: &[Block],
    places: &[u64],
    intervals: &mut [Option<Interval>],
    slotted: &mut [bool],
) -> Result<(), NoMemory>
    requires count { length starts.now ≡ length blocks.now }
    requires linked { AreLinked blocks.now }
    requires places { ArePlaces blocks.now places.now }
    requires small { base + 32 < 2 ^ 64 }
    ensures living { OnOk result
        (Adds (IsLivingIn base starts.now blocks.now places.now) intervals.old intervals.new) }
    ensures crossing { OnOk result
        (Flags (IsCrossingIn base starts.now blocks.now) slotted.old slotted.new) }
{
    for (b, block) in blocks.iter().enumerate() {
        mark_block(alloc, base, starts, block, places[b], intervals, slotted)?;
    }
    Ok(())
}

/// The same of all groups of 32 registers.
fn mark_groups(
    alloc: Global,
    groups: &[Vec<u32>],
    blocks: &[Block],
    places: &[u64],
    intervals: &mut [Option<Interval>],
    slotted: &mut [bool],
) -> Result<(), NoMemory>
    requires few { 32 * length groups.now < 2 ^ 33 }
    requires words { HaveLength (length blocks.now) groups.now }
    requires linked { AreLinked blocks.now }
    requires places { ArePlaces blocks.now places.now }
    ensures living { OnOk result
        (Adds (IsLivingOf groups.now blocks.now places.now) intervals.old intervals.new) }
    ensures crossing { OnOk result
        (Flags (IsCrossingOf groups.now blocks.now) slotted.old slotted.new) }
{
    for (g, starts) in groups.iter().enumerate() {
        mark_group(
            alloc,
            32 * g as u64,
            starts,
            blocks,
            places,
            intervals,
            slotted,
        )?;
    }
    Ok(())
}

/// Flags what lives at the start of a block.
fn flag_entering(slotted: &mut [bool], groups: &[Vec<u32>], entry: u32)
    requires few { 32 * length groups.now < 2 ^ 33 }
    requires entry { HaveBlock entry groups.now }
    ensures { Flags (IsEnteringOf groups.now entry) slotted.old slotted.new }
{
    for (g, starts) in groups.iter().enumerate() {
        flag_word(slotted, 32 * g as u64, starts[entry as usize], None);
    }
}

fn no_intervals(alloc: Global, count: usize) -> Result<Vec<Option<Interval>>, NoMemory>
    ensures count { IfOk result (λ table. length table.items ≡ count) }
    ensures none { IfOk result (λ table. (v : ℕ) → interval_at table.items v ≡ None) }
{
    let table: Vec<Option<Interval>> = vec![in alloc; None; count]?;
    Ok(table)
}

fn no_flags(alloc: Global, count: usize) -> Result<Vec<bool>, NoMemory>
    ensures count { IfOk result (λ flags. length flags.items ≡ count) }
    ensures none { IfOk result (λ flags. (v : ℕ) → flag_at flags.items v ≡ false) }
{
    let flags: Vec<bool> = vec![in alloc; false; count]?;
    Ok(flags)
}

/// The tables of a function.
pub(crate) fn measure(alloc: Global, function: &Function) -> Result<Tables, NoMemory>
    requires { IsAble function.now }
    ensures { IfOk result (λ tables. AreTables function.now tables) }
{
    let lives = live(alloc, function)?;
    let places = places(alloc, &function.blocks)?;
    let count = function.register_count as usize;
    let mut intervals = no_intervals(alloc, count)?;
    let mut slotted = no_flags(alloc, count)?;
    let mut arguments = no_flags(alloc, count)?;
    mark_lines(&function.blocks, &places, &mut intervals, &mut arguments);
    flag_entering(&mut slotted, &lives.groups, function.entry);
    mark_groups(
        alloc,
        &lives.groups,
        &function.blocks,
        &places,
        &mut intervals,
        &mut slotted,
    )?;
    Ok(Tables {
        intervals,
        slotted,
        arguments,
    })
}
