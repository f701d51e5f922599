ghost use Rattle.std.specs.Prelude.{◌≡◌, true, false, length, IfOk, OnOk};
ghost use Rattle.im_trial.specs.Judging.{AreCounted, AreTablesCounted, IsCounted};
ghost use Rattle.im_trial.specs.Judging.{IsTableCounted, cases_in, none_counted};
ghost use Rattle.im_trial.specs.Texts.{has_text};

use crate::case::Case;
use crate::row::Row;
use crate::stop::Stop;
use crate::table::rows_of;
use crate::tally::Tally;
use crate::texts::Texts;
use std::fs;

/// The kinds of cases that a trial has.
pub trait Kinds {
    /// Runs the case of a row by its kind.
    fn run(&self, rt: &HostRuntime, texts: &Texts, row: &Row<'_>, case: &mut Case);
}

/// Takes the text of a row, or runs its case and tells whether it found what it should.
fn run_row<K: Kinds>(
    rt: &HostRuntime,
    kinds: &K,
    texts: &mut Texts,
    tally: &mut Tally,
    row: &Row<'_>,
) -> Result<(), Stop>
    ensures text { has_text row.now ≡ true → tally.new ≡ tally.old }
    ensures case { has_text row.now ≡ false
        → OnOk result ((texts.new ≡ texts.old) × IsCounted tally.old tally.new) }
{
    if texts.take(rt, row)? {
        return Ok(());
    }
    let mut case = Case::new(rt.alloc());
    kinds.run(rt, texts, row, &mut case);
    tally.judge(rt, row, &case)
}

// Runs rows, one after another.
fn run_rows<K: Kinds>(
    rt: &HostRuntime,
    kinds: &K,
    texts: &mut Texts,
    tally: &mut Tally,
    rows: &[Row<'_>],
) -> Result<(), Stop>
    ensures { OnOk result (AreCounted (cases_in rows.now) tally.old tally.new) }
{
    for row in rows {
        run_row(rt, kinds, texts, tally, row)?;
    }
    Ok(())
}

// Runs the rows of a table.
fn run_table<K: Kinds>(
    rt: &HostRuntime,
    kinds: &K,
    texts: &mut Texts,
    tally: &mut Tally,
    name: &str,
) -> Result<(), Stop>
    ensures { OnOk result (IsTableCounted tally.old tally.new) }
{
    let table = fs::read_to_string(rt, name)?;
    let rows = rows_of(rt.alloc(), &table)?;
    run_rows(rt, kinds, texts, tally, &rows)?;
    Ok(())
}

// Runs the rows of each table, in turn, and gives the counts.
fn run_each<K: Kinds>(rt: &HostRuntime, kinds: &K, names: &[&str]) -> Result<Tally, Stop>
    ensures { IfOk result (AreTablesCounted (length names.now) none_counted) }
{
    let mut texts = Texts::new(rt.alloc());
    let mut tally = Tally::new();
    for name in names {
        run_table(rt, kinds, &mut texts, &mut tally, name)?;
    }
    Ok(tally)
}

/// Runs the cases of tables, files of these names, in turn: prints what each found, and the counts.
pub fn run_tables<K: Kinds>(rt: &HostRuntime, kinds: &K, names: &[&str]) -> Result<(), Stop> {
    let tally = run_each(rt, kinds, names)?;
    tally.finish(rt)
}
