ghost use Rattle.std.specs.Prelude.{◌≡◌, [], ◌∷◌, ◌++◌, map, IfOk, MatchResult, Some};
ghost use Rattle.std.specs.Str.Lines.{lines};
ghost use Rattle.im_trial.specs.Tables as tables;
ghost use Rattle.im_trial.specs.Tables.{below_last, put_line as line_put, rows_in, said_of};
ghost use Rattle.im_trial.specs.Finding.{Refuses};

use crate::row::Row;
use crate::stop::Stop;
use std::alloc::{AllocError, Global};

// The lines of a table.
fn lines_of(alloc: Global, table: &str) -> Result<Vec<&str>, AllocError>
    ensures { IfOk result (λ found. map (λ line. line.now) found.items ≡ lines table.now) }
{
    table.lines().collect(alloc)
}

/// Whether a line is a row, and no remark.
fn is_row(line: &str) -> bool
    ensures { result ≡ tables.is_row line.now }
{
    !line.is_empty() && !line.starts_with('#') && !line.starts_with('|')
}

// Puts a line below the last row.
fn put_below(rows: &mut Vec<Row<'_>>, line: &str) -> Result<(), Stop>
    ensures { let put = below_last (map said_of rows.old.items) (line.now ++ 10 ∷ []) in
        MatchResult result (λ _. put ≡ Some (map said_of rows.new.items)) (Refuses put) }
{
    let count = rows.len();
    if count == 0 {
        return Err(Stop::Row);
    }
    rows[count - 1].put_below(line)
}

// Takes one line more.
fn put_line<'a>(alloc: Global, rows: &mut Vec<Row<'a>>, line: &'a str) -> Result<(), Stop>
    ensures { let put = line_put (map said_of rows.old.items) line.now in
        MatchResult result (λ _. put ≡ Some (map said_of rows.new.items)) (Refuses put) }
{
    if let Some(more) = line.strip_prefix('|') {
        return put_below(rows, more);
    }
    if is_row(line) {
        rows.push(Row::new(alloc, line)?)?;
    }
    Ok(())
}

/// The rows of a table. A line that begins with `|` stands below the row before it; one that is
/// empty or begins with `#` is none.
pub fn rows_of(alloc: Global, table: &str) -> Result<Vec<Row<'_>>, Stop>
    ensures { MatchResult result (λ rows. rows_in table.now ≡ Some (map said_of rows.items))
        (Refuses (rows_in table.now)) }
{
    let lines = lines_of(alloc, table)?;
    let mut rows = Vec::new(alloc);
    for line in &lines {
        put_line(alloc, &mut rows, line)?;
    }
    Ok(rows)
}
