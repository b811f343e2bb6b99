//! Counts of the table's rows.

ghost use Rattle.std.specs.Prelude.{◌≡◌};
ghost use Rattle.fwd_pages.specs.Count.{count_of, is_counted, is_from, one_seen};

use fwd_base::{InputId, OutputId, is_set};
use fwd_table::{RowSeen, Table, is_file};

/// Which rows are counted.
#[derive(Clone, Copy, Debug, PartialEq, Eq)]
pub enum Counted {
    /// Chunks in memory.
    InMemory,
    /// Chunks in files.
    InFiles,
    /// Chunks in memory that came from an input of this run.
    MemoryOf(InputId),
    /// Chunks in files that came from an input of this run.
    FilesOf(InputId),
    /// Chunks that take more events, and came from an input of this run.
    OpenOf(InputId),
    /// Chunks that are pending for an output.
    PendingFor(OutputId),
}

fn is_from(row: &RowSeen, input: InputId) -> bool
    ensures { result ≡ is_from input.0 row.now.input }
{
    match row.input {
        Some(from) => from.0 == input.0,
        None => false,
    }
}

fn is_counted(which: Counted, row: &RowSeen) -> bool
    ensures { result ≡ is_counted which row.now }
{
    match which {
        Counted::InMemory => !is_file(row.home),
        Counted::InFiles => is_file(row.home),
        Counted::MemoryOf(input) => is_from(row, input) && !is_file(row.home),
        Counted::FilesOf(input) => is_from(row, input) && is_file(row.home),
        Counted::OpenOf(input) => is_from(row, input) && !row.shut,
        Counted::PendingFor(output) => is_set(row.owed, output.0),
    }
}

/// Returns 1 for a row that is counted.
fn one_of(which: Counted, row: &RowSeen) -> u64
    ensures { result ≡ one_seen which row.now }
{
    if is_counted(which, row) { 1 } else { 0 }
}

/// Returns how many rows of a table are counted. It looks at each row.
pub fn count_rows(table: &Table, which: Counted) -> u64
    ensures { result ≡ count_of which table.now.rows }
{
    let mut count: u64 = 0;
    for place in 0..table.places() {
        if let Some(row) = table.row(place) {
            count = count.saturating_add(one_of(which, &row));
        }
    }
    count
}
