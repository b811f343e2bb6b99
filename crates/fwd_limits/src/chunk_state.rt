//! The state of a chunk towards an output.

ghost use Rattle.std.specs.Prelude.{◌≡◌, ◌&&◌, not, None, get_or, option_map};
ghost use Rattle.fwd_limits.specs.ChunkState.{state_of, state_in_row};

use fwd_base::{ChunkId, OutputId, is_set};
use fwd_table::{RowSeen, Table, is_file};

/// The state of a chunk towards an output.
#[derive(Clone, Copy, Debug, PartialEq, Eq)]
pub struct ChunkState {
    pub chunk: ChunkId,
    /// The size of its content in bytes.
    pub size: u64,
    /// Whether it is kept in a file.
    pub is_file: bool,
    /// Whether it is closed, pending for the output, and not in flight to it.
    pub is_waiting: bool,
}

/// Returns whether a chunk is closed, pending and not in flight.
fn waits(is_shut: bool, is_owed: bool, is_flying: bool) -> bool
    ensures { result ≡ (is_shut && (is_owed && not is_flying)) }
{
    is_shut && is_owed && !is_flying
}

/// Returns the state of a row's chunk towards an output.
pub fn state_in_row(row: &RowSeen, output: OutputId) -> ChunkState
    ensures { result ≡ state_in_row output row.now }
{
    let is_owed = is_set(row.owed, output.0);
    let is_flying = is_set(row.flying, output.0);
    ChunkState {
        chunk: row.chunk,
        size: row.size,
        is_file: is_file(row.home),
        is_waiting: waits(row.shut, is_owed, is_flying),
    }
}

/// Returns the state of the chunk in the slot at an index, if the slot isn't empty.
pub fn state_in_slot(table: &Table, place: u64, output: OutputId) -> Option<ChunkState>
    ensures { result ≡ option_map (state_of output) (get_or table.now.places place None) }
{
    let row = table.row(place)?;
    Some(state_in_row(&row, output))
}
