//! Eviction of chunks by the size limit of an output.

ghost use Rattle.std.specs.Prelude.{◌≡◌, filter};
ghost use Rattle.fwd_table.specs.Rows.{is_row_of};
ghost use Rattle.fwd_table.specs.Usage.{size_of, waiting_for};
ghost use Rattle.fwd_limits.specs.ChunkState.{waiting_size, waits_beside};
ghost use Rattle.fwd_limits.specs.Evictions.{other_waiting, first_chunk, next_eviction};

use crate::chunk_state::{ChunkState, state_in_row, state_in_slot};
use fwd_base::{ChunkId, OutputId};
use fwd_table::Table;

/// The next eviction, so that a closed chunk fits.
#[derive(Clone, Copy, Debug, PartialEq, Eq)]
pub enum Loss {
    /// The chunk fits.
    Fits,
    /// The output evicts this chunk; ask again afterwards.
    Lose(ChunkId),
    /// There is no room for the new chunk: the output evicts it, and no other.
    NewLoses,
}

/// Returns the bytes of a chunk that wait in a file for the output.
fn waiting_part(look: ChunkState) -> u64
    ensures { result ≡ waiting_size look }
{
    if look.is_file && look.is_waiting {
        look.size
    } else {
        0
    }
}

/// Returns whether a chunk waits in a file for the output, and is another one than this.
fn is_other(look: ChunkState, chunk: ChunkId) -> bool
    ensures { result ≡ waits_beside chunk look }
{
    look.is_file && look.is_waiting && look.chunk != chunk
}

/// Returns the size of a chunk in bytes.
fn own_bytes(table: &Table, chunk: ChunkId) -> u64
    ensures { result ≡ size_of (filter (is_row_of chunk) table.now.rows) }
{
    match table.find(chunk) {
        Some(row) => row.size,
        None => 0,
    }
}

/// Returns the bytes of a chunk that wait in a file for the output.
fn own_waiting(table: &Table, output: OutputId, chunk: ChunkId) -> u64
    ensures { result ≡ size_of (waiting_for output (filter (is_row_of chunk) table.now.rows)) }
{
    match table.find(chunk) {
        Some(row) => waiting_part(state_in_row(&row, output)),
        None => 0,
    }
}

/// Returns the bytes of chunks in files that wait for the output, without this chunk.
fn others_bytes(table: &Table, output: OutputId, chunk: ChunkId) -> u128
    ensures { result ≡ size_of (other_waiting output chunk table.now.rows) }
{
    table.waiting_bytes(output) - u128::from(own_waiting(table, output, chunk))
}

/// Returns the first chunk in a file that waits for the output, without this chunk.
fn first_waiting(table: &Table, output: OutputId, chunk: ChunkId) -> Option<ChunkId>
    ensures { result ≡ first_chunk (other_waiting output chunk table.now.rows) }
{
    for place in 0..table.places() {
        if let Some(look) = state_in_slot(table, place, output) {
            if is_other(look, chunk) {
                return Some(look.chunk);
            }
        }
    }
    None
}

/// Returns what an output with a storage limit in bytes evicts next, so that a chunk fits. Call it when the
/// chunk has closed in a file and waits for this output.
///
/// Chunks in flight to the output always stay. If they and the new chunk exceed the limit, only the new
/// chunk is evicted. Else waiting chunks are evicted, the lowest id first, until the rest and the new one
/// fit: `Lose` names the next one, which the table has to lose before the next call.
pub fn next_loss(table: &Table, output: OutputId, limit: u64, chunk: ChunkId) -> Loss
    ensures { result ≡ next_eviction output limit chunk table.now.rows }
{
    let limit = u128::from(limit);
    let own = u128::from(own_bytes(table, chunk));
    let fixed = table.flying_bytes(output).saturating_add(own);
    if fixed > limit {
        return Loss::NewLoses;
    }
    if others_bytes(table, output, chunk) <= limit - fixed {
        return Loss::Fits;
    }
    match first_waiting(table, output, chunk) {
        Some(first) => Loss::Lose(first),
        None => Loss::Fits,
    }
}
