//! Limits on the chunks that are in flight at once.

ghost use Rattle.std.specs.Prelude.{◌≡◌};
ghost use Rattle.fwd_settings.specs.declared.settings_types.AllSettings.{AllSettings};
ghost use Rattle.fwd_table.specs.Rows.{row_at};
ghost use Rattle.fwd_model.specs.Dispatch.{fits_row};
ghost use Rattle.fwd_engine_state.specs.Capacity.{fits_seen};

use fwd_base::ChunkId;
use fwd_outside::Home;
use fwd_table::{RowSeen, Table};

/// Limits on what is in flight at once.
#[derive(Clone, Copy, Debug, PartialEq, Eq)]
pub struct InFlightLimits {
    /// Most chunks in files.
    pub max_up: u64,
    /// Most bytes of recovered chunks.
    pub backlog_limit: u64,
}

/// Whether the chunk of a row fits within the limits.
fn fits(table: &Table, row: &RowSeen, limits: InFlightLimits) -> bool
    ensures { result ≡ fits_seen limits.max_up limits.backlog_limit table.now.rows row.now }
{
    match row.home {
        Home::Ram => return true,
        Home::Disk => {}
    }
    if row.flying != 0 {
        return true;
    }
    if table.files_up() >= limits.max_up {
        return false;
    }
    if row.input.is_some() {
        return true;
    }
    let up = table.found_bytes();
    up.saturating_add(u128::from(row.size)) <= u128::from(limits.backlog_limit) || up == 0
}

/// Whether a chunk fits within the limits; false if there is no such chunk.
pub fn chunk_fits(table: &Table, chunk: ChunkId, limits: InFlightLimits) -> bool
    ensures { (s : AllSettings) → s.service.max_up ≡ limits.max_up → s.service.backlog_limit ≡ limits.backlog_limit
        → result ≡ fits_row s table.now.rows (row_at chunk table.now.rows) }
{
    match table.find(chunk) {
        Some(row) => fits(table, &row, limits),
        None => false,
    }
}
