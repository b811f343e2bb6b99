ghost use Rattle.std.specs.Prelude.{◌≡◌, ◌≤◌, IfOk, map, filter, not};
ghost use Rattle.fwd_model.specs.Fact.{History};
ghost use Rattle.fwd_model.specs.CloseActions.{closes_chunk, closes_all};
ghost use Rattle.fwd_model.specs.Refines.{Refines};
ghost use Rattle.fwd_model.specs.CallLogs.{CallLogs};
ghost use Rattle.fwd_engine_state.specs.PartsRepresent.{IsClosing, PartsRepresentIdle};
ghost use Rattle.fwd_engine_state.specs.RefinesAction.{with_disk, RefinesAction};

use crate::eviction::evict_for_chunk;
use fwd_base::{ChunkId, Memory};
use fwd_engine_settings::RunSettings;
use fwd_engine_state::Parts;
use fwd_outside::Disk;
use fwd_table::Table;
use std::alloc::Global;

/// Closes an open chunk, which may be full: its routes become idle, and the limits of its outputs are
/// enforced. The store may have removed it from its open chunks already.
pub fn close<D: Disk>(
    run: &RunSettings,
    parts: &mut Parts,
    disk: &mut D,
    chunk: ChunkId,
) -> Result<(), Memory>
    ensures acts { (others : CallLogs) (h : History) → IsClosing run.now parts.old h chunk.0
        → Refines (λ _ now. PartsRepresentIdle run.now parts.new now) (with_disk (D.call_log disk.old) others) (with_disk (D.call_log disk.new) others) (closes_chunk run.now chunk.0 h) result }
    ensures later { D.faults disk.old ≤ D.faults disk.new }
{
    parts.store.shut(chunk);
    parts.state.close_chunk(chunk);
    evict_for_chunk(run, parts, disk, chunk)
}

/// Returns the open chunks, in their order.
fn open_chunks_of(alloc: Global, table: &Table) -> Result<Vec<ChunkId>, Memory>
    ensures { IfOk result (λ chunks. chunks.items ≡ map (λ row. row.chunk) (filter (λ row. not row.shut) table.now.rows)) }
{
    let mut chunks = Vec::new(alloc);
    for place in 0..table.places() {
        if let Some(row) = table.row(place) {
            if !row.shut {
                chunks.push(row.chunk)?;
            }
        }
    }
    Ok(chunks)
}

/// Closes all open chunks, the oldest first.
pub fn close_all<D: Disk>(run: &RunSettings, parts: &mut Parts, disk: &mut D) -> Result<(), Memory>
    ensures acts { RefinesAction run.now (with_disk (D.call_log disk.old)) (with_disk (D.call_log disk.new)) parts.old parts.new (λ h. closes_all run.now h) result }
    ensures later { D.faults disk.old ≤ D.faults disk.new }
{
    let chunks = open_chunks_of(parts.state.alloc(), parts.state.table())?;
    for chunk in &chunks {
        close(run, parts, disk, *chunk)?;
    }
    Ok(())
}
