ghost use Rattle.std.specs.Prelude.{◌≡◌, ℕ, ◌+◌, List, [], ◌∷◌, IsSome, OnOk};
ghost use Rattle.std.specs.List.{AllZip};
ghost use Rattle.fwd_backlog.specs.declared.file_read.FileRead.{FileRead};
ghost use Rattle.fwd_backlog.specs.LoadProgram.{IsDescriptionOf};
ghost use Rattle.fwd_backlog.specs.Serial.{next_number};
ghost use Rattle.fwd_chunk.specs.declared.chunk.Found.{Found};
ghost use Rattle.fwd_engine_state.specs.PartsRepresent.{PartsRepresentIdle};
ghost use Rattle.fwd_engine_recovery.specs.Adoption.{recovered_history, StateNotesFile, taken, StoreIsReady, AreEmptyParts};

use crate::pending_outputs::add_pending;
use fwd_base::{ChunkId, Memory};
use fwd_chunk::{Found, Seen};
use fwd_engine_settings::RunSettings;
use fwd_engine_state::Parts;
use std::alloc::Global;

/// Adds a recovered file under this number. A chunk with events goes into the store, pending for the
/// remaining outputs.
fn take(
    run: &RunSettings,
    alloc: Global,
    parts: &mut Parts,
    chunk: ChunkId,
    found: &Found,
) -> Result<(), Memory>
    requires root { IsSome run.now.service.path }
    requires ready { (more : List Found) × (n : ℕ) × (chunk.0 ≡ n + 1) × StoreIsReady run.now parts.old.store n (found.now ∷ more) }
    ensures state { OnOk result (StateNotesFile run.now parts.old.state parts.new.state chunk.0 found.now.seen) }
    ensures store { OnOk result (parts.new.store ≡ taken parts.old.store chunk.0 found.now found.now.seen) }
    ensures input_streams { OnOk result (parts.new.input_streams ≡ parts.old.input_streams) }
    ensures followed_files { OnOk result (parts.new.followed_files ≡ parts.old.followed_files) }
{
    match &found.seen {
        Seen::Whole(brief) => {
            parts.store.adopt(alloc, chunk, found)?;
            add_pending(run, &mut parts.state, chunk, brief)
        }
        Seen::Empty(_) | Seen::Refused(_) => {
            parts.state.count_left();
            Ok(())
        }
    }
}

/// Adds all recovered files, in their order.
pub fn adopt_all(
    run: &RunSettings,
    alloc: Global,
    parts: &mut Parts,
    found: &[Found],
) -> Result<(), Memory>
    requires root { IsSome run.now.service.path }
    requires new { AreEmptyParts run.now (next_number found.now) parts.old }
    requires ready { StoreIsReady run.now parts.old.store 0 found.now }
    ensures { OnOk result ((files : List FileRead) → AllZip IsDescriptionOf files found.now → PartsRepresentIdle run.now parts.new (recovered_history 1 files [])) }
{
    for (index, file) in found.iter().enumerate() {
        take(run, alloc, parts, ChunkId(index as u64 + 1), file)?;
    }
    Ok(())
}
