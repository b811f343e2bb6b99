ghost use Rattle.std.specs.Prelude.{◌≡◌, ◌≤◌, true};
ghost use Rattle.fwd_settings.specs.declared.settings_types.AllSettings.{AllSettings};
ghost use Rattle.fwd_model.specs.Chunks.{is_closed};
ghost use Rattle.fwd_model.specs.ResolveActions.{drops, records, marks_or_removes};
ghost use Rattle.fwd_engine_state.specs.Views.{route_of};
ghost use Rattle.fwd_engine_state.specs.RefinesAction.{with_disk, RefinesAction, RefinesActionWhere};

use fwd_base::{ChunkId, Memory};
use fwd_engine_settings::RunSettings;
use fwd_engine_state::{
    Parts, RouteId, lemma_other_facts_keep_files, lemma_other_facts_keep_state,
    lemma_other_facts_keep_streams,
};
use fwd_outside::{Disk, DiskErr};

/// Drops a closed chunk, and removes its file if it has one. A file that can't be removed stays. A chunk that
/// the store doesn't hold is dropped already, in the reference model too.
fn drop_chunk<D: Disk>(parts: &mut Parts, disk: &mut D, chunk: ChunkId) -> Result<(), Memory>
    ensures acts { (s : AllSettings) → RefinesActionWhere s (with_disk (D.call_log disk.old)) (with_disk (D.call_log disk.new)) parts.old parts.new (λ h. is_closed h chunk.0 ≡ true) (λ h. drops s chunk.0 h) result }
    ensures later { D.faults disk.old ≤ D.faults disk.new }
    ensures damaged { parts.new.state.damaged ≡ parts.old.state.damaged }
{
    lemma_other_facts_keep_state();
    lemma_other_facts_keep_streams();
    lemma_other_facts_keep_files();
    if !parts.store.holds(chunk) {
        return Ok(());
    }
    match parts.store.drop_chunk(disk, chunk) {
        Ok(()) => Ok(()),
        Err(DiskErr::Failed) => {
            parts.state.count_fault();
            Ok(())
        }
        Err(DiskErr::Memory) => Err(Memory),
    }
}

/// Marks a route done in the file of its chunk, if the file has a slot for it. A failed mark isn't retried. A
/// chunk that the store doesn't hold has no file to mark, in the reference model too.
fn record<D: Disk>(
    run: &RunSettings,
    parts: &mut Parts,
    disk: &mut D,
    route: RouteId,
) -> Result<(), Memory>
    ensures acts { RefinesAction run.now (with_disk (D.call_log disk.old)) (with_disk (D.call_log disk.new)) parts.old parts.new (λ h. records run.now (route_of route) h) result }
    ensures later { D.faults disk.old ≤ D.faults disk.new }
    ensures damaged { parts.new.state.damaged ≡ parts.old.state.damaged }
{
    if !parts.store.holds(route.chunk) {
        return Ok(());
    }
    match parts
        .store
        .settle(disk, route.chunk, run.output_name(route.output))
    {
        Ok(_) => Ok(()),
        Err(DiskErr::Failed) => {
            parts.state.count_fault();
            Ok(())
        }
        Err(DiskErr::Memory) => Err(Memory),
    }
}

/// Finishes a resolved route of a closed chunk: drops the chunk if no output is pending, and otherwise
/// marks the route done.
pub fn settle<D: Disk>(
    run: &RunSettings,
    parts: &mut Parts,
    disk: &mut D,
    route: RouteId,
) -> Result<(), Memory>
    ensures acts { RefinesActionWhere run.now (with_disk (D.call_log disk.old)) (with_disk (D.call_log disk.new)) parts.old parts.new (λ h. is_closed h route.chunk.0 ≡ true) (λ h. marks_or_removes run.now (route_of route) h) result }
    ensures later { D.faults disk.old ≤ D.faults disk.new }
    ensures damaged { parts.new.state.damaged ≡ parts.old.state.damaged }
{
    if parts.state.is_pending(route.chunk) {
        record(run, parts, disk, route)
    } else {
        drop_chunk(parts, disk, route.chunk)
    }
}
