//! Evictions by the limits of outputs, after a chunk has closed.

ghost use Rattle.std.specs.Prelude.{◌≡◌, ◌≤◌, true, false, Option, Some, IfOk, map};
ghost use Rattle.std.specs.Option.{option_map_or};
ghost use Rattle.fwd_settings.specs.declared.settings_types.AllSettings.{AllSettings};
ghost use Rattle.fwd_table.specs.Rows.{row_at};
ghost use Rattle.fwd_table.specs.Usage.{in_file};
ghost use Rattle.fwd_model.specs.Fact.{History, Route};
ghost use Rattle.fwd_model.specs.Settings.{total_limit_at};
ghost use Rattle.fwd_model.specs.Routes.{route, is_idle};
ghost use Rattle.fwd_model.specs.Limits.{evictions_to, evicted_at};
ghost use Rattle.fwd_model.specs.CloseActions.{loses};
ghost use Rattle.fwd_engine_state.specs.Views.{route_of};
ghost use Rattle.fwd_engine_state.specs.Evictions.{evictions_left};
ghost use Rattle.fwd_engine_state.specs.StateRepresents.{StateRepresents};
ghost use Rattle.fwd_engine_state.specs.RefinesAction.{with_disk, RefinesActionWhere};
ghost use Rattle.fwd_engine_chunks.specs.Evictions.{evicts, idle_outputs, IsIdleToEach, IsClosedAtRest};

use crate::resolution::settle;
use fwd_base::{ChunkId, Memory, OutputId};
use fwd_engine_settings::RunSettings;
use fwd_engine_state::{Parts, RouteId, State};
use fwd_limits::Loss;
use fwd_outside::Disk;
use fwd_table::{Table, is_file};

/// Evicts an idle route.
fn evict_route<D: Disk>(
    run: &RunSettings,
    parts: &mut Parts,
    disk: &mut D,
    route: RouteId,
) -> Result<(), Memory>
    ensures acts { RefinesActionWhere run.now (with_disk (D.call_log disk.old)) (with_disk (D.call_log disk.new)) parts.old parts.new (λ h. is_idle run.now h (route_of route) ≡ true) (λ h. evicts run.now (route_of route) h) result }
    ensures later { D.faults disk.old ≤ D.faults disk.new }
{
    parts.state.evict(route);
    settle(run, parts, disk, route)
}

/// Evicts what the limit of an output has no room for beside a chunk that waits for it: each chunk at most
/// once.
fn evict_to_limit<D: Disk>(
    run: &RunSettings,
    parts: &mut Parts,
    disk: &mut D,
    output: OutputId,
    limit: u64,
    chunk: ChunkId,
) -> Result<(), Memory>
    ensures acts { RefinesActionWhere run.now (with_disk (D.call_log disk.old)) (with_disk (D.call_log disk.new)) parts.old parts.new (λ h. is_idle run.now h (route chunk.0 output.0) ≡ true) (λ h. loses run.now (evictions_to run.now h chunk.0 output.0 (Some limit)) h) result }
    ensures later { D.faults disk.old ≤ D.faults disk.new }
{
    let turns = parts.state.table().len();
    for _turn in 0..turns {
        match parts.state.next_loss(output, limit, chunk) {
            Loss::Fits => return Ok(()),
            Loss::NewLoses => return evict_route(run, parts, disk, RouteId { chunk, output }),
            Loss::Lose(chunk) => evict_route(run, parts, disk, RouteId { chunk, output })?,
        }
    }
    Ok(())
}

/// Enforces the limit of an output beside a chunk that waits for it, if the output has a limit.
fn enforce_limit<D: Disk>(
    run: &RunSettings,
    parts: &mut Parts,
    disk: &mut D,
    output: OutputId,
    chunk: ChunkId,
) -> Result<(), Memory>
    ensures acts { RefinesActionWhere run.now (with_disk (D.call_log disk.old)) (with_disk (D.call_log disk.new)) parts.old parts.new (λ h. is_idle run.now h (route chunk.0 output.0) ≡ true) (λ h. loses run.now (evictions_to run.now h chunk.0 output.0 (total_limit_at run.now output.0)) h) result }
    ensures later { D.faults disk.old ≤ D.faults disk.new }
{
    match run.limit(output) {
        Some(limit) => evict_to_limit(run, parts, disk, output, limit, chunk),
        None => Ok(()),
    }
}

/// Enforces the limits of outputs, one after another.
fn enforce_limits<D: Disk>(
    run: &RunSettings,
    parts: &mut Parts,
    disk: &mut D,
    outputs: &[OutputId],
    chunk: ChunkId,
) -> Result<(), Memory>
    ensures acts { RefinesActionWhere run.now (with_disk (D.call_log disk.old)) (with_disk (D.call_log disk.new)) parts.old parts.new
        (λ h. IsIdleToEach run.now h chunk.0 (map (λ output. output.0) outputs.now)) (λ h. loses run.now (evictions_left run.now h chunk.0 (map (λ output. output.0) outputs.now)) h) result }
    ensures later { D.faults disk.old ≤ D.faults disk.new }
{
    for output in outputs {
        enforce_limit(run, parts, disk, *output, chunk)?;
    }
    Ok(())
}

/// Whether a chunk is pending and kept in a file.
fn is_in_file(table: &Table, chunk: ChunkId) -> bool
    ensures { result ≡ option_map_or in_file (row_at chunk table.now.rows) false }
{
    match table.find(chunk) {
        Some(row) => is_file(row.home),
        None => false,
    }
}

/// Returns the outputs that a chunk waits for, in their order.
fn idle_outputs(run: &RunSettings, state: &State, chunk: ChunkId) -> Result<Vec<OutputId>, Memory>
    ensures { (h : History) (out : Option Route) → StateRepresents run.now state.now h out → IfOk result (λ outputs. map (λ output. output.0) outputs.items ≡ idle_outputs run.now h chunk.0) }
{
    run.lemma_settings_are_sound();
    let mut outputs = Vec::new(state.alloc());
    for number in 0..run.outputs() {
        let output = OutputId(number as u32);
        if state.is_idle(RouteId { chunk, output }) {
            outputs.push(output)?;
        }
    }
    Ok(outputs)
}

/// Enforces the limits of the outputs that a closed chunk waits for.
pub fn evict_for_chunk<D: Disk>(
    run: &RunSettings,
    parts: &mut Parts,
    disk: &mut D,
    chunk: ChunkId,
) -> Result<(), Memory>
    ensures acts { RefinesActionWhere run.now (with_disk (D.call_log disk.old)) (with_disk (D.call_log disk.new)) parts.old parts.new (λ h. IsClosedAtRest h chunk.0) (λ h. loses run.now (evicted_at run.now h chunk.0) h) result }
    ensures later { D.faults disk.old ≤ D.faults disk.new }
{
    if !is_in_file(parts.state.table(), chunk) {
        return Ok(());
    }
    let outputs = idle_outputs(run, &parts.state, chunk)?;
    enforce_limits(run, parts, disk, outputs.as_slice(), chunk)
}
