ghost use Rattle.std.specs.Prelude.{◌≡◌, ◌≤◌, ℕ, map, Option, is_some};
ghost use Rattle.fwd_outside.specs.declared.happening.Happening.TheVariants as happening;
ghost use Rattle.fwd_settings.specs.declared.settings_types.InputSet.{InputSet};
ghost use Rattle.fwd_model.specs.StepActions.{closes_and_dispatches, stops, step};
ghost use Rattle.fwd_engine_state.specs.RefinesAction.{with_both, with_all, RefinesAction};
ghost use Rattle.fwd_engine_state.specs.LoopCounters.{NoEventTaken};

use fwd_base::{InputId, Memory};
use fwd_engine_flush::{RunSettings, back, broken, close_all, room, walk};
use fwd_engine_ingest::{end_input, join, poll_inputs, receive_bytes, remove_peer};
use fwd_engine_state::Parts;
use fwd_outside::{Disk, Files, Happening, Loop};
use std::thread::Threads;

/// Closes the open chunks if it is time to, and then starts due routes.
fn close_and_dispatch<L: Loop, D: Disk>(
    run: &RunSettings,
    parts: &mut Parts,
    outside: &mut L,
    disk: &mut D,
    closing: bool,
) -> Result<(), Memory>
    ensures acts { RefinesAction run.now (with_both (L.call_log outside.old) (D.call_log disk.old)) (with_both (L.call_log outside.new) (D.call_log disk.new)) parts.old parts.new (λ h. closes_and_dispatches run.now closing h) result }
    ensures unheard { NoEventTaken (L.counts outside.old) (L.counts outside.new) }
    ensures later { L.faults outside.old ≤ L.faults outside.new }
    ensures disk_later { D.faults disk.old ≤ D.faults disk.new }
{
    if closing {
        close_all(run, parts, disk)?;
        walk(run, parts, outside, disk)
    } else {
        walk(run, parts, outside, disk)
    }
}

/// Handles a tick: polls followed files, closes the open chunks if it is time to, and starts due routes.
fn tick<L: Loop, D: Disk, F: Files>(
    rt: &(impl Threads + Sync),
    run: &RunSettings,
    parts: &mut Parts,
    outside: &mut L,
    disk: &mut D,
    files: &mut F,
    now: u64,
) -> Result<(), Memory>
    ensures acts { RefinesAction run.now (with_all (L.call_log outside.old) (D.call_log disk.old) (F.call_log files.old)) (with_all (L.call_log outside.new) (D.call_log disk.new) (F.call_log files.new)) parts.old parts.new (λ h. step run.now (happening.Tick now) h) result }
    ensures unheard { NoEventTaken (L.counts outside.old) (L.counts outside.new) }
    ensures later { L.faults outside.old ≤ L.faults outside.new }
    ensures disk_later { D.faults disk.old ≤ D.faults disk.new }
    ensures files_later { F.faults files.old ≤ F.faults files.new }
{
    let closing = parts.state.advance_clock(now, run.flush_ms());
    poll_inputs(rt, run, parts, disk, files)?;
    close_and_dispatch(run, parts, outside, disk, closing)
}

/// Finishes a stop: closes the open chunks and starts due routes, unless the run had been stopped before.
fn stop_once<L: Loop, D: Disk>(
    run: &RunSettings,
    parts: &mut Parts,
    outside: &mut L,
    disk: &mut D,
    stopped: bool,
) -> Result<(), Memory>
    ensures acts { (before : Option ℕ) → is_some before ≡ stopped → RefinesAction run.now (with_both (L.call_log outside.old) (D.call_log disk.old)) (with_both (L.call_log outside.new) (D.call_log disk.new)) parts.old parts.new (λ h. stops run.now before h) result }
    ensures unheard { NoEventTaken (L.counts outside.old) (L.counts outside.new) }
    ensures later { L.faults outside.old ≤ L.faults outside.new }
    ensures disk_later { D.faults disk.old ≤ D.faults disk.new }
{
    if stopped {
        return Ok(());
    }
    close_and_dispatch(run, parts, outside, disk, true)
}

/// Stops the run.
fn stop<L: Loop, D: Disk>(
    run: &RunSettings,
    parts: &mut Parts,
    outside: &mut L,
    disk: &mut D,
) -> Result<(), Memory>
    ensures acts { RefinesAction run.now (with_both (L.call_log outside.old) (D.call_log disk.old)) (with_both (L.call_log outside.new) (D.call_log disk.new)) parts.old parts.new (λ h. step run.now happening.Stop h) result }
    ensures unheard { NoEventTaken (L.counts outside.old) (L.counts outside.new) }
    ensures later { L.faults outside.old ≤ L.faults outside.new }
    ensures disk_later { D.faults disk.old ≤ D.faults disk.new }
{
    let stopped = parts.state.stopped().is_some();
    parts.state.stop();
    stop_once(run, parts, outside, disk, stopped)
}

/// Handles the end of an input: the rest of standard input is its last line, and then the run stops.
fn finish<L: Loop, D: Disk>(
    rt: &(impl Threads + Sync),
    run: &RunSettings,
    parts: &mut Parts,
    outside: &mut L,
    disk: &mut D,
    input: InputId,
) -> Result<(), Memory>
    ensures acts { RefinesAction run.now (with_both (L.call_log outside.old) (D.call_log disk.old)) (with_both (L.call_log outside.new) (D.call_log disk.new)) parts.old parts.new (λ h. step run.now (happening.InputEnd input) h) result }
    ensures unheard { NoEventTaken (L.counts outside.old) (L.counts outside.new) }
    ensures later { L.faults outside.old ≤ L.faults outside.new }
    ensures disk_later { D.faults disk.old ≤ D.faults disk.new }
{
    let stopped = parts.state.stopped().is_some();
    end_input(rt, run, parts, disk, input)?;
    if run.reads_standard(input) {
        stop_once(run, parts, outside, disk, stopped)
    } else {
        Ok(())
    }
}

/// Handles one event. The only error is `Memory`, after which the parts can't be used any more.
pub fn step<L: Loop, D: Disk, F: Files>(
    rt: &(impl Threads + Sync),
    run: &RunSettings,
    parts: &mut Parts,
    outside: &mut L,
    disk: &mut D,
    files: &mut F,
    happening: &Happening,
) -> Result<(), Memory>
    ensures acts { RefinesAction run.now (with_all (L.call_log outside.old) (D.call_log disk.old) (F.call_log files.old)) (with_all (L.call_log outside.new) (D.call_log disk.new) (F.call_log files.new)) parts.old parts.new (λ h. step run.now happening.now h) result }
    ensures unheard { NoEventTaken (L.counts outside.old) (L.counts outside.new) }
    ensures later { L.faults outside.old ≤ L.faults outside.new }
    ensures disk_later { D.faults disk.old ≤ D.faults disk.new }
    ensures files_later { F.faults files.old ≤ F.faults files.new }
{
    match happening {
        Happening::Tick { now } => tick(rt, run, parts, outside, disk, files, *now),
        Happening::Joined { input, conn } => join(run, parts, *input, *conn),
        Happening::Piece { input, conn, bytes } => {
            let bytes = bytes.as_slice();
            receive_bytes(rt, run, parts, outside, disk, *input, *conn, bytes)
        }
        Happening::Gone { input, conn } => remove_peer(run, parts, *input, *conn),
        Happening::Room { link } => room(run, parts, outside, disk, *link),
        Happening::Back { link, bytes } => back(run, parts, outside, disk, *link, bytes.as_slice()),
        Happening::Broken { link } => broken(run, parts, outside, disk, *link),
        Happening::InputEnd { input } => finish(rt, run, parts, outside, disk, *input),
        Happening::Stop => stop(run, parts, outside, disk),
        Happening::End => Ok(()),
        Happening::Failed => Ok(()),
    }
}
