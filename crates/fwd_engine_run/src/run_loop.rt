//! A run, from the start of its loop to its end.

ghost use Rattle.std.specs.Prelude.{◌≡◌, ◌≤◌, [], None, Some, Ok};
ghost use Rattle.fwd_outside.specs.Cause.{HasCause};
ghost use Rattle.fwd_outside.specs.declared.happening.Happening.TheVariants as happens;
ghost use Rattle.fwd_settings.specs.declared.settings_types.AllSettings.{AllSettings};
ghost use Rattle.fwd_model.specs.Fact.{History};
ghost use Rattle.fwd_model.specs.CallLogs.{CallLogs};
ghost use Rattle.fwd_model.specs.Run as written;
ghost use Rattle.fwd_engine_state.specs.LoopCounters.{EventsTaken};
ghost use Rattle.fwd_engine.specs.EngineSteps.{IsAt};
ghost use Rattle.fwd_engine_run.specs.OffsetRows.{Keeps};
ghost use Rattle.fwd_engine_run.specs.RunOutcome.{RunOutcome, RunsFrom, with_devices, heard_in};
ghost use Rattle.fwd_theorem_trace.specs.Allowed.{IsLoading};
ghost use Rattle.fwd_engine_run.specs.declared.run_loop.RunEnd.TheVariants as run_end;

use crate::KeptOffsets;
use crate::run_parts::{Paused, run_on, run_to_last, stop};
use fwd_base::{Memory, Names};
use fwd_engine::{Engine, EngineStop, Turn};
use fwd_keeper::Keeper;
use fwd_outside::{Disk, Ends, Files, Loop};
use fwd_watch::{Snapshot, Watch};
use std::thread::Threads;

/// How a run ended.
#[derive(Clone, Copy, Debug, PartialEq, Eq)]
pub enum RunEnd {
    /// Nothing is left to do.
    Over,
    /// An offset couldn't be got from the keeper.
    KeeperFailed,
    /// The loop failed.
    LoopFailed,
    /// All turns are taken.
    TurnsSpent,
}

/// Returns what a watcher is shown of an engine.
pub fn snapshot_of(engine: &Engine) -> Snapshot<'_> {
    let unfinished = engine.unfinished();
    Snapshot {
        tally: engine.tally(),
        table: engine.table(),
        paused: engine.paused(),
        stopped: engine.stopped(),
        damaged: engine.damaged_reads(),
        unfinished: unfinished.bytes,
        largest_unfinished: unfinished.largest,
    }
}

/// Shows an engine that has begun to the watcher. What the watcher does has no effect on the engine.
pub fn show_begun(engine: &Engine, inputs: &Names, outputs: &Names, watch: &mut impl Watch) {
    watch.note_start(inputs, outputs, snapshot_of(engine));
    if let Ok(names) = engine.strangers() {
        watch.note_strangers(&names);
    }
}

/// Stops a run at its last tick, and runs on to its end with at most `left` turns.
pub fn finish<L: Loop, D: Disk, F: Files, K: Keeper>(
    rt: &(impl Threads + Sync),
    engine: &mut Engine,
    offsets: &mut KeptOffsets,
    disk: &mut D,
    files: &mut F,
    outside: &mut L,
    keeper: &mut K,
    left: u64,
    watch: &mut impl Watch,
) -> Result<RunEnd, Memory>
    ensures runs { RunsFrom (with_devices (L.call_log outside.old) (D.call_log disk.old) (F.call_log files.old) (K.call_log keeper.old)) (with_devices (L.call_log outside.new) (D.call_log disk.new) (F.call_log files.new) (K.call_log keeper.new))
        engine.old offsets.old (λ s h. written.steps_on s (written.run s None left) happens.Stop h) engine.new result }
    ensures heard { EventsTaken (heard_in left result) (L.counts outside.old) (L.counts outside.new) }
    ensures cause { HasCause (L.faults outside.old) (L.faults outside.new) (result ≡ Ok run_end.LoopFailed) }
    ensures got { result ≡ Ok run_end.KeeperFailed → ⊥ }
    ensures disk_later { D.faults disk.old ≤ D.faults disk.new }
    ensures files_later { F.faults files.old ≤ F.faults files.new }
    ensures keeper_later { K.faults keeper.old ≤ K.faults keeper.new }
{
    match stop(rt, engine, disk, files, outside) {
        Ok(Turn::More) => run_on(
            rt, engine, offsets, disk, files, outside, keeper, left, watch,
        ),
        Ok(Turn::Over) => Ok(RunEnd::Over),
        Err(EngineStop::LoopFault) => unreachable!(),
        Err(EngineStop::Memory) => Err(Memory),
    }
}

/// Runs an engine that has begun: gets the kept offsets, starts the loop with its endpoints, and takes at
/// most `most` turns, each of which waits for one event. If `ticks` is given, the run is stopped after that
/// many ticks. After each turn the settled offsets are put. The calls are those of the reference model's run
/// after its recovery. Returns `KeeperFailed` only if a failure of the keeper was counted, `LoopFailed` only
/// if one of the loop was, and `TurnsSpent` only if the loop gave `most` events. The only error is `Memory`.
/// The watcher is shown the engine after each tick.
pub fn run<L: Loop, D: Disk, F: Files, K: Keeper>(
    rt: &(impl Threads + Sync),
    engine: &mut Engine,
    offsets: &mut KeptOffsets,
    ends: &Ends,
    ticks: Option<u64>,
    disk: &mut D,
    files: &mut F,
    outside: &mut L,
    keeper: &mut K,
    most: u64,
    watch: &mut impl Watch,
) -> Result<RunEnd, Memory>
    ensures runs { (others : CallLogs) (s : AllSettings) (h : History) → IsAt engine.old s h → IsLoading h → Keeps s offsets.old []
        → RunOutcome (with_devices (L.call_log outside.old) (D.call_log disk.old) (F.call_log files.old) (K.call_log keeper.old) others) (with_devices (L.call_log outside.new) (D.call_log disk.new) (F.call_log files.new) (K.call_log keeper.new) others) s (written.after_recovery s ends.now ticks most (Some h)) engine.new result }
    ensures heard { EventsTaken (heard_in most result) (L.counts outside.old) (L.counts outside.new) }
    ensures cause { HasCause (L.faults outside.old) (L.faults outside.new) (result ≡ Ok run_end.LoopFailed) }
    ensures disk_later { D.faults disk.old ≤ D.faults disk.new }
    ensures files_later { F.faults files.old ≤ F.faults files.new }
    ensures keeper_cause { HasCause (K.faults keeper.old) (K.faults keeper.new) (result ≡ Ok run_end.KeeperFailed) }
{
    match run_to_last(
        rt, engine, offsets, ends, ticks, disk, files, outside, keeper, most, watch,
    ) {
        Ok(Paused::Ended(end)) => Ok(end),
        Ok(Paused::AtLast(left)) => finish(
            rt, engine, offsets, disk, files, outside, keeper, left, watch,
        ),
        Err(Memory) => Err(Memory),
    }
}
