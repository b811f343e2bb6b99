//! The parts of a run: up to its end or to its last tick, the stop there, and on to its end.

ghost use Rattle.std.specs.Prelude.{◌≡◌, ◌≤◌, ℕ, [], None, Ok, Err};
ghost use Rattle.fwd_outside.specs.Cause.{HasCause};
ghost use Rattle.fwd_outside.specs.declared.happening.Happening.TheVariants as happens;
ghost use Rattle.fwd_settings.specs.declared.settings_types.AllSettings.{AllSettings};
ghost use Rattle.fwd_model.specs.Fact.{History};
ghost use Rattle.fwd_model.specs.Trace.{Action};
ghost use Rattle.fwd_model.specs.CallLogs.{CallLogs};
ghost use Rattle.fwd_model.specs.Run as written;
ghost use Rattle.fwd_model.specs.Run.{RunResult};
ghost use Rattle.fwd_engine_state.specs.RefinesAction.{with_all};
ghost use Rattle.fwd_engine_state.specs.LoopCounters.{EventsTaken, NoEventTaken};
ghost use Rattle.fwd_engine.specs.EngineSteps.{IsAt};
ghost use Rattle.fwd_engine.specs.declared.engine.EngineStop.TheVariants as engine_stop;
ghost use Rattle.fwd_engine_run.specs.OffsetRows.{Keeps};
ghost use Rattle.fwd_engine_run.specs.declared.kept_offsets.KeptOffsets.{KeptOffsets};
ghost use Rattle.fwd_engine_run.specs.RunOutcome.{RunContinues, RunsFrom, with_devices, heard_in};
ghost use Rattle.fwd_engine_run.specs.RunParts.{RunsToLast, heard_to_last};
ghost use Rattle.fwd_engine_run.specs.TurnsToLast.{TurnsFrom};
ghost use Rattle.fwd_theorem_trace.specs.Allowed.{IsLoading};
ghost use Rattle.fwd_engine_run.specs.declared.run_loop.RunEnd.TheVariants as run_end;
ghost use Rattle.fwd_engine_run.specs.declared.run_parts.Paused.TheVariants as paused;

use crate::run_loop::RunEnd;
use crate::turns::turns;
use crate::{Got, KeptOffsets};
use fwd_base::Memory;
use fwd_engine::{Engine, EngineStop, Turn};
use fwd_keeper::Keeper;
use fwd_outside::{Begun, Disk, Ends, Files, Happening, Loop};
use fwd_watch::Watch;
use std::thread::Threads;

/// How the first part of a run ended.
#[derive(Clone, Copy, Debug, PartialEq, Eq)]
pub enum Paused {
    Ended(RunEnd),
    /// At the last tick. So many turns are left.
    AtLast(u64),
}

/// Starts the loop of an engine whose offsets are got, and takes the turns up to the end or to the last tick.
fn start<L: Loop, D: Disk, F: Files, K: Keeper>(
    rt: &(impl Threads + Sync),
    engine: &mut Engine,
    offsets: &mut KeptOffsets,
    ends: &Ends,
    ticks: Option<u64>,
    disk: &mut D,
    files: &mut F,
    outside: &mut L,
    keeper: &mut K,
    most: u64,
    watch: &mut impl Watch,
) -> Result<Paused, Memory>
    ensures runs { TurnsFrom (with_devices (L.call_log outside.old) (D.call_log disk.old) (F.call_log files.old) (K.call_log keeper.old)) (with_devices (L.call_log outside.new) (D.call_log disk.new) (F.call_log files.new) (K.call_log keeper.new))
        engine.old offsets.old ticks (λ number s h. written.starts s ends.now number most h) engine.new offsets.new result }
    ensures heard { EventsTaken (heard_to_last most result) (L.counts outside.old) (L.counts outside.new) }
    ensures cause { HasCause (L.faults outside.old) (L.faults outside.new) (result ≡ Ok (paused.Ended run_end.LoopFailed)) }
    ensures got { result ≡ Ok (paused.Ended run_end.KeeperFailed) → ⊥ }
    ensures disk_later { D.faults disk.old ≤ D.faults disk.new }
    ensures files_later { F.faults files.old ≤ F.faults files.new }
    ensures keeper_later { K.faults keeper.old ≤ K.faults keeper.new }
{
    match outside.start(ends) {
        Begun::Ready => turns(
            rt, engine, offsets, ticks, disk, files, outside, keeper, most, watch,
        ),
        Begun::Failed => Ok(Paused::Ended(RunEnd::LoopFailed)),
        Begun::Memory => Err(Memory),
    }
}

/// Runs an engine that has begun, to its end or to its last tick: gets the kept offsets, starts the loop with
/// its endpoints, and takes at most `most` turns, each of which waits for one event. After each turn the
/// settled offsets are put. It returns `AtLast` after the turn of the last of `ticks` ticks, if that number
/// is given, and unless the run was stopped before. The calls are those of the reference model's run after
/// its recovery, and also those of its run without a number of ticks. Returns `KeeperFailed` only if a
/// failure of the keeper was counted, `LoopFailed` only if one of the loop was, and `TurnsSpent` only if the
/// loop gave `most` events. The only error is `Memory`. The watcher is shown the engine after each tick.
pub fn run_to_last<L: Loop, D: Disk, F: Files, K: Keeper>(
    rt: &(impl Threads + Sync),
    engine: &mut Engine,
    offsets: &mut KeptOffsets,
    ends: &Ends,
    ticks: Option<u64>,
    disk: &mut D,
    files: &mut F,
    outside: &mut L,
    keeper: &mut K,
    most: u64,
    watch: &mut impl Watch,
) -> Result<Paused, Memory>
    ensures runs { (others : CallLogs) (s : AllSettings) (h : History) → IsAt engine.old s h → IsLoading h → Keeps s offsets.old []
        → RunsToLast (with_devices (L.call_log outside.old) (D.call_log disk.old) (F.call_log files.old) (K.call_log keeper.old) others) (with_devices (L.call_log outside.new) (D.call_log disk.new) (F.call_log files.new) (K.call_log keeper.new) others) s ends.now ticks most h engine.new offsets.new result }
    ensures heard { EventsTaken (heard_to_last most result) (L.counts outside.old) (L.counts outside.new) }
    ensures cause { HasCause (L.faults outside.old) (L.faults outside.new) (result ≡ Ok (paused.Ended run_end.LoopFailed)) }
    ensures disk_later { D.faults disk.old ≤ D.faults disk.new }
    ensures files_later { F.faults files.old ≤ F.faults files.new }
    ensures keeper_cause { HasCause (K.faults keeper.old) (K.faults keeper.new) (result ≡ Ok (paused.Ended run_end.KeeperFailed)) }
{
    match offsets.get(engine, keeper) {
        Ok(Got::All) => start(
            rt, engine, offsets, ends, ticks, disk, files, outside, keeper, most, watch,
        ),
        Ok(Got::Failed) => Ok(Paused::Ended(RunEnd::KeeperFailed)),
        Err(Memory) => Err(Memory),
    }
}

/// Stops the run, without an event of the loop. Returns `Over` exactly if the run is over. The only error is
/// `Memory`, and after it the engine can't be used any more.
pub fn stop<L: Loop, D: Disk, F: Files>(
    rt: &(impl Threads + Sync),
    engine: &mut Engine,
    disk: &mut D,
    files: &mut F,
    outside: &mut L,
) -> Result<Turn, EngineStop>
    ensures goes { (others : CallLogs) (s : AllSettings) (h : History) (next : History → Action RunResult) (offsets : KeptOffsets) → IsAt engine.old s h → Keeps s offsets h
        → RunContinues (with_all (L.call_log outside.old) (D.call_log disk.old) (F.call_log files.old) others) (with_all (L.call_log outside.new) (D.call_log disk.new) (F.call_log files.new) others) s (written.steps_on s next happens.Stop h) next engine.new offsets result }
    ensures unheard { NoEventTaken (L.counts outside.old) (L.counts outside.new) }
    ensures later { L.faults outside.old ≤ L.faults outside.new }
    ensures unfailed { result ≡ Err engine_stop.LoopFault → ⊥ }
    ensures disk_later { D.faults disk.old ≤ D.faults disk.new }
    ensures files_later { F.faults files.old ≤ F.faults files.new }
{
    engine.step(rt, Happening::Stop, disk, files, outside)
}

/// Runs on after the stop, to the end: takes at most `most` turns, and no tick is the last. The calls are
/// those of the reference model's run without a number of ticks, from there. Returns `LoopFailed` only if a
/// failure of the loop was counted, and `TurnsSpent` only if the loop gave `most` events. The only error is
/// `Memory`. The watcher is shown the engine after each tick.
pub fn run_on<L: Loop, D: Disk, F: Files, K: Keeper>(
    rt: &(impl Threads + Sync),
    engine: &mut Engine,
    offsets: &mut KeptOffsets,
    disk: &mut D,
    files: &mut F,
    outside: &mut L,
    keeper: &mut K,
    most: u64,
    watch: &mut impl Watch,
) -> Result<RunEnd, Memory>
    ensures runs { RunsFrom (with_devices (L.call_log outside.old) (D.call_log disk.old) (F.call_log files.old) (K.call_log keeper.old)) (with_devices (L.call_log outside.new) (D.call_log disk.new) (F.call_log files.new) (K.call_log keeper.new))
        engine.old offsets.old (λ s h. written.run s None most h) engine.new result }
    ensures heard { EventsTaken (heard_in most result) (L.counts outside.old) (L.counts outside.new) }
    ensures cause { HasCause (L.faults outside.old) (L.faults outside.new) (result ≡ Ok run_end.LoopFailed) }
    ensures got { result ≡ Ok run_end.KeeperFailed → ⊥ }
    ensures disk_later { D.faults disk.old ≤ D.faults disk.new }
    ensures files_later { F.faults files.old ≤ F.faults files.new }
    ensures keeper_later { K.faults keeper.old ≤ K.faults keeper.new }
{
    match turns(
        rt, engine, offsets, None, disk, files, outside, keeper, most, watch,
    ) {
        Ok(Paused::Ended(end)) => Ok(end),
        Ok(Paused::AtLast(_)) => unreachable!(),
        Err(Memory) => Err(Memory),
    }
}
