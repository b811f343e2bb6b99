//! The turns of a run, up to its end or to its last tick.

ghost use Rattle.std.specs.Prelude.{◌≡◌, ◌≤◌, ℕ, suc, false, None, Ok, Err};
ghost use Rattle.fwd_outside.specs.Cause.{HasCause};
ghost use Rattle.fwd_outside.specs.declared.happening.Happening.{Happening};
ghost use Rattle.fwd_outside.specs.declared.happening.Happening.TheVariants as happens;
ghost use Rattle.fwd_model.specs.Run as written;
ghost use Rattle.fwd_model.specs.Run.{is_tick};
ghost use Rattle.fwd_engine_state.specs.LoopCounters.{EventsTaken, NoEventTaken};
ghost use Rattle.fwd_engine.specs.EngineSteps.{EngineAnswers};
ghost use Rattle.fwd_engine.specs.declared.engine.EngineStop.TheVariants as stop;
ghost use Rattle.fwd_engine_run.specs.RunOutcome.{with_devices};
ghost use Rattle.fwd_engine_run.specs.RunParts.{heard_to_last};
ghost use Rattle.fwd_engine_run.specs.TurnsToLast.{TurnFrom, TurnsFrom, end_unless_last, events_in};
ghost use Rattle.fwd_engine_run.specs.declared.run_loop.RunEnd.TheVariants as run_end;
ghost use Rattle.fwd_engine_run.specs.declared.run_parts.Paused.TheVariants as paused;
ghost use Rattle.fwd_engine_run.specs.declared.turns.TurnEnd.TheVariants as turn_end;

use crate::KeptOffsets;
use crate::run_loop::{RunEnd, snapshot_of};
use crate::run_parts::Paused;
use fwd_base::Memory;
use fwd_engine::{Engine, EngineStop, Turn, is_clock_tick};
use fwd_keeper::Keeper;
use fwd_outside::{Disk, Files, Happening, Loop};
use fwd_watch::Watch;
use std::thread::Threads;

/// How a turn ended.
#[derive(Clone, Copy)]
enum TurnEnd {
    /// The run goes on.
    More,
    /// The event was the last tick.
    AtLast,
    /// The run is over.
    Over,
}

/// Shows the engine to the watcher after a clock tick. What the watcher does has no effect on the engine.
fn show_after_tick(engine: &Engine, reads: bool, watch: &mut impl Watch) {
    if reads {
        watch.note_clock(snapshot_of(engine));
    }
}

/// Whether the event was the last of `ticks` ticks, if that number is given, and the run isn't stopped yet.
fn is_last_reading(engine: &Engine, ticks: Option<u64>, reads: bool) -> bool
    ensures last { (brought : Happening) → is_tick brought ≡ reads → EngineAnswers engine.now (λ s h. result ≡ written.is_last_tick s ticks brought h) }
    ensures none { ticks ≡ None → result ≡ false }
{
    match ticks {
        Some(ticks) => reads && (engine.ticks() == ticks && engine.stopped().is_none()),
        None => false,
    }
}

/// Returns how a turn ended whose step didn't end the run.
fn end_of_turn(engine: &Engine, ticks: Option<u64>, reads: bool) -> TurnEnd
    ensures last { (brought : Happening) → is_tick brought ≡ reads → EngineAnswers engine.now (λ s h. result ≡ end_unless_last (written.is_last_tick s ticks brought h)) }
    ensures none { ticks ≡ None → result ≡ turn_end.More }
{
    if is_last_reading(engine, ticks, reads) {
        TurnEnd::AtLast
    } else {
        TurnEnd::More
    }
}

/// Handles an event and puts the settled offsets.
fn take<L: Loop, D: Disk, F: Files, K: Keeper>(
    rt: &(impl Threads + Sync),
    engine: &mut Engine,
    offsets: &mut KeptOffsets,
    ticks: Option<u64>,
    happening: Happening,
    disk: &mut D,
    files: &mut F,
    outside: &mut L,
    keeper: &mut K,
    watch: &mut impl Watch,
) -> Result<TurnEnd, EngineStop>
    ensures goes { (left : ℕ) → TurnFrom (with_devices (L.call_log outside.old) (D.call_log disk.old) (F.call_log files.old) (K.call_log keeper.old)) (with_devices (L.call_log outside.new) (D.call_log disk.new) (F.call_log files.new) (K.call_log keeper.new))
        engine.old offsets.old ticks left (λ number s h. written.brought s number (written.run s number left) h happening) engine.new offsets.new result }
    ensures unheard { NoEventTaken (L.counts outside.old) (L.counts outside.new) }
    ensures later { L.faults outside.old ≤ L.faults outside.new }
    ensures failed { result ≡ Err stop.LoopFault → happening ≡ happens.Failed }
    ensures last { ticks ≡ None → result ≡ Ok turn_end.AtLast → ⊥ }
    ensures disk_later { D.faults disk.old ≤ D.faults disk.new }
    ensures files_later { F.faults files.old ≤ F.faults files.new }
    ensures keeper_later { K.faults keeper.old ≤ K.faults keeper.new }
{
    let reads = is_clock_tick(&happening);
    match engine.step(rt, happening, disk, files, outside) {
        Ok(turn) => match offsets.put(engine, keeper) {
            Ok(()) => match turn {
                Turn::More => {
                    show_after_tick(engine, reads, watch);
                    Ok(end_of_turn(engine, ticks, reads))
                }
                Turn::Over => Ok(TurnEnd::Over),
            },
            Err(Memory) => Err(EngineStop::Memory),
        },
        Err(fault) => Err(fault),
    }
}

/// Takes one turn: waits for an event and handles it.
fn turn<L: Loop, D: Disk, F: Files, K: Keeper>(
    rt: &(impl Threads + Sync),
    engine: &mut Engine,
    offsets: &mut KeptOffsets,
    ticks: Option<u64>,
    disk: &mut D,
    files: &mut F,
    outside: &mut L,
    keeper: &mut K,
    watch: &mut impl Watch,
) -> Result<TurnEnd, EngineStop>
    ensures goes { (left : ℕ) → TurnFrom (with_devices (L.call_log outside.old) (D.call_log disk.old) (F.call_log files.old) (K.call_log keeper.old)) (with_devices (L.call_log outside.new) (D.call_log disk.new) (F.call_log files.new) (K.call_log keeper.new))
        engine.old offsets.old ticks left (λ number s h. written.run s number (suc left) h) engine.new offsets.new result }
    ensures heard { EventsTaken (events_in result) (L.counts outside.old) (L.counts outside.new) }
    ensures cause { HasCause (L.faults outside.old) (L.faults outside.new) (result ≡ Err stop.LoopFault) }
    ensures last { ticks ≡ None → result ≡ Ok turn_end.AtLast → ⊥ }
    ensures disk_later { D.faults disk.old ≤ D.faults disk.new }
    ensures files_later { F.faults files.old ≤ F.faults files.new }
    ensures keeper_later { K.faults keeper.old ≤ K.faults keeper.new }
{
    match engine.wait(outside) {
        Ok(happening) => take(
            rt, engine, offsets, ticks, happening, disk, files, outside, keeper, watch,
        ),
        Err(_) => Err(EngineStop::Memory),
    }
}

/// Takes at most `most` turns, until the run is over or an event was the last tick.
pub fn turns<L: Loop, D: Disk, F: Files, K: Keeper>(
    rt: &(impl Threads + Sync),
    engine: &mut Engine,
    offsets: &mut KeptOffsets,
    ticks: Option<u64>,
    disk: &mut D,
    files: &mut F,
    outside: &mut L,
    keeper: &mut K,
    most: u64,
    watch: &mut impl Watch,
) -> Result<Paused, Memory>
    ensures runs { TurnsFrom (with_devices (L.call_log outside.old) (D.call_log disk.old) (F.call_log files.old) (K.call_log keeper.old)) (with_devices (L.call_log outside.new) (D.call_log disk.new) (F.call_log files.new) (K.call_log keeper.new))
        engine.old offsets.old ticks (λ number s h. written.run s number most h) engine.new offsets.new result }
    ensures heard { EventsTaken (heard_to_last most result) (L.counts outside.old) (L.counts outside.new) }
    ensures cause { HasCause (L.faults outside.old) (L.faults outside.new) (result ≡ Ok (paused.Ended run_end.LoopFailed)) }
    ensures got { result ≡ Ok (paused.Ended run_end.KeeperFailed) → ⊥ }
    ensures last { ticks ≡ None → (left : ℕ) → result ≡ Ok (paused.AtLast left) → ⊥ }
    ensures disk_later { D.faults disk.old ≤ D.faults disk.new }
    ensures files_later { F.faults files.old ≤ F.faults files.new }
    ensures keeper_later { K.faults keeper.old ≤ K.faults keeper.new }
{
    for taken in 0..most {
        match turn(
            rt, engine, offsets, ticks, disk, files, outside, keeper, watch,
        ) {
            Ok(TurnEnd::More) => {}
            Ok(TurnEnd::AtLast) => return Ok(Paused::AtLast(most - taken - 1)),
            Ok(TurnEnd::Over) => return Ok(Paused::Ended(RunEnd::Over)),
            Err(EngineStop::LoopFault) => return Ok(Paused::Ended(RunEnd::LoopFailed)),
            Err(EngineStop::Memory) => return Err(Memory),
        }
    }
    Ok(Paused::Ended(RunEnd::TurnsSpent))
}
