//! The engine: it loads the disk, takes one event of the loop after another, and answers with calls.

ghost use Rattle.std.specs.Prelude.{◌≡◌, ◌≤◌, ◌-◌, ◌^◌, min, true, length, OnOk, Err};
ghost use Rattle.fwd_outside.specs.Cause.{HasCause};
ghost use Rattle.fwd_outside.specs.Loop.{WaitFails, counts_after_wait};
ghost use Rattle.fwd_outside.specs.DiskStates.{Files as DiskFiles};
ghost use Rattle.fwd_backlog.specs.Recovered.{AreDurable};
ghost use Rattle.fwd_settings.specs.Requirements.{MeetsRequirements};
ghost use Rattle.fwd_settings.specs.declared.settings_types.AllSettings.{AllSettings};
ghost use Rattle.fwd_model.specs.Fact.{History, MessageStream};
ghost use Rattle.fwd_model.specs.CallLogs.{CallLogs};
ghost use Rattle.fwd_model.specs.Clock.{stopped, tick_count};
ghost use Rattle.fwd_model.specs.Limits.{paused};
ghost use Rattle.fwd_model.specs.Routes.{rows_of};
ghost use Rattle.fwd_model.specs.Counters.{tally_of};
ghost use Rattle.fwd_model.specs.FollowedFiles.{settled_at};
ghost use Rattle.fwd_model.specs.Settings.{paths_at};
ghost use Rattle.fwd_model.specs.Streams.{input_of, said};
ghost use Rattle.fwd_engine_state.specs.ReaderStates.{ending, all_unfinished, droppable_bytes, IsLargest};
ghost use Rattle.fwd_engine_state.specs.FilesRepresent.{resumed_history};
ghost use Rattle.fwd_theorem_trace.specs.Allowed.{EventAllowed};
ghost use Rattle.fwd_theorem_crash.specs.CrashPoint.{CrashPoint};
ghost use Rattle.fwd_engine_state.specs.RefinesAction.{with_disk, with_all};
ghost use Rattle.fwd_engine_state.specs.LoopCounters.{EventsTaken, NoEventTaken};
ghost use Rattle.fwd_engine.specs.EngineSteps.{BeginOutcome, FailsExactly, IsAt, EngineAnswers, Steps, TurnOutcome, WaitOutcome, as_turn, events_in_turn, is_failed};
ghost use Rattle.fwd_engine.specs.CrashSafety.{BeginIsCrashSafe, IsAtCrashPoint, StepIsCrashSafe, TurnIsCrashSafe};
ghost use Rattle.fwd_engine.specs.declared.engine.BeginErr.TheVariants as begin_err;
ghost use Rattle.fwd_engine.specs.declared.engine.EngineStop.TheVariants as stop;

use crate::{is_finished, step};
use fwd_base::limits::LONGEST_WAIT;
use fwd_base::{InputId, Memory, Names};
use fwd_engine_flush::RunSettings;
use fwd_engine_recovery::{LoadErr, load, strangers_of};
use fwd_engine_state::{Parts, Unfinished};
use fwd_outside::{Disk, Files, Happening, Loop};
use fwd_settings::AllSettings;
use fwd_table::{Table, Tally};
use std::alloc::Global;
use std::thread::Threads;
use thiserror::Error;

/// Why an engine can't begin.
#[derive(Clone, Copy, Debug, PartialEq, Eq, Error)]
pub enum BeginErr {
    #[error("the disk has failed")]
    DiskFault,
    #[error("out of memory")]
    Memory,
}

/// Why a step wasn't completed.
#[derive(Clone, Copy, Debug, PartialEq, Eq, Error)]
pub enum EngineStop {
    #[error("the loop can't go on")]
    LoopFault,
    #[error("out of memory")]
    Memory,
}

/// Whether the run goes on.
#[derive(Clone, Copy, Debug, PartialEq, Eq)]
pub enum Turn {
    More,
    Over,
}

fn is_failure(happening: &Happening) -> bool
    ensures { result ≡ is_failed happening.now }
{
    matches!(happening, Happening::Failed)
}

fn turn_of(over: bool) -> Turn
    ensures { result ≡ as_turn over }
{
    if over { Turn::Over } else { Turn::More }
}

/// An engine: its settings and its parts.
#[derive(Drop)]
pub struct Engine {
    run: RunSettings,
    parts: Parts,
}

impl Engine {
    /// Returns an engine at the start of a run. The settings are those of a valid configuration. If they
    /// give a storage path, the chunks below it are loaded. Returns `DiskFault` only if a disk failure was
    /// counted, and `Memory` only if no disk call failed.
    pub fn begin<D: Disk>(
        rt: &(impl Threads + Sync),
        alloc: Global,
        settings: AllSettings,
        disk: &mut D,
    ) -> Result<Engine, BeginErr>
        requires { MeetsRequirements settings }
        ensures begins { (others : CallLogs) → BeginOutcome (with_disk (D.call_log disk.old) others) (with_disk (D.call_log disk.new) others) settings result }
        ensures cause { HasCause (D.faults disk.old) (D.faults disk.new) (result ≡ Err begin_err.DiskFault) }

        // With full sync, and a disk on which all is durable: at each crash point the post-crash state is
        // safe.
        ensures safe { (others : CallLogs) (first : DiskFiles) → settings.service.full ≡ true → AreDurable first
            → BeginIsCrashSafe (with_disk (D.call_log disk.old) others) (with_disk (D.call_log disk.new) others) settings first result }
    {
        Engine::begin_inner(rt, alloc, settings, disk)
    }

    /// Handles one event. Returns `LoopFault` exactly if the event is `Failed`, and the engine is unchanged
    /// then. Returns `Over` exactly if the run is over. After `Memory` the engine can't be used any more.
    pub fn step<L: Loop, D: Disk, F: Files>(
        &mut self,
        rt: &(impl Threads + Sync),
        happening: Happening,
        disk: &mut D,
        files: &mut F,
        outside: &mut L,
    ) -> Result<Turn, EngineStop>
        ensures steps { (others : CallLogs) (s : AllSettings) (h : History) → IsAt self.old s h
            → Steps (with_all (L.call_log outside.old) (D.call_log disk.old) (F.call_log files.old) others) (with_all (L.call_log outside.new) (D.call_log disk.new) (F.call_log files.new) others) s h happening self.new result }
        ensures fails { FailsExactly happening result }
        ensures unheard { NoEventTaken (L.counts outside.old) (L.counts outside.new) }
        ensures later { L.faults outside.old ≤ L.faults outside.new }
        ensures disk_later { D.faults disk.old ≤ D.faults disk.new }
        ensures files_later { F.faults files.old ≤ F.faults files.new }

        // With full sync, and an engine at a crash point of a run that began with a disk on which all was
        // durable: at each crash point of the step the post-crash state is safe, and after the step the
        // engine is at such a point again.
        ensures safe { (others : CallLogs) (s : AllSettings) (first : DiskFiles) (m : CrashPoint) → s.service.full ≡ true → AreDurable first → IsAtCrashPoint s first self.old m → EventAllowed s happening m.past
            → StepIsCrashSafe (with_all (L.call_log outside.old) (D.call_log disk.old) (F.call_log files.old) others) (with_all (L.call_log outside.new) (D.call_log disk.new) (F.call_log files.new) others) s first m happening self.new result }
    {
        self.run.lemma_settings_are_sound();
        self.take(rt, &happening, disk, files, outside)
    }

    /// Waits for an event until `LONGEST_WAIT` milliseconds after the clock. Paused inputs give no events.
    pub fn wait<L: Loop>(&self, outside: &mut L) -> Result<Happening, Memory>
        ensures waits { (others : CallLogs) (s : AllSettings) (h : History) → IsAt self.now s h → WaitOutcome (record others { loop = L.call_log outside.old }) (record others { loop = L.call_log outside.new }) s h result }
        ensures counted { L.counts outside.new ≡ counts_after_wait (L.counts outside.old) result }
        ensures cause { HasCause (L.faults outside.old) (L.faults outside.new) (WaitFails result) }
    {
        let until = self.parts.state.clock().saturating_add(LONGEST_WAIT);
        outside.wait(self.parts.state.alloc(), until, self.paused())
    }

    /// Waits for an event and handles it. Returns `LoopFault` only if a failure of the loop was counted.
    pub fn turn<L: Loop, D: Disk, F: Files>(
        &mut self,
        rt: &(impl Threads + Sync),
        disk: &mut D,
        files: &mut F,
        outside: &mut L,
    ) -> Result<Turn, EngineStop>
        ensures turns { (others : CallLogs) (s : AllSettings) (h : History) → IsAt self.old s h
            → TurnOutcome (with_all (L.call_log outside.old) (D.call_log disk.old) (F.call_log files.old) others) (with_all (L.call_log outside.new) (D.call_log disk.new) (F.call_log files.new) others) s h self.new result }
        ensures heard { EventsTaken (events_in_turn result) (L.counts outside.old) (L.counts outside.new) }
        ensures cause { HasCause (L.faults outside.old) (L.faults outside.new) (result ≡ Err stop.LoopFault) }
        ensures disk_later { D.faults disk.old ≤ D.faults disk.new }
        ensures files_later { F.faults files.old ≤ F.faults files.new }

        // With full sync, and an engine at a crash point of a run that began with a disk on which all was
        // durable: at each crash point of the turn the post-crash state is safe, and after the turn the
        // engine is at such a point again.
        ensures safe { (others : CallLogs) (s : AllSettings) (first : DiskFiles) (m : CrashPoint) → s.service.full ≡ true → AreDurable first → IsAtCrashPoint s first self.old m
            → TurnIsCrashSafe (with_all (L.call_log outside.old) (D.call_log disk.old) (F.call_log files.old) others) (with_all (L.call_log outside.new) (D.call_log disk.new) (F.call_log files.new) others) s first m self.new result }
    {
        self.run.lemma_settings_are_sound();
        match self.wait(outside) {
            Ok(happening) => self.take(rt, &happening, disk, files, outside),
            Err(_) => Err(EngineStop::Memory),
        }
    }

    fn begin_inner<D: Disk>(
        rt: &(impl Threads + Sync),
        alloc: Global,
        settings: AllSettings,
        disk: &mut D,
    ) -> Result<Engine, BeginErr>
        requires { MeetsRequirements settings }
        ensures begins { (others : CallLogs) → BeginOutcome (with_disk (D.call_log disk.old) others) (with_disk (D.call_log disk.new) others) settings result }
        ensures cause { HasCause (D.faults disk.old) (D.faults disk.new) (result ≡ Err begin_err.DiskFault) }
    {
        let Ok(run) = RunSettings::new(alloc, settings) else {
            return Err(BeginErr::Memory);
        };
        match load(rt, alloc, &run, disk) {
            Ok(parts) => Ok(Engine { run, parts }),
            Err(LoadErr::DiskFailed) => Err(BeginErr::DiskFault),
            Err(LoadErr::Memory) => Err(BeginErr::Memory),
        }
    }

    fn take<L: Loop, D: Disk, F: Files>(
        &mut self,
        rt: &(impl Threads + Sync),
        happening: &Happening,
        disk: &mut D,
        files: &mut F,
        outside: &mut L,
    ) -> Result<Turn, EngineStop>
        ensures steps { (others : CallLogs) (s : AllSettings) (h : History) → IsAt self.old s h
            → Steps (with_all (L.call_log outside.old) (D.call_log disk.old) (F.call_log files.old) others) (with_all (L.call_log outside.new) (D.call_log disk.new) (F.call_log files.new) others) s h happening.now self.new result }
        ensures fails { FailsExactly happening.now result }
        ensures unheard { NoEventTaken (L.counts outside.old) (L.counts outside.new) }
        ensures later { L.faults outside.old ≤ L.faults outside.new }
        ensures disk_later { D.faults disk.old ≤ D.faults disk.new }
        ensures files_later { F.faults files.old ≤ F.faults files.new }
    {
        if is_failure(happening) {
            return Err(EngineStop::LoopFault);
        }
        let run = &self.run;
        match step(rt, run, &mut self.parts, outside, disk, files, happening) {
            Ok(()) => Ok(turn_of(is_finished(run, &self.parts, happening))),
            Err(_) => Err(EngineStop::Memory),
        }
    }

    /// The mask of the paused inputs: those whose chunks in memory have reached their limit, or all of them
    /// after a stop.
    pub fn paused(&self) -> u64
        ensures { EngineAnswers self.now (λ s h. result ≡ paused s h) }
    {
        self.parts.state.paused(self.run.memory_limits())
    }

    /// Exactly the pending chunks, each with its outputs, tries and due times.
    pub fn table(&self) -> &Table
        ensures { EngineAnswers self.now (λ s h. result.now.rows ≡ rows_of s h) }
    {
        self.parts.state.table()
    }

    /// The counters of the report.
    pub fn tally(&self) -> &Tally
        ensures { EngineAnswers self.now (λ s h. result.now ≡ tally_of s h) }
    {
        self.parts.state.tally()
    }

    /// The clock at the stop, if there was one.
    pub fn stopped(&self) -> Option<u64>
        ensures { EngineAnswers self.now (λ s h. result ≡ stopped s h) }
    {
        self.parts.state.stopped()
    }

    /// Returns how many reads for a flush found damaged content. The history doesn't have them.
    pub fn damaged_reads(&self) -> u64
        ensures { result ≡ self.now.parts.state.damaged }
    {
        self.parts.state.damaged_reads()
    }

    /// Returns how many bytes the unfinished messages of all connections have together, and which connection
    /// has the longest one, among those whose input isn't paused.
    pub fn unfinished(&self) -> Unfinished
        ensures bytes { result.bytes ≡ min (all_unfinished self.now.parts.input_streams.wires) (2 ^ 64 - 1) }
        ensures largest { EngineAnswers self.now (λ s h. IsLargest (droppable_bytes (paused s h) (input_of s h) (λ conn. ending (said s h (MessageStream conn)))) result.largest) }
    {
        self.parts.input_streams.unfinished(self.paused())
    }

    /// Returns the names in recovered chunk files that stand for no output, at most 16, of an engine that has
    /// just begun. They are for a watcher, and no clause speaks of them.
    pub fn strangers(&self) -> Result<Names, Memory> {
        strangers_of(self.alloc(), &self.run, &self.parts)
    }

    /// The number of ticks that were handled.
    pub fn ticks(&self) -> u64
        ensures { EngineAnswers self.now (λ s h. result ≡ tick_count h) }
    {
        self.parts.state.ticks()
    }

    /// Returns the offset after the last whole line that was read from a followed file, by the index of its
    /// path among those of the input. `None` if the input has no such path, or if nothing was read and no
    /// reading resumed.
    pub fn settled(&self, input: InputId, index: u64) -> Option<u64>
        ensures { EngineAnswers self.now (λ s h. result ≡ settled_at s h input.0 index) }
    {
        self.parts.followed_files.settled(input, index as usize)
    }

    /// Resumes reading the files of a path at an offset, at each index of the path among those of the input.
    /// After `Memory` the engine can't be used any more.
    pub fn resume(&mut self, input: InputId, path: &[u8], place: u64) -> Result<(), Memory>
        ensures { OnOk result ((s : AllSettings) (h : History) → IsAt self.old s h → IsAt self.new s (resumed_history input.0 path.now place (paths_at s input.0) (length (paths_at s input.0)) h)) }
    {
        self.parts.followed_files.resume(input, path, place)
    }

    pub fn alloc(&self) -> Global {
        self.parts.state.alloc()
    }

    /// Returns the settings, for the next run. Allocates nothing.
    pub fn finish(self) -> AllSettings
        ensures { (s : AllSettings) (h : History) → IsAt self s h → result ≡ s }
    {
        self.run.into_settings()
    }
}
