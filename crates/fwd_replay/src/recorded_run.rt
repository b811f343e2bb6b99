//! A live run that is recorded, from its settings to its report and its schedule.

ghost use Rattle.std.specs.Prelude.{◌≡◌, ◌<◌, ◌≤◌, ◌^◌, ◌&&◌, not, List, [], map, None, Ok, is_some, if◌then◌else◌};
ghost use Rattle.std.specs.List.{list_any};
ghost use Rattle.fwd_outside.specs.Cause.{HasCause};
ghost use Rattle.fwd_outside.specs.Loop.{LoopEntry};
ghost use Rattle.fwd_settings.specs.Endpoints.{ends_of};
ghost use Rattle.fwd_settings.specs.Requirements.{MeetsRequirements};
ghost use Rattle.fwd_settings.specs.declared.settings_types.AllSettings.{AllSettings};
ghost use Rattle.fwd_model.specs.CallLogs.{CallLogs};
ghost use Rattle.fwd_model.specs.Notes.{is_empty};
ghost use Rattle.fwd_engine_state.specs.RefinesAction.{with_all};
ghost use Rattle.fwd_engine_state.specs.LoopCounters.{EventsTaken};
ghost use Rattle.fwd_engine_run.specs.EngineSteps.{EngineAnswers, IsAt};
ghost use Rattle.fwd_engine_run.specs.OffsetRows.{Keeps, with_keeper};
ghost use Rattle.fwd_engine_run.specs.declared.run_loop.RunEnd.TheVariants as run_end;
ghost use Rattle.fwd_record.specs.Counting.{log_of as disk_log};
ghost use Rattle.fwd_record.specs.Seen.{Answered, Seen};
ghost use Rattle.fwd_secure.specs.Keys.{AreShort};
ghost use Rattle.fwd_secure.specs.Secure.{counts_of};
ghost use Rattle.fwd_secure_settings.specs.Keys.{keys_of};
ghost use Rattle.fwd_theorem_trace.specs.Allowed.{IsLoading};
ghost use Rattle.fwd_replay.specs.LiveRun.{IsSetup, events_below, heard_in};
ghost use Rattle.fwd_replay.specs.RecordedRun.{RanSo, ending_of_run, first_number, follows_files};
ghost use Rattle.fwd_replay.specs.RecordedParts.{AreKeysOf, ComesOf, ComesTo, HasKept, IsFreshLog, IsRecordable, IsScheduleOf, IsSeenBy, IsToRecord, IsUnlessOut, ReportsOver, RunsBelow, RunsCounted, RunsOver, RunsRecorded, counts_nothing, end_finished, ending_told, finished, heard_finished, is_reported, told_of};
ghost use Rattle.fwd_replay.specs.declared.report.Ending.TheVariants as ending;

use crate::live_run::{report_of, without_text};
use crate::report::{Ending, Reported};
use crate::setup::Setup;
use fwd_base::Memory;
use fwd_engine_run::{
    BeginErr, Engine, KeptOffsets, Paused, RunEnd, finish, run_to_last, show_begun, snapshot_of,
};
use fwd_keeper::Keeper;
use fwd_outside::{Disk, Ends, Files, Loop};
use fwd_record::{CountedDisk, Recorder, schedule_of, stopped_schedule_of};
use fwd_script::Schedule;
use fwd_secure::{Keys, SecureLoop};
use fwd_secure_settings::{keys, lemma_keys_are_short};
use fwd_settings::{AllSettings, InputKind, InputSet};
use fwd_table::Tally;
use fwd_watch::Watch;
use std::alloc::Global;
use std::thread::Threads;

/// How a run that was to be recorded went.
#[derive(Debug, Drop)]
pub enum Ran {
    /// The settings follow files, or the disk has chunks. Nothing was started.
    NotRecordable,
    /// A device failed, or memory ran out.
    Unrecorded(Reported),
    /// The run went to its end or used up its turns. The schedule is an error only if memory ran out for it.
    Recorded {
        reported: Reported,
        schedule: Result<Schedule, Memory>,
    },
}

/// How a run ended, and, if its last tick stopped it, how many events came before that.
#[derive(Clone, Copy, Debug)]
pub struct Finish {
    pub end: RunEnd,
    pub stopped_after: Option<usize>,
}

/// The report of a run, and, if its last tick stopped it, how many events came before that.
#[derive(Debug, Drop)]
pub struct Told {
    pub reported: Reported,
    pub stopped_after: Option<usize>,
}

/// A loop that keeps the events that it brings. The recorder below a keyed loop is a type parameter with this
/// bound: of a `Recorder<'_, L>`, whose type names a lifetime, a proof knows nothing once the keyed loop has
/// given it back.
trait KeepsEvents: Loop {
    /// Returns the number of events that were kept.
    fn events_kept(&self) -> usize
        ensures { HasKept (Self.call_log self.now) result };
}

impl<L: Loop> KeepsEvents for Recorder<'_, L> {
    fn events_kept(&self) -> usize {
        self.is_recording();
        self.heard()
    }
}

/// Returns whether a run that ended so has a report.
fn is_reported(ending: Ending) -> bool
    ensures { result ≡ is_reported ending }
{
    matches!(ending, Ending::Over | Ending::TurnsSpent)
}

/// Returns how a run ended, with where its last tick stopped it.
fn finished(end: Result<RunEnd, Memory>, stopped_after: Option<usize>) -> Result<Finish, Memory>
    ensures { result ≡ finished end stopped_after }
{
    match end {
        Ok(end) => Ok(Finish { end, stopped_after }),
        Err(Memory) => Err(Memory),
    }
}

/// Returns the report of a run, with where its last tick stopped it.
fn told_of(reported: Result<Reported, Memory>, stopped_after: Option<usize>) -> Result<Told, Memory>
    ensures { result ≡ told_of reported stopped_after }
{
    match reported {
        Ok(reported) => Ok(Told {
            reported,
            stopped_after,
        }),
        Err(Memory) => Err(Memory),
    }
}

/// Returns what came of a run, unless memory was out below it.
fn unless_out(out_of_memory: bool, outcome: Result<Told, Memory>) -> Result<Told, Memory>
    ensures { IsUnlessOut out_of_memory outcome result }
{
    if out_of_memory { Err(Memory) } else { outcome }
}

/// Runs an engine that has begun, to its end. If the last tick stops the run, it marks the keyed loop there.
fn run_marked<R: KeepsEvents, D: Disk, F: Files, K: Keeper>(
    rt: &(impl Threads + Sync),
    engine: &mut Engine,
    offsets: &mut KeptOffsets,
    ends: &Ends,
    ticks: Option<u64>,
    disk: &mut D,
    files: &mut F,
    secure: &mut SecureLoop<'_, R>,
    keeper: &mut K,
    most: u64,
    watch: &mut impl Watch,
) -> Result<Finish, Memory>
    ensures run { (others : CallLogs) (s : AllSettings) → IsAt engine.old s [] → Keeps s offsets.old [] → ends.now ≡ ends_of s
        → RunsOver (with_all None (D.call_log disk.old) (F.call_log files.old) (with_keeper (K.call_log keeper.old) others)) (with_all None (D.call_log disk.new) (F.call_log files.new) (with_keeper (K.call_log keeper.new) others)) s ticks most secure.old secure.new engine.new result }
    ensures heard { EventsTaken (heard_finished most result) (counts_of secure.old) (counts_of secure.new) }
    ensures keeper_cause { HasCause (K.faults keeper.old) (K.faults keeper.new) (end_finished result ≡ Ok run_end.KeeperFailed) }
    ensures disk_later { D.faults disk.old ≤ D.faults disk.new }
    ensures files_later { F.faults files.old ≤ F.faults files.new }
{
    match run_to_last(
        rt, engine, offsets, ends, ticks, disk, files, secure, keeper, most, watch,
    ) {
        Ok(Paused::Ended(end)) => finished(Ok(end), None),
        Ok(Paused::AtLast(left)) => {
            if secure.is_out_of_memory() {
                return Err(Memory);
            }
            secure.is_secure();
            let recorder = secure.below();
            let heard = recorder.events_kept();
            secure.mark();
            let end = finish(
                rt, engine, offsets, disk, files, secure, keeper, left, watch,
            );
            finished(end, Some(heard))
        }
        Err(Memory) => Err(Memory),
    }
}

/// Runs an engine that has begun, and returns its report.
fn run_reported<R: KeepsEvents, D: Disk, F: Files, K: Keeper>(
    rt: &(impl Threads + Sync),
    alloc: Global,
    setup: &mut Setup,
    engine: &mut Engine,
    disk: &mut D,
    files: &mut F,
    secure: &mut SecureLoop<'_, R>,
    keeper: &mut K,
    watch: &mut impl Watch,
) -> Result<Told, Memory>
    requires { IsToRecord setup.old engine.old }
    ensures run { (others : CallLogs) (s : AllSettings) → IsRecordable s setup.old engine.old
        → ReportsOver (with_all None (D.call_log disk.old) (F.call_log files.old) (with_keeper (K.call_log keeper.old) others)) (with_all None (D.call_log disk.new) (F.call_log files.new) (with_keeper (K.call_log keeper.new) others)) s setup.old.ticks setup.old.most secure.old secure.new result }
    ensures heard { EventsTaken (heard_in setup.old.most (ending_told result)) (counts_of secure.old) (counts_of secure.new) }
    ensures keeper_cause { HasCause (K.faults keeper.old) (K.faults keeper.new) (ending_told result ≡ ending.KeeperFailed) }
    ensures disk_cause { HasCause (D.faults disk.old) (D.faults disk.new) (ending_told result ≡ ending.DiskFailed) }
    ensures files_later { F.faults files.old ≤ F.faults files.new }
{
    match run_marked(
        rt,
        engine,
        &mut setup.offsets,
        &setup.ends,
        setup.ticks,
        disk,
        files,
        secure,
        keeper,
        setup.most,
        watch,
    ) {
        Ok(ended) => {
            let reported = report_of(alloc, &setup.named, engine, ended.end);
            told_of(reported, ended.stopped_after)
        }
        Err(Memory) => Err(Memory),
    }
}

/// Runs an engine that has begun, and drops the settings that it gives back.
fn run_and_finish<R: KeepsEvents, D: Disk, F: Files, K: Keeper>(
    rt: &(impl Threads + Sync),
    alloc: Global,
    mut setup: Setup,
    mut engine: Engine,
    disk: &mut D,
    files: &mut F,
    secure: &mut SecureLoop<'_, R>,
    keeper: &mut K,
    watch: &mut impl Watch,
) -> Result<Told, Memory>
    requires { IsToRecord setup engine }
    ensures run { (others : CallLogs) (s : AllSettings) → IsRecordable s setup engine
        → ReportsOver (with_all None (D.call_log disk.old) (F.call_log files.old) (with_keeper (K.call_log keeper.old) others)) (with_all None (D.call_log disk.new) (F.call_log files.new) (with_keeper (K.call_log keeper.new) others)) s setup.ticks setup.most secure.old secure.new result }
    ensures heard { EventsTaken (heard_in setup.most (ending_told result)) (counts_of secure.old) (counts_of secure.new) }
    ensures keeper_cause { HasCause (K.faults keeper.old) (K.faults keeper.new) (ending_told result ≡ ending.KeeperFailed) }
    ensures disk_cause { HasCause (D.faults disk.old) (D.faults disk.new) (ending_told result ≡ ending.DiskFailed) }
    ensures files_later { F.faults files.old ≤ F.faults files.new }
{
    show_begun(&engine, &setup.named.inputs, &setup.named.outputs, watch);
    let outcome = run_reported(
        rt,
        alloc,
        &mut setup,
        &mut engine,
        disk,
        files,
        secure,
        keeper,
        watch,
    );
    watch.note_end(snapshot_of(&engine));
    let _given_back = engine.finish();
    outcome
}

/// Runs an engine that has begun, with a keyed loop around the recorder.
fn run_keyed<R: KeepsEvents, D: Disk, F: Files, K: Keeper>(
    rt: &(impl Threads + Sync),
    alloc: Global,
    setup: Setup,
    engine: Engine,
    keys: Keys,
    disk: &mut D,
    files: &mut F,
    recorder: &mut R,
    keeper: &mut K,
    watch: &mut impl Watch,
) -> Result<Told, Memory>
    requires short { AreShort keys }
    requires begun { IsToRecord setup engine }
    requires keyed { AreKeysOf keys engine }
    requires fresh { IsFreshLog (R.call_log recorder.old) }
    ensures run { (others : CallLogs) (s : AllSettings) → IsRecordable s setup engine
        → RunsBelow (with_all (R.call_log recorder.old) (D.call_log disk.old) (F.call_log files.old) (with_keeper (K.call_log keeper.old) others)) (with_all (R.call_log recorder.new) (D.call_log disk.new) (F.call_log files.new) (with_keeper (K.call_log keeper.new) others)) s setup.ticks setup.most result }
    ensures heard { (s : AllSettings) → keys ≡ keys_of s → EventsTaken (events_below s (heard_in setup.most (ending_told result))) (R.counts recorder.old) (R.counts recorder.new) }
    ensures keeper_cause { HasCause (K.faults keeper.old) (K.faults keeper.new) (ending_told result ≡ ending.KeeperFailed) }
    ensures loop_cause { HasCause (R.faults recorder.old) (R.faults recorder.new) (ending_told result ≡ ending.LoopFailed) }
    ensures disk_cause { HasCause (D.faults disk.old) (D.faults disk.new) (ending_told result ≡ ending.DiskFailed) }
    ensures files_later { F.faults files.old ≤ F.faults files.new }
{
    let mut secure = SecureLoop::new(alloc, recorder, keys);
    let outcome = run_and_finish(
        rt,
        alloc,
        setup,
        engine,
        disk,
        files,
        &mut secure,
        keeper,
        watch,
    );
    secure.is_secure();
    let outcome = unless_out(secure.is_out_of_memory(), outcome);
    let _recorder = secure.into_inner();
    outcome
}

/// Returns the schedule of what was recorded.
fn recorded_schedule<L: Loop, D: Disk>(
    alloc: Global,
    recorder: &Recorder<'_, L>,
    disk: &CountedDisk<'_, D>,
    stopped_after: Option<usize>,
) -> Result<Schedule, Memory>
    ensures { (calls : List LoopEntry) (seen : List Seen) → recorder.now.seen ≡ map Answered calls → IsSeenBy stopped_after calls seen → IsScheduleOf seen disk.now.failed result }
{
    match stopped_after {
        Some(heard) => stopped_schedule_of(alloc, recorder, disk, heard),
        None => schedule_of(alloc, recorder, disk),
    }
}

/// Returns what came of a run that has a text or an ending: its schedule too, if it has a report.
fn ran_with_text<L: Loop, D: Disk>(
    alloc: Global,
    recorder: &Recorder<'_, L>,
    disk: &CountedDisk<'_, D>,
    told: Told,
) -> Ran
    ensures { ComesOf recorder.now disk.now.failed told result }
{
    if is_reported(told.reported.ending) {
        Ran::Recorded {
            schedule: recorded_schedule(alloc, recorder, disk, told.stopped_after),
            reported: told.reported,
        }
    } else {
        Ran::Unrecorded(told.reported)
    }
}

/// Returns what came of a run: its schedule too, if it has a report.
fn ran_of<L: Loop, D: Disk>(
    alloc: Global,
    recorder: &Recorder<'_, L>,
    disk: &CountedDisk<'_, D>,
    outcome: Result<Told, Memory>,
) -> Ran
    ensures { ComesTo recorder.now disk.now.failed outcome result }
{
    match unless_out(recorder.is_out_of_memory(), outcome) {
        Ok(told) => ran_with_text(alloc, recorder, disk, told),
        Err(Memory) => Ran::Unrecorded(without_text(alloc, Ending::Memory)),
    }
}

/// Runs an engine that has begun, with a recorder around the loop.
fn run_noted<L: Loop, D: Disk, F: Files, K: Keeper>(
    rt: &(impl Threads + Sync),
    alloc: Global,
    setup: Setup,
    engine: Engine,
    keys: Keys,
    disk: &mut CountedDisk<'_, D>,
    files: &mut F,
    outside: &mut L,
    keeper: &mut K,
    watch: &mut impl Watch,
) -> Ran
    requires short { AreShort keys }
    requires begun { IsToRecord setup engine }
    requires keyed { AreKeysOf keys engine }
    ensures life { (others : CallLogs) (s : AllSettings) → IsRecordable s setup engine
        → RunsRecorded (with_all (L.call_log outside.old) (disk_log disk.old) (F.call_log files.old) (with_keeper (K.call_log keeper.old) others)) (with_all (L.call_log outside.new) (disk_log disk.new) (F.call_log files.new) (with_keeper (K.call_log keeper.new) others)) s setup.ticks setup.most (L.counts outside.old).endless disk.new.failed result }
    ensures heard { (s : AllSettings) → keys ≡ keys_of s → EventsTaken (events_below s (heard_in setup.most (ending_of_run result))) (L.counts outside.old) (L.counts outside.new) }
    ensures keeper_cause { HasCause (K.faults keeper.old) (K.faults keeper.new) (ending_of_run result ≡ ending.KeeperFailed) }
    ensures loop_cause { HasCause (L.faults outside.old) (L.faults outside.new) (ending_of_run result ≡ ending.LoopFailed) }
    ensures disk_cause { HasCause disk.old.faults disk.new.faults (ending_of_run result ≡ ending.DiskFailed) }
    ensures files_later { F.faults files.old ≤ F.faults files.new }
{
    let mut recorder = Recorder::new(alloc, outside);
    let outcome = run_keyed(
        rt,
        alloc,
        setup,
        engine,
        keys,
        disk,
        files,
        &mut recorder,
        keeper,
        watch,
    );
    recorder.is_recording();
    let ran = ran_of(alloc, &recorder, disk, outcome);
    let _outside = recorder.into_inner();
    ran
}

/// Returns how many calls it takes to load an empty disk.
fn calls_to_load(stored: bool) -> u64
    ensures { result ≡ (if stored then 1 else 0) }
{
    if stored { 1 } else { 0 }
}

/// Runs an engine that has begun, with a counted disk around the disk. The count starts as if an empty disk
/// had been loaded.
fn run_counted<L: Loop, D: Disk, F: Files, K: Keeper>(
    rt: &(impl Threads + Sync),
    alloc: Global,
    setup: Setup,
    engine: Engine,
    keys: Keys,
    stored: bool,
    disk: &mut D,
    files: &mut F,
    outside: &mut L,
    keeper: &mut K,
    watch: &mut impl Watch,
) -> Ran
    requires short { AreShort keys }
    requires begun { IsToRecord setup engine }
    requires keyed { AreKeysOf keys engine }
    ensures life { (others : CallLogs) (s : AllSettings) → IsRecordable s setup engine → stored ≡ is_some s.service.path
        → RunsCounted (with_all (L.call_log outside.old) (D.call_log disk.old) (F.call_log files.old) (with_keeper (K.call_log keeper.old) others)) (with_all (L.call_log outside.new) (D.call_log disk.new) (F.call_log files.new) (with_keeper (K.call_log keeper.new) others)) s setup.ticks setup.most (L.counts outside.old).endless (first_number s.service.path) result }
    ensures heard { (s : AllSettings) → keys ≡ keys_of s → EventsTaken (events_below s (heard_in setup.most (ending_of_run result))) (L.counts outside.old) (L.counts outside.new) }
    ensures keeper_cause { HasCause (K.faults keeper.old) (K.faults keeper.new) (ending_of_run result ≡ ending.KeeperFailed) }
    ensures loop_cause { HasCause (L.faults outside.old) (L.faults outside.new) (ending_of_run result ≡ ending.LoopFailed) }
    ensures disk_cause { HasCause (D.faults disk.old) (D.faults disk.new) (ending_of_run result ≡ ending.DiskFailed) }
    ensures files_later { F.faults files.old ≤ F.faults files.new }
{
    let calls = calls_to_load(stored);
    let counted = CountedDisk::new(alloc, disk);
    let mut counted = counted.loaded(alloc, calls);
    let ran = run_noted(
        rt,
        alloc,
        setup,
        engine,
        keys,
        &mut counted,
        files,
        outside,
        keeper,
        watch,
    );
    counted.is_counting();
    let _disk = counted.into_inner();
    ran
}

fn follows_files(kind: &InputKind) -> bool
    ensures { result ≡ follows_files kind.now }
{
    matches!(kind, InputKind::Tail { .. })
}

/// Returns whether an input follows files.
fn has_tail(inputs: &[InputSet]) -> bool
    ensures { result ≡ list_any (λ input. follows_files input.kind) inputs.now }
{
    let Some((set, more)) = inputs.split_first() else {
        return false;
    };
    follows_files(&set.kind) || has_tail(more)
}

/// Returns whether no file was counted.
fn counts_nothing(tally: &Tally) -> bool
    ensures { result ≡ counts_nothing tally.now }
{
    tally.loaded == 0 && (tally.unrouted == 0 && tally.left == 0)
}

/// Returns whether no input follows files and nothing was found.
fn is_plain(tailed: bool, nothing: bool) -> bool
    ensures { result ≡ (not tailed && nothing) }
{
    !tailed && nothing
}

/// Returns whether a run can be recorded: no input follows files, and the engine found no files when it
/// loaded.
fn is_recordable(tailed: bool, engine: &Engine) -> bool
    ensures { EngineAnswers engine.now (λ s h. IsLoading h → result ≡ (not tailed && is_empty h)) }
{
    let nothing = counts_nothing(engine.tally());
    is_plain(tailed, nothing)
}

/// Begins an engine, and runs it if its run can be recorded.
fn begin_recorded<L: Loop, D: Disk, F: Files, K: Keeper>(
    rt: &(impl Threads + Sync),
    alloc: Global,
    setup: Setup,
    keys: Keys,
    settings: AllSettings,
    disk: &mut D,
    files: &mut F,
    outside: &mut L,
    keeper: &mut K,
    watch: &mut impl Watch,
) -> Ran
    requires sound { MeetsRequirements settings }
    requires short { AreShort keys }
    requires keyed { keys ≡ keys_of settings }
    requires setup { IsSetup settings setup }
    requires fits { setup.most < 2 ^ 64 }
    ensures life { (others : CallLogs) → RanSo settings setup.ticks setup.most (with_all (L.call_log outside.old) (D.call_log disk.old) (F.call_log files.old) (with_keeper (K.call_log keeper.old) others)) (with_all (L.call_log outside.new) (D.call_log disk.new) (F.call_log files.new) (with_keeper (K.call_log keeper.new) others)) (L.counts outside.old).endless result }
    ensures heard { EventsTaken (events_below settings (heard_in setup.most (ending_of_run result))) (L.counts outside.old) (L.counts outside.new) }
    ensures keeper_cause { HasCause (K.faults keeper.old) (K.faults keeper.new) (ending_of_run result ≡ ending.KeeperFailed) }
    ensures loop_cause { HasCause (L.faults outside.old) (L.faults outside.new) (ending_of_run result ≡ ending.LoopFailed) }
    ensures disk_cause { HasCause (D.faults disk.old) (D.faults disk.new) (ending_of_run result ≡ ending.DiskFailed) }
    ensures files_later { F.faults files.old ≤ F.faults files.new }
{
    let tailed = has_tail(settings.inputs.as_slice());
    let stored = settings.service.path.is_some();
    match Engine::begin(rt, alloc, settings, disk) {
        Ok(engine) => {
            if is_recordable(tailed, &engine) {
                run_counted(
                    rt, alloc, setup, engine, keys, stored, disk, files, outside, keeper, watch,
                )
            } else {
                Ran::NotRecordable
            }
        }
        Err(BeginErr::DiskFault) => Ran::Unrecorded(without_text(alloc, Ending::DiskFailed)),
        Err(BeginErr::Memory) => Ran::Unrecorded(without_text(alloc, Ending::Memory)),
    }
}

/// Runs the engine with these keys, and records the run.
fn run_with_keys<L: Loop, D: Disk, F: Files, K: Keeper>(
    rt: &(impl Threads + Sync),
    alloc: Global,
    keys: Keys,
    settings: AllSettings,
    ticks: Option<u64>,
    disk: &mut D,
    files: &mut F,
    outside: &mut L,
    keeper: &mut K,
    most: u64,
    watch: &mut impl Watch,
) -> Ran
    requires sound { MeetsRequirements settings }
    requires short { AreShort keys }
    requires keyed { keys ≡ keys_of settings }
    ensures life { (others : CallLogs) → RanSo settings ticks most (with_all (L.call_log outside.old) (D.call_log disk.old) (F.call_log files.old) (with_keeper (K.call_log keeper.old) others)) (with_all (L.call_log outside.new) (D.call_log disk.new) (F.call_log files.new) (with_keeper (K.call_log keeper.new) others)) (L.counts outside.old).endless result }
    ensures heard { EventsTaken (events_below settings (heard_in most (ending_of_run result))) (L.counts outside.old) (L.counts outside.new) }
    ensures keeper_cause { HasCause (K.faults keeper.old) (K.faults keeper.new) (ending_of_run result ≡ ending.KeeperFailed) }
    ensures loop_cause { HasCause (L.faults outside.old) (L.faults outside.new) (ending_of_run result ≡ ending.LoopFailed) }
    ensures disk_cause { HasCause (D.faults disk.old) (D.faults disk.new) (ending_of_run result ≡ ending.DiskFailed) }
    ensures files_later { F.faults files.old ≤ F.faults files.new }
{
    let Ok(setup) = Setup::of(alloc, &settings, ticks, most) else {
        return Ran::Unrecorded(without_text(alloc, Ending::Memory));
    };
    begin_recorded(
        rt, alloc, setup, keys, settings, disk, files, outside, keeper, watch,
    )
}

/// Runs the engine over devices as `run_live` does, and records the run. The schedule has its one run: what
/// the loop brought and answered, and which calls on the disk failed, counted as in a replay, whose disk is
/// empty. A run over settings that follow files, or over a disk with chunks, isn't recorded and doesn't
/// start.
pub fn run_recorded<L: Loop, D: Disk, F: Files, K: Keeper>(
    rt: &(impl Threads + Sync),
    alloc: Global,
    settings: AllSettings,
    ticks: Option<u64>,
    disk: &mut D,
    files: &mut F,
    outside: &mut L,
    keeper: &mut K,
    most: u64,
    watch: &mut impl Watch,
) -> Ran
    requires { MeetsRequirements settings }
    ensures life { (others : CallLogs) → RanSo settings ticks most (with_all (L.call_log outside.old) (D.call_log disk.old) (F.call_log files.old) (with_keeper (K.call_log keeper.old) others)) (with_all (L.call_log outside.new) (D.call_log disk.new) (F.call_log files.new) (with_keeper (K.call_log keeper.new) others)) (L.counts outside.old).endless result }
    ensures heard { EventsTaken (events_below settings (heard_in most (ending_of_run result))) (L.counts outside.old) (L.counts outside.new) }
    ensures keeper_cause { HasCause (K.faults keeper.old) (K.faults keeper.new) (ending_of_run result ≡ ending.KeeperFailed) }
    ensures loop_cause { HasCause (L.faults outside.old) (L.faults outside.new) (ending_of_run result ≡ ending.LoopFailed) }
    ensures disk_cause { HasCause (D.faults disk.old) (D.faults disk.new) (ending_of_run result ≡ ending.DiskFailed) }
    ensures files_later { F.faults files.old ≤ F.faults files.new }
{
    lemma_keys_are_short();
    let Ok(keys) = keys(alloc, &settings) else {
        return Ran::Unrecorded(without_text(alloc, Ending::Memory));
    };
    run_with_keys(
        rt, alloc, keys, settings, ticks, disk, files, outside, keeper, most, watch,
    )
}
