//! A live run over devices, from its settings to its report.

ghost use Rattle.std.specs.Prelude.{◌≡◌, ◌≤◌, [], Some, IfOk, if◌then◌else◌};
ghost use Rattle.fwd_outside.specs.Cause.{HasCause};
ghost use Rattle.fwd_settings.specs.Requirements.{MeetsRequirements};
ghost use Rattle.fwd_settings.specs.declared.settings_types.AllSettings.{AllSettings};
ghost use Rattle.fwd_model.specs.Fact.{History};
ghost use Rattle.fwd_model.specs.CallLogs.{CallLogs};
ghost use Rattle.fwd_model.specs.Run.{after_recovery};
ghost use Rattle.fwd_engine_state.specs.RefinesAction.{with_all};
ghost use Rattle.fwd_engine_state.specs.LoopCounters.{EventsTaken};
ghost use Rattle.fwd_engine_run.specs.EngineSteps.{IsAt};
ghost use Rattle.fwd_engine_run.specs.OffsetRows.{Keeps, with_keeper};
ghost use Rattle.fwd_engine_run.specs.RunOutcome.{IsAtEnd, end_of};
ghost use Rattle.fwd_theorem_trace.specs.Allowed.{IsLoading};
ghost use Rattle.fwd_replay.specs.LiveRun.{IsSetup, IsToRun, RunProduces, IsRunLive, IsRunOver, ActionProduces, ending_of, events_below, heard_in};
ghost use Rattle.fwd_replay.specs.Names.{IsNamed, IsNamedUnlessFailed};
ghost use Rattle.fwd_replay.specs.Text.{out_of_memory, report, reported_by};
ghost use Rattle.fwd_replay.specs.declared.report.Ending.TheVariants as ending;

use crate::names::Named;
use crate::report::{Ending, Reported, report_text};
use crate::setup::Setup;
use fwd_base::{Bytes, Memory};
use fwd_engine_run::{BeginErr, Engine, RunEnd, run, show_begun, snapshot_of};
use fwd_keeper::Keeper;
use fwd_outside::{Disk, Files, Loop};
use fwd_secure::SecureLoop;
use fwd_secure_settings::{keys, lemma_keys_are_short};
use fwd_settings::AllSettings;
use fwd_watch::Watch;
use std::alloc::Global;
use std::thread::Threads;

/// Returns the report of an engine whose run ended this way.
pub fn report_of(
    alloc: Global,
    named: &Named,
    engine: &Engine,
    end: RunEnd,
) -> Result<Reported, Memory>
    requires { IsNamedUnlessFailed named.now engine.now end }
    ensures { (s : AllSettings) (h : History) → IsAtEnd engine.now s h end → IsNamed named.now s → IfOk result (λ reported. reported ≡ reported_by (report s h) (end_of end)) }
{
    let (text, ending) = match end {
        RunEnd::Over => (report_text(alloc, named, engine)?, Ending::Over),
        RunEnd::TurnsSpent => (report_text(alloc, named, engine)?, Ending::TurnsSpent),
        RunEnd::KeeperFailed => (Bytes::new(alloc), Ending::KeeperFailed),
        RunEnd::LoopFailed => (Bytes::new(alloc), Ending::LoopFailed),
    };
    Ok(Reported { text, ending })
}

/// Returns an ending without a text.
pub fn without_text(alloc: Global, ending: Ending) -> Reported
    ensures { result ≡ record { text = []; ending = ending } }
{
    Reported {
        text: Bytes::new(alloc),
        ending,
    }
}

/// Runs an engine that has begun.
fn run_engine<L: Loop, D: Disk, F: Files, K: Keeper>(
    rt: &(impl Threads + Sync),
    alloc: Global,
    setup: &mut Setup,
    engine: &mut Engine,
    disk: &mut D,
    files: &mut F,
    outside: &mut L,
    keeper: &mut K,
    watch: &mut impl Watch,
) -> Result<Reported, Memory>
    requires { IsToRun setup.old engine.old }
    ensures run { (others : CallLogs) (s : AllSettings) (h : History) → IsAt engine.old s h → IsLoading h → Keeps s setup.old.offsets [] → IsNamed setup.old.named s
        → ActionProduces s (after_recovery s setup.old.ends setup.old.ticks setup.old.most (Some h)) (with_all (L.call_log outside.old) (D.call_log disk.old) (F.call_log files.old) (with_keeper (K.call_log keeper.old) others)) (with_all (L.call_log outside.new) (D.call_log disk.new) (F.call_log files.new) (with_keeper (K.call_log keeper.new) others)) result }
    ensures heard { EventsTaken (heard_in setup.old.most (ending_of result)) (L.counts outside.old) (L.counts outside.new) }
    ensures keeper_cause { HasCause (K.faults keeper.old) (K.faults keeper.new) (ending_of result ≡ ending.KeeperFailed) }
    ensures disk_cause { HasCause (D.faults disk.old) (D.faults disk.new) (ending_of result ≡ ending.DiskFailed) }
    ensures files_later { F.faults files.old ≤ F.faults files.new }
{
    match run(
        rt,
        engine,
        &mut setup.offsets,
        &setup.ends,
        setup.ticks,
        disk,
        files,
        outside,
        keeper,
        setup.most,
        watch,
    ) {
        Ok(end) => report_of(alloc, &setup.named, engine, end),
        Err(Memory) => Err(Memory),
    }
}

/// Runs an engine that has begun, and drops the settings that it gives back.
fn run_and_drop<L: Loop, D: Disk, F: Files, K: Keeper>(
    rt: &(impl Threads + Sync),
    alloc: Global,
    mut setup: Setup,
    mut engine: Engine,
    disk: &mut D,
    files: &mut F,
    outside: &mut L,
    keeper: &mut K,
    watch: &mut impl Watch,
) -> Result<Reported, Memory>
    requires { IsToRun setup engine }
    ensures run { (others : CallLogs) (s : AllSettings) (h : History) → IsAt engine s h → IsLoading h → Keeps s setup.offsets [] → IsNamed setup.named s
        → ActionProduces s (after_recovery s setup.ends setup.ticks setup.most (Some h)) (with_all (L.call_log outside.old) (D.call_log disk.old) (F.call_log files.old) (with_keeper (K.call_log keeper.old) others)) (with_all (L.call_log outside.new) (D.call_log disk.new) (F.call_log files.new) (with_keeper (K.call_log keeper.new) others)) result }
    ensures heard { EventsTaken (heard_in setup.most (ending_of result)) (L.counts outside.old) (L.counts outside.new) }
    ensures keeper_cause { HasCause (K.faults keeper.old) (K.faults keeper.new) (ending_of result ≡ ending.KeeperFailed) }
    ensures disk_cause { HasCause (D.faults disk.old) (D.faults disk.new) (ending_of result ≡ ending.DiskFailed) }
    ensures files_later { F.faults files.old ≤ F.faults files.new }
{
    show_begun(&engine, &setup.named.inputs, &setup.named.outputs, watch);
    let outcome = run_engine(
        rt,
        alloc,
        &mut setup,
        &mut engine,
        disk,
        files,
        outside,
        keeper,
        watch,
    );
    watch.note_end(snapshot_of(&engine));
    let _given_back = engine.finish();
    outcome
}

/// Begins an engine and runs it.
fn begin_and_run<L: Loop, D: Disk, F: Files, K: Keeper>(
    rt: &(impl Threads + Sync),
    alloc: Global,
    setup: Setup,
    settings: AllSettings,
    disk: &mut D,
    files: &mut F,
    outside: &mut L,
    keeper: &mut K,
    watch: &mut impl Watch,
) -> Result<Reported, Memory>
    requires sound { MeetsRequirements settings }
    requires setup { IsSetup settings setup }
    ensures life { (others : CallLogs) → RunProduces settings setup.ticks setup.most (with_all (L.call_log outside.old) (D.call_log disk.old) (F.call_log files.old) (with_keeper (K.call_log keeper.old) others)) (with_all (L.call_log outside.new) (D.call_log disk.new) (F.call_log files.new) (with_keeper (K.call_log keeper.new) others)) result }
    ensures heard { EventsTaken (heard_in setup.most (ending_of result)) (L.counts outside.old) (L.counts outside.new) }
    ensures keeper_cause { HasCause (K.faults keeper.old) (K.faults keeper.new) (ending_of result ≡ ending.KeeperFailed) }
    ensures disk_cause { HasCause (D.faults disk.old) (D.faults disk.new) (ending_of result ≡ ending.DiskFailed) }
    ensures files_later { F.faults files.old ≤ F.faults files.new }
{
    match Engine::begin(rt, alloc, settings, disk) {
        Ok(engine) => run_and_drop(
            rt, alloc, setup, engine, disk, files, outside, keeper, watch,
        ),
        Err(BeginErr::DiskFault) => Ok(without_text(alloc, Ending::DiskFailed)),
        Err(BeginErr::Memory) => Err(Memory),
    }
}

/// Runs the engine over devices with the settings of a configuration, and over this loop as it is.
fn run_over<L: Loop, D: Disk, F: Files, K: Keeper>(
    rt: &(impl Threads + Sync),
    alloc: Global,
    settings: AllSettings,
    ticks: Option<u64>,
    disk: &mut D,
    files: &mut F,
    outside: &mut L,
    keeper: &mut K,
    most: u64,
    watch: &mut impl Watch,
) -> Reported
    requires { MeetsRequirements settings }
    ensures life { (others : CallLogs) → IsRunOver settings ticks most (with_all (L.call_log outside.old) (D.call_log disk.old) (F.call_log files.old) (with_keeper (K.call_log keeper.old) others)) (with_all (L.call_log outside.new) (D.call_log disk.new) (F.call_log files.new) (with_keeper (K.call_log keeper.new) others)) result }
    ensures heard { EventsTaken (heard_in most result.ending) (L.counts outside.old) (L.counts outside.new) }
    ensures keeper_cause { HasCause (K.faults keeper.old) (K.faults keeper.new) (result.ending ≡ ending.KeeperFailed) }
    ensures disk_cause { HasCause (D.faults disk.old) (D.faults disk.new) (result.ending ≡ ending.DiskFailed) }
    ensures files_later { F.faults files.old ≤ F.faults files.new }
{
    let Ok(setup) = Setup::of(alloc, &settings, ticks, most) else {
        return without_text(alloc, Ending::Memory);
    };
    match begin_and_run(
        rt, alloc, setup, settings, disk, files, outside, keeper, watch,
    ) {
        Ok(reported) => reported,
        Err(Memory) => without_text(alloc, Ending::Memory),
    }
}

/// Returns the text and the ending of a run, unless memory was out in a call on the keyed loop.
fn checked<L: Loop>(alloc: Global, secure: &SecureLoop<'_, L>, reported: Reported) -> Reported
    ensures { result ≡ (if secure.now.out_of_memory then out_of_memory else reported) }
{
    if secure.is_out_of_memory() {
        without_text(alloc, Ending::Memory)
    } else {
        reported
    }
}

/// Runs the engine over devices with the settings of a configuration, for at most the given number of events:
/// it loads the disk, gets the kept offsets, and then takes the events of the loop. The keyed loop stands
/// between: it shakes hands with the peers of inputs and outputs that have a key. If a number of clock ticks
/// is given, the run is stopped after the last of them. The text is the report. The ending is `DiskFailed`,
/// `KeeperFailed` or `LoopFailed` only if a failure of the disk, the keeper or the loop was counted, and
/// `TurnsSpent` only if the loop returned that many events, or half as many if there are keys. The watcher is
/// told how the run goes, and has no effect on it.
pub fn run_live<L: Loop, D: Disk, F: Files, K: Keeper>(
    rt: &(impl Threads + Sync),
    alloc: Global,
    settings: AllSettings,
    ticks: Option<u64>,
    disk: &mut D,
    files: &mut F,
    outside: &mut L,
    keeper: &mut K,
    most: u64,
    watch: &mut impl Watch,
) -> Reported
    requires { MeetsRequirements settings }
    ensures life { (others : CallLogs) → IsRunLive settings ticks most (with_all (L.call_log outside.old) (D.call_log disk.old) (F.call_log files.old) (with_keeper (K.call_log keeper.old) others)) (with_all (L.call_log outside.new) (D.call_log disk.new) (F.call_log files.new) (with_keeper (K.call_log keeper.new) others)) result }
    ensures heard { EventsTaken (events_below settings (heard_in most result.ending)) (L.counts outside.old) (L.counts outside.new) }
    ensures keeper_cause { HasCause (K.faults keeper.old) (K.faults keeper.new) (result.ending ≡ ending.KeeperFailed) }
    ensures loop_cause { HasCause (L.faults outside.old) (L.faults outside.new) (result.ending ≡ ending.LoopFailed) }
    ensures disk_cause { HasCause (D.faults disk.old) (D.faults disk.new) (result.ending ≡ ending.DiskFailed) }
    ensures files_later { F.faults files.old ≤ F.faults files.new }
{
    lemma_keys_are_short();
    let Ok(keys) = keys(alloc, &settings) else {
        return without_text(alloc, Ending::Memory);
    };
    let mut secure = SecureLoop::new(alloc, outside, keys);
    let reported = run_over(
        rt,
        alloc,
        settings,
        ticks,
        disk,
        files,
        &mut secure,
        keeper,
        most,
        watch,
    );
    secure.is_secure();
    let reported = checked(alloc, &secure, reported);
    let _outside = secure.into_inner();
    reported
}
