//! One run of a schedule, from what it finds to what it leaves.

ghost use Rattle.std.specs.Prelude.{◌≡◌, ◌<◌, ◌≤◌, ◌++◌, ℕ, List, [], Some, None, OnOk, IfOk};
ghost use Rattle.fwd_disk_mem.specs.DiskState.{Seen};
ghost use Rattle.fwd_keeper_mem.specs.KeeperState.{KeeperState};
ghost use Rattle.fwd_settings.specs.Endpoints.{ends_of};
ghost use Rattle.fwd_settings.specs.Requirements.{MeetsRequirements};
ghost use Rattle.fwd_settings.specs.declared.settings_types.AllSettings.{AllSettings};
ghost use Rattle.fwd_files_mem.specs.FilesState.{FilesState};
ghost use Rattle.fwd_script.specs.declared.schedule.Life.{Life};
ghost use Rattle.fwd_model.specs.Fact.{History};
ghost use Rattle.fwd_engine_run.specs.EngineSteps.{IsAt};
ghost use Rattle.fwd_replay.specs.Runs.{Start};
ghost use Rattle.fwd_secure.specs.Keys.{AreShort};
ghost use Rattle.fwd_secure_settings.specs.Keys.{keys_of};
ghost use Rattle.fwd_replay.specs.Names.{IsNamed, IsNamedOf};
ghost use Rattle.fwd_replay.specs.RunState.{HandsBytes, HasBegun, IsTextOf, IsFresh, KeyedLoopStarts, AreRenewed, OffsetsAreRenewed, EndsBy, EndsAs, ProducesText, ProducesOutcome, DevicesAreReady, LoopHasFailed, HaveAnswered, IsCrashed, IsOver, IsReady, IsInProgress, HandsOver};
ghost use Rattle.fwd_replay.specs.Text.{with_line_end};
ghost use Rattle.fwd_replay.specs.declared.progress.Going.{Going};
ghost use Rattle.fwd_replay.specs.declared.life.Next.TheVariants as follow;
ghost use Rattle.fwd_replay.specs.declared.report.Shown.{Shown};

use crate::names::Named;
use crate::progress::Going;
use crate::report::{Ending, report_text};
use crate::start::{Begun, StartErr, begin, set_up};
use crate::turns::{TurnsEnd, is_out_of_memory, lemma_script_plays, take, take_turns};
use fwd_base::{Bytes, Memory};
use fwd_disk_mem::MemDisk;
use fwd_engine_run::KeptOffsets;
use fwd_keeper_mem::MemKeeper;
use fwd_outside::{Begun as LoopBegun, Ends, Loop};
use fwd_script::{Cut, Life, MemFiles};
use fwd_script_loop::Script;
use fwd_secure::SecureLoop;
use fwd_secure_settings::{Keys, keys, lemma_keys_are_short};
use fwd_settings::{AllSettings, ends};
use std::alloc::Global;
use std::thread::Threads;

/// What a run leaves to the next one besides the disk and the files: the crash that cut it, the settings,
/// and how many turns it took.
#[derive(Drop)]
pub struct Left {
    pub cut: Cut,
    pub settings: AllSettings,
    pub taken: u64,
}

/// What follows a run.
#[derive(Drop)]
pub enum Next {
    /// Nothing: the replay ends this way.
    Ends(Ending),
    /// Another run: this one was cut, and leaves this.
    Life(Left),
}

/// The outcome of a run: its text, and what follows it.
#[derive(Drop)]
pub struct Outcome {
    pub text: Bytes,
    pub next: Next,
}

/// How a run in progress ended.
#[derive(Clone, Copy)]
pub enum LifeEnd {
    /// The replay ends with it.
    Ends(Ending),
    /// This crash cut it.
    Cut(Cut),
}

/// The text of a run in progress, and how it ended.
#[derive(Drop)]
pub struct Came {
    pub text: Bytes,
    pub end: LifeEnd,
}

/// Ends a text that isn't empty with a line feed, unless it has one.
fn end_line(text: &mut Bytes) -> Result<(), Memory>
    ensures { OnOk result (text.new ≡ with_line_end text.old) }
{
    let bytes = text.as_slice();
    if !bytes.is_empty() && bytes[bytes.len() - 1] != b'\n' {
        text.push(b'\n')?;
    }
    Ok(())
}

/// Returns the bytes that links of these outputs took, in the order taken.
fn bytes_handed(
    alloc: Global,
    secure: &SecureLoop<'_, Script>,
    outputs: u64,
) -> Result<Bytes, Memory>
    ensures { IfOk result (λ bytes. HandsBytes secure.now.below.call_log outputs bytes) }
{
    secure.inner.handed(alloc, outputs)
}

/// Returns the bytes that the standard outputs took, if they are shown, with a line feed at their end,
/// and the report.
fn text_of(alloc: Global, named: &Named, going: &Going<'_>) -> Result<Bytes, Memory>
    requires { IsNamedOf named.now going.now.engine }
    ensures { (s : AllSettings) (h : History) → IsAt going.now.engine s h → IsNamed named.now s
        → IfOk result (λ text. IsTextOf named.now.shown s going.now.secure.below.call_log h text) }
{
    let mut text = bytes_handed(alloc, &going.secure, named.printed)?;
    end_line(&mut text)?;
    let report = report_text(alloc, named, &going.engine)?;
    text.extend_from_slice(report.as_slice())?;
    Ok(text)
}

/// States that disk and keeper in memory answered as the schedule says.
fn lemma_have_answered(disk: &MemDisk, keeper: &MemKeeper)
    ensures { HaveAnswered disk.now keeper.now }
{
    disk.is_played();
    keeper.is_played();
}

/// Puts the disk in its state after a crash, which comes `cut`'s number of calls after the call number
/// `since`.
fn crash_disk(alloc: Global, disk: &mut MemDisk, since: usize, cut: Cut) -> Result<(), Memory>
    ensures { OnOk result (IsCrashed since cut disk.old disk.new) }
{
    let image = disk.image_since(alloc, since, cut.calls, cut.pick)?;
    *disk = image;
    Ok(())
}

/// Replaces the files by equal ones with an empty call log.
fn renew_files(alloc: Global, files: &mut MemFiles) -> Result<(), Memory>
    ensures { OnOk result (AreRenewed files.old files.new) }
{
    let renewed = files.renewed(alloc)?;
    *files = renewed;
    Ok(())
}

/// Replaces the keeper by one with the same offsets and an empty call log.
fn renew_keeper(alloc: Global, keeper: &mut MemKeeper) -> Result<(), Memory>
    ensures { OnOk result (OffsetsAreRenewed keeper.old keeper.new) }
{
    let renewed = keeper.renewed(alloc)?;
    *keeper = renewed;
    Ok(())
}

/// Puts disk, files and keeper in their states after a crash, for the next run.
fn crash(
    alloc: Global,
    disk: &mut MemDisk,
    files: &mut MemFiles,
    keeper: &mut MemKeeper,
    since: usize,
    cut: Cut,
) -> Result<(), Memory>
    ensures { OnOk result (IsCrashed since cut disk.old disk.new × AreRenewed files.old files.new × OffsetsAreRenewed keeper.old keeper.new) }
{
    crash_disk(alloc, disk, since, cut)?;
    renew_files(alloc, files)?;
    renew_keeper(alloc, keeper)
}

/// Makes the turn in which the run is cut, and the crash.
fn cut_turn(
    rt: &(impl Threads + Sync),
    alloc: Global,
    going: &mut Going<'_>,
    disk: &mut MemDisk,
    files: &mut MemFiles,
    keeper: &mut MemKeeper,
    cut: Cut,
    most: u64,
) -> Result<(), Memory>
    requires { going.old.taken < most }
    ensures { (s : AllSettings) (begins : Start) (planned : Life) (ready : IsReady s begins planned going.old disk.old files.old keeper.old (Some cut))
        → OnOk result (HandsOver s most begins planned cut going.new ready.history ready.below disk.new files.new keeper.new) }
{
    let since = disk.record_len();
    if is_out_of_memory(take(rt, going, disk, files, keeper)) {
        return Err(Memory);
    }
    crash(alloc, disk, files, keeper, since, cut)
}

/// Returns the outcome of a run that is cut in its next turn.
fn leave_in_turn(
    rt: &(impl Threads + Sync),
    alloc: Global,
    named: &Named,
    going: &mut Going<'_>,
    disk: &mut MemDisk,
    files: &mut MemFiles,
    keeper: &mut MemKeeper,
    cut: Cut,
    most: u64,
) -> Result<Came, Memory>
    requires named { IsNamedOf named.now going.old.engine }
    requires left { going.old.taken < most }
    ensures { (s : AllSettings) (begins : Start) (planned : Life) → IsNamed named.now s → IsReady s begins planned going.old disk.old files.old keeper.old (Some cut)
        → IfOk result (EndsAs named.now.shown s most begins planned going.new disk.new files.new keeper.new) }
{
    let text = text_of(alloc, named, going)?;
    cut_turn(rt, alloc, going, disk, files, keeper, cut, most)?;
    Ok(Came {
        text,
        end: LifeEnd::Cut(cut),
    })
}

/// Returns the outcome of a run that was over before its crash came.
fn leave_over(
    alloc: Global,
    named: &Named,
    going: &Going<'_>,
    disk: &mut MemDisk,
    files: &mut MemFiles,
    keeper: &mut MemKeeper,
    cut: Cut,
) -> Result<Came, Memory>
    requires { IsNamedOf named.now going.now.engine }
    ensures { (s : AllSettings) (begins : Start) (planned : Life) (most : ℕ) → IsNamed named.now s → IsOver s begins planned going.now disk.old files.old keeper.old → planned.cut ≡ Some cut → going.now.taken ≤ most
        → IfOk result (EndsAs named.now.shown s most begins planned going.now disk.new files.new keeper.new) }
{
    let text = text_of(alloc, named, going)?;
    lemma_have_answered(disk, keeper);
    let since = disk.record_len();
    crash(alloc, disk, files, keeper, since, cut)?;
    Ok(Came {
        text,
        end: LifeEnd::Cut(cut),
    })
}

/// Ends the replay with a run that is over and isn't to be cut.
fn end_over(
    alloc: Global,
    named: &Named,
    going: &Going<'_>,
    disk: &MemDisk,
    keeper: &MemKeeper,
) -> Result<Came, Memory>
    requires { IsNamedOf named.now going.now.engine }
    ensures { (s : AllSettings) (begins : Start) (planned : Life) (most : ℕ) (held : FilesState) → IsNamed named.now s → IsOver s begins planned going.now disk.now held keeper.now → planned.cut ≡ None → going.now.taken ≤ most
        → IfOk result (EndsAs named.now.shown s most begins planned going.now disk.now held keeper.now) }
{
    lemma_have_answered(disk, keeper);
    let text = text_of(alloc, named, going)?;
    Ok(Came {
        text,
        end: LifeEnd::Ends(Ending::Over),
    })
}

/// Ends the replay with a run that has taken all turns.
fn end_spent(
    alloc: Global,
    named: &Named,
    going: &Going<'_>,
    disk: &MemDisk,
    keeper: &MemKeeper,
) -> Result<Came, Memory>
    requires { IsNamedOf named.now going.now.engine }
    ensures { (s : AllSettings) (begins : Start) (planned : Life) (held : FilesState) → IsNamed named.now s → IsInProgress s begins planned going.now disk.now held keeper.now
        → IfOk result (EndsAs named.now.shown s going.now.taken begins planned going.now disk.now held keeper.now) }
{
    lemma_have_answered(disk, keeper);
    let text = text_of(alloc, named, going)?;
    Ok(Came {
        text,
        end: LifeEnd::Ends(Ending::TurnsSpent),
    })
}

/// Ends the replay with a run whose loop failed.
fn end_failed(alloc: Global, going: &Going<'_>, disk: &MemDisk, keeper: &MemKeeper) -> Came
    ensures { (shown : Shown) (s : AllSettings) (begins : Start) (planned : Life) (most : ℕ) (held : FilesState) → LoopHasFailed s begins planned going.now disk.now held keeper.now → going.now.taken ≤ most
        → EndsAs shown s most begins planned going.now disk.now held keeper.now result }
{
    lemma_have_answered(disk, keeper);
    Came {
        text: Bytes::new(alloc),
        end: LifeEnd::Ends(Ending::LoopFailed),
    }
}

/// Goes on with a run in progress, to its end or its crash.
fn live(
    rt: &(impl Threads + Sync),
    alloc: Global,
    named: &Named,
    going: &mut Going<'_>,
    life: &Life,
    disk: &mut MemDisk,
    files: &mut MemFiles,
    keeper: &mut MemKeeper,
    most: u64,
) -> Result<Came, Memory>
    requires new { going.old.taken ≡ 0 }
    requires stands { (s : AllSettings) × (begins : Start) × IsNamed named.now s × IsInProgress s begins life.now going.old disk.old files.old keeper.old }
    ensures { (s : AllSettings) (begins : Start) → IsNamed named.now s → IsInProgress s begins life.now going.old disk.old files.old keeper.old
        → IfOk result (EndsAs named.now.shown s most begins life.now going.new disk.new files.new keeper.new) }
{
    let end = take_turns(rt, going, life, disk, files, keeper, most)?;
    match end {
        TurnsEnd::Over => match life.cut {
            Some(cut) => leave_over(alloc, named, going, disk, files, keeper, cut),
            None => end_over(alloc, named, going, disk, keeper),
        },
        TurnsEnd::Cut(cut) => leave_in_turn(
            rt, alloc, named, going, disk, files, keeper, cut, most,
        ),
        TurnsEnd::LoopFailed => Ok(end_failed(alloc, going, disk, keeper)),
        TurnsEnd::TurnsSpent => end_spent(alloc, named, going, disk, keeper),
    }
}

/// Returns what follows a run that ended this way and gave its settings back.
fn next_of(end: LifeEnd, settings: AllSettings, taken: u64) -> Next
    ensures { (shown : Shown) (s : AllSettings) (most : ℕ) (begins : Start) (planned : Life) (going : Going) (seen : Seen) (held : FilesState) (kept : KeeperState) (text : List ℕ) → EndsBy shown s most begins planned going seen held kept text end
        → ((now : History) → IsAt going.engine s now → settings ≡ s) → taken ≡ going.taken → ProducesText shown s most begins planned seen held kept text result }
{
    match end {
        LifeEnd::Ends(ending) => Next::Ends(ending),
        LifeEnd::Cut(cut) => Next::Life(Left {
            cut,
            settings,
            taken,
        }),
    }
}

/// Returns the outcome of a run in progress that gave its settings back.
fn outcome_of(
    came: Result<Came, Memory>,
    settings: AllSettings,
    taken: u64,
) -> Result<Outcome, Memory>
    ensures { (shown : Shown) (s : AllSettings) (most : ℕ) (begins : Start) (planned : Life) (going : Going) (seen : Seen) (held : FilesState) (kept : KeeperState) → IfOk came (EndsAs shown s most begins planned going seen held kept)
        → ((now : History) → IsAt going.engine s now → settings ≡ s) → taken ≡ going.taken → IfOk result (ProducesOutcome shown s most begins planned seen held kept) }
{
    match came {
        Ok(came) => Ok(Outcome {
            text: came.text,
            next: next_of(came.end, settings, taken),
        }),
        Err(Memory) => Err(Memory),
    }
}

/// Goes on with a run that has started, to its end or its crash.
fn run_started(
    rt: &(impl Threads + Sync),
    alloc: Global,
    named: &Named,
    mut going: Going<'_>,
    life: &Life,
    disk: &mut MemDisk,
    files: &mut MemFiles,
    keeper: &mut MemKeeper,
    most: u64,
) -> Result<Outcome, Memory>
    requires new { going.taken ≡ 0 }
    requires stands { (s : AllSettings) × (begins : Start) × IsNamed named.now s × IsInProgress s begins life.now going disk.old files.old keeper.old }
    ensures { (s : AllSettings) (begins : Start) → IsNamed named.now s → IsInProgress s begins life.now going.entry disk.old files.old keeper.old
        → IfOk result (ProducesOutcome named.now.shown s most begins life.now disk.new files.new keeper.new) }
{
    let came = live(
        rt, alloc, named, &mut going, life, disk, files, keeper, most,
    );
    let taken = going.taken;
    outcome_of(came, going.engine.finish(), taken)
}

/// Ends the replay with a run that couldn't start.
fn failed_start(alloc: Global, ending: Ending) -> Outcome
    ensures { result ≡ record { text = []; next = follow.Ends ending } }
{
    Outcome {
        text: Bytes::new(alloc),
        next: Next::Ends(ending),
    }
}

/// Makes a run whose engine has begun and whose loop was started.
fn run_begun(
    rt: &(impl Threads + Sync),
    alloc: Global,
    named: &Named,
    begun: Begun,
    secure: SecureLoop<'_, Script>,
    loop_begun: LoopBegun,
    life: &Life,
    disk: &mut MemDisk,
    files: &mut MemFiles,
    keeper: &mut MemKeeper,
    most: u64,
) -> Result<Outcome, Memory>
    requires begun { (s : AllSettings) × (begins : Start) × (h : History) × IsNamed named.now s × HasBegun s begins life.now begun h disk.old files.old keeper.old × KeyedLoopStarts s life.now (ends_of s) secure loop_begun }
    ensures { (s : AllSettings) (begins : Start) (h : History) → IsNamed named.now s → HasBegun s begins life.now begun h disk.old files.old keeper.old → KeyedLoopStarts s life.now (ends_of s) secure.entry loop_begun
        → IfOk result (ProducesOutcome named.now.shown s most begins life.now disk.new files.new keeper.new) }
{
    let Begun { engine, offsets } = begun;
    match loop_begun {
        LoopBegun::Ready => run_started(
            rt,
            alloc,
            named,
            Going {
                engine,
                offsets,
                secure,
                changed: 0,
                taken: 0,
            },
            life,
            disk,
            files,
            keeper,
            most,
        ),
        LoopBegun::Failed => {
            let _given_back = engine.finish();
            Ok(failed_start(alloc, Ending::LoopFailed))
        }
        LoopBegun::Memory => {
            let _given_back = engine.finish();
            Err(Memory)
        }
    }
}

/// Starts the keyed loop.
fn start_loop(secure: &mut SecureLoop<'_, Script>, ends: &Ends) -> LoopBegun
    requires new { secure.old.above ≡ [] }
    ensures { (s : AllSettings) (planned : Life) → IsFresh s planned secure.old → KeyedLoopStarts s planned ends.now secure.new result }
{
    secure.is_secure();
    let begun = secure.start(ends);
    secure.is_secure();
    lemma_script_plays(secure);
    if secure.is_out_of_memory() {
        LoopBegun::Memory
    } else {
        begun
    }
}

/// Makes a run whose engine has begun, with at most `most` turns.
fn run_with_loop(
    rt: &(impl Threads + Sync),
    alloc: Global,
    named: &Named,
    begun: Begun,
    keys: Keys,
    ends: &Ends,
    life: &Life,
    disk: &mut MemDisk,
    files: &mut MemFiles,
    keeper: &mut MemKeeper,
    most: u64,
) -> Result<Outcome, Memory>
    requires short { AreShort keys }
    requires begun { (s : AllSettings) × (begins : Start) × (h : History) × IsNamed named.now s × HasBegun s begins life.now begun h disk.old files.old keeper.old × (keys ≡ keys_of s) × (ends.now ≡ ends_of s) }
    ensures { (s : AllSettings) (begins : Start) (h : History) → IsNamed named.now s → HasBegun s begins life.now begun h disk.old files.old keeper.old → keys ≡ keys_of s → ends.now ≡ ends_of s
        → IfOk result (ProducesOutcome named.now.shown s most begins life.now disk.new files.new keeper.new) }
{
    let mut script = Script::new(alloc, life)?;
    let mut secure = SecureLoop::new(alloc, &mut script, keys);
    let loop_begun = start_loop(&mut secure, ends);
    run_begun(
        rt, alloc, named, begun, secure, loop_begun, life, disk, files, keeper, most,
    )
}

/// Sets up disk and files for a run, and makes it with at most `most` turns.
pub fn run_life(
    rt: &(impl Threads + Sync),
    alloc: Global,
    named: &Named,
    settings: AllSettings,
    life: &Life,
    disk: &mut MemDisk,
    files: &mut MemFiles,
    keeper: &mut MemKeeper,
    most: u64,
) -> Result<Outcome, Memory>
    requires sound { MeetsRequirements settings }
    requires named { IsNamed named.now settings }
    requires finds { (begins : Start) × DevicesAreReady begins disk.old files.old keeper.old }
    ensures { (begins : Start) → DevicesAreReady begins disk.old files.old keeper.old → IfOk result (ProducesOutcome named.now.shown settings most begins life.now disk.new files.new keeper.new) }
{
    lemma_keys_are_short();
    set_up(disk, files, life)?;
    let ends = ends(alloc, &settings)?;
    let keys = keys(alloc, &settings)?;
    let offsets = KeptOffsets::of(alloc, &settings)?;
    match begin(rt, alloc, settings, offsets, disk, keeper) {
        Ok(begun) => run_with_loop(
            rt, alloc, named, begun, keys, &ends, life, disk, files, keeper, most,
        ),
        Err(StartErr::DiskFailed) => Ok(failed_start(alloc, Ending::DiskFailed)),
        Err(StartErr::KeeperFailed) => Ok(failed_start(alloc, Ending::KeeperFailed)),
        Err(StartErr::Memory) => Err(Memory),
    }
}
