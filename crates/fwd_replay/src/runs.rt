//! Replays the runs of a schedule, one after another.

ghost use Rattle.std.specs.Prelude.{◌≡◌, ◌++◌, [], IfOk, OnOk, OnErr};
ghost use Rattle.fwd_settings.specs.Requirements.{MeetsRequirements};
ghost use Rattle.fwd_replay.specs.Runs.{IsReplayed, Start, first};
ghost use Rattle.fwd_replay.specs.Names.{IsNamed};
ghost use Rattle.fwd_replay.specs.RunState.{DevicesAreReady, AppendsRun, IsFirst, PassesOn, after_cut};
ghost use Rattle.fwd_replay.specs.Text.{crash_line};
ghost use Rattle.fwd_replay.specs.declared.report.Ending.TheVariants as ends;

use crate::life::{Next, run_life};
use crate::names::Named;
use crate::report::{Ending, Reported, Shown};
use fwd_base::{Bytes, Memory};
use fwd_disk_mem::MemDisk;
use fwd_keeper_mem::MemKeeper;
use fwd_script::{Cut, Life, Lives, MemFiles};
use fwd_settings::AllSettings;
use std::alloc::Global;
use std::thread::Threads;

/// Returns the line between the texts of two runs.
fn crash_line(alloc: Global, cut: Cut) -> Result<Bytes, Memory>
    ensures { IfOk result (λ line. line ≡ crash_line cut) }
{
    let mut line = Bytes::from_slice(alloc, b"crash ")?;
    line.push_decimal(cut.calls)?;
    line.extend_from_slice(b" ")?;
    line.push_decimal(cut.pick)?;
    line.extend_from_slice(b"\n")?;
    Ok(line)
}

/// Appends the text of a run, after the line of the crash before it if there was one and the text isn't
/// empty. On `Err` nothing has changed.
fn add(alloc: Global, text: &mut Bytes, cut: Option<Cut>, more: &Bytes) -> Result<(), Memory>
    ensures ok { OnOk result (text.new ≡ text.old ++ after_cut cut more.now) }
    ensures err { OnErr result (text.new ≡ text.old) }
{
    if more.is_empty() {
        return Ok(());
    }
    match cut {
        Some(cut) => {
            let mut both = crash_line(alloc, cut)?;
            both.extend_from_slice(more.as_slice())?;
            text.extend_from_slice(both.as_slice())
        }
        None => text.extend_from_slice(more.as_slice()),
    }
}

/// A replay between two runs: the disk, the files and the keeper, the crash that cut the run before, and how
/// many turns are left.
#[derive(Drop)]
pub struct Between {
    pub disk: MemDisk,
    pub files: MemFiles,
    pub keeper: MemKeeper,
    pub cut: Option<Cut>,
    pub left: u64,
}

/// What follows a run of a replay.
#[derive(Drop)]
pub enum After {
    /// Nothing: the replay ends this way.
    Ends(Ending),
    /// Another run, with these settings.
    Life(AllSettings),
}

/// Returns the state before the first run, with an empty disk, no files and no offsets.
fn initial_state(alloc: Global, most: u64) -> Between
    ensures first { IsFirst result }
    ensures left { result.left ≡ most }
{
    let disk = MemDisk::new(alloc);
    let files = MemFiles::new(alloc);
    let keeper = MemKeeper::new(alloc);
    Between {
        disk,
        files,
        keeper,
        cut: None,
        left: most,
    }
}

/// Hands what a run leaves to the next one.
fn pass_on(between: &mut Between, next: Next) -> After
    ensures { PassesOn next between.old between.new result }
{
    match next {
        Next::Ends(ending) => After::Ends(ending),
        Next::Life(left) => {
            between.cut = Some(left.cut);
            between.left = between.left.saturating_sub(left.taken);
            After::Life(left.settings)
        }
    }
}

/// Makes the next run and appends its text. On `Err` nothing is appended.
fn next_life(
    rt: &(impl Threads + Sync),
    alloc: Global,
    named: &Named,
    settings: AllSettings,
    life: &Life,
    between: &mut Between,
    text: &mut Bytes,
) -> Result<After, Memory>
    requires sound { MeetsRequirements settings }
    requires named { IsNamed named.now settings }
    requires finds { (begins : Start) × DevicesAreReady begins between.old.disk between.old.files between.old.keeper }
    ensures ok { (begins : Start) → DevicesAreReady begins between.old.disk between.old.files between.old.keeper → IfOk result (AppendsRun named.now.shown settings begins life.now between.old between.new text.old text.new) }
    ensures err { OnErr result (text.new ≡ text.old) }
{
    let outcome = run_life(
        rt,
        alloc,
        named,
        settings,
        life,
        &mut between.disk,
        &mut between.files,
        &mut between.keeper,
        between.left,
    )?;
    add(alloc, text, between.cut, &outcome.text)?;
    Ok(pass_on(between, outcome.next))
}

/// Makes each run in turn. On `Err` the text has the runs before the one in which memory ran out.
fn each_life(
    rt: &(impl Threads + Sync),
    alloc: Global,
    named: &Named,
    settings: AllSettings,
    lives: &Lives,
    between: &mut Between,
    text: &mut Bytes,
) -> Result<Ending, Memory>
    requires sound { MeetsRequirements settings }
    requires named { IsNamed named.now settings }
    requires first { IsFirst between.old }
    requires empty { text.old ≡ [] }
    ensures ok { IfOk result (λ ending. IsReplayed named.now.shown settings between.old.left first lives.now (record { text = text.new; ending = ending })) }
    ensures err { OnErr result (IsReplayed named.now.shown settings between.old.left first lives.now (record { text = text.new; ending = ends.Memory })) }
{
    let mut settings = settings;
    for life in lives.as_slice() {
        let after = next_life(rt, alloc, named, settings, life, between, text)?;
        match after {
            After::Ends(ending) => return Ok(ending),
            After::Life(kept) => settings = kept,
        }
    }
    Ok(Ending::Over)
}

/// Makes all runs from the first one, with at most `most` turns in all.
fn all_lives(
    rt: &(impl Threads + Sync),
    alloc: Global,
    settings: AllSettings,
    lives: &Lives,
    most: u64,
    shown: Shown,
    text: &mut Bytes,
) -> Result<Ending, Memory>
    requires sound { MeetsRequirements settings }
    requires empty { text.old ≡ [] }
    ensures ok { IfOk result (λ ending. IsReplayed shown settings most first lives.now (record { text = text.new; ending = ending })) }
    ensures err { OnErr result (IsReplayed shown settings most first lives.now (record { text = text.new; ending = ends.Memory })) }
{
    if lives.as_slice().is_empty() {
        return Ok(Ending::Over);
    }
    let named = Named::of(alloc, &settings, shown)?;
    let mut between = initial_state(alloc, most);
    each_life(rt, alloc, &named, settings, lives, &mut between, text)
}

/// Replays the runs of a schedule with the settings of a configuration: the engine makes each run over a
/// disk and files in memory, for at most the given number of turns in all. The text has, in order, as
/// much of each run as is shown, with the line of the crash between two runs.
pub fn replay(
    rt: &(impl Threads + Sync),
    alloc: Global,
    settings: AllSettings,
    lives: &Lives,
    most: u64,
    shown: Shown,
) -> Reported
    requires { MeetsRequirements settings }
    ensures { IsReplayed shown settings most first lives.now result }
{
    let mut text = Bytes::new(alloc);
    let ending = match all_lives(rt, alloc, settings, lives, most, shown, &mut text) {
        Ok(ending) => ending,
        Err(Memory) => Ending::Memory,
    };
    Reported { text, ending }
}
