//! The turns of a run.

ghost use Rattle.std.specs.Prelude.{◌≡◌, ◌<◌, ◌≤◌, ◌+◌, ◌-◌, ◌^◌, false, [], None, IfOk, OnOk};
ghost use Rattle.fwd_keeper_mem.specs.KeeperState.{KeeperState};
ghost use Rattle.fwd_settings.specs.declared.settings_types.AllSettings.{AllSettings};
ghost use Rattle.fwd_disk_mem.specs.DiskState.{Seen};
ghost use Rattle.fwd_files_mem.specs.FilesState.{FilesState};
ghost use Rattle.fwd_files_mem.specs.FilesAnswers.{IsPlayed};
ghost use Rattle.fwd_files_mem.specs.MemFiles.{entries_from};
ghost use Rattle.fwd_script.specs.declared.schedule.Life.{Life};
ghost use Rattle.fwd_model.specs.Fact.{History};
ghost use Rattle.fwd_engine_run.specs.EngineSteps.{IsAt, as_turn};
ghost use Rattle.fwd_secure.specs.Secure.{IsSecure};
ghost use Rattle.fwd_engine_run.specs.Turn.{Turn};
ghost use Rattle.fwd_replay.specs.Runs.{Start};
ghost use Rattle.fwd_replay.specs.RunState.{Ended, HasPut, HaveAnswered, IsReady, IsInProgress, IsStepped, ScriptPlays, Turned, TurnedIn, is_out_of_memory};

use crate::progress::{Going, prepare};
use fwd_base::Memory;
use fwd_disk_mem::MemDisk;
use fwd_engine_run::{EngineStop, Turn};
use fwd_keeper_mem::MemKeeper;
use fwd_script::{Cut, Life, MemFiles};
use fwd_script_loop::Script;
use fwd_secure::SecureLoop;
use std::thread::Threads;

/// How the turns of a run ended.
#[derive(Clone, Copy)]
pub enum TurnsEnd {
    /// The run is over.
    Over,
    /// This crash is to cut it in its next turn, whose changes are made.
    Cut(Cut),
    /// The loop failed.
    LoopFailed,
    /// All turns are taken.
    TurnsSpent,
}

/// States that the loop of the schedule answered as the schedule says.
pub fn lemma_script_plays(secure: &SecureLoop<'_, Script>)
    ensures { ScriptPlays secure.now.below.call_log }
{
    secure.inner.is_played();
}

/// Returns the result of a turn, unless memory was out in a call on the keyed loop.
fn checked(
    secure: &SecureLoop<'_, Script>,
    turn: Result<Turn, EngineStop>,
) -> Result<Turn, EngineStop>
    ensures result { is_out_of_memory result ≡ false → result ≡ turn }
    ensures memory { is_out_of_memory result ≡ false → secure.now.out_of_memory ≡ false }
{
    if secure.is_out_of_memory() {
        Err(EngineStop::Memory)
    } else {
        turn
    }
}

/// Takes a turn and counts it, whatever its result.
pub fn take(
    rt: &(impl Threads + Sync),
    going: &mut Going<'_>,
    disk: &mut MemDisk,
    files: &mut MemFiles,
    keeper: &MemKeeper,
) -> Result<Turn, EngineStop>
    requires { going.old.taken < 2 ^ 64 - 1 }
    ensures turned { (s : AllSettings) (start : Start) (planned : Life) → IsReady s start planned going.old disk.old files.old keeper.now None → Turned s start planned going.new disk.new files.new keeper.now result }
    ensures turns { (s : AllSettings) (h : History) → IsAt going.old.engine s h → TurnedIn s h going.old disk.old files.old going.new disk.new files.new result }
    ensures played { HaveAnswered disk.new keeper.now }
    ensures files { IsPlayed files.new.given [] (entries_from files.new.given files.new.notes) }
    ensures taken { going.new.taken ≡ going.old.taken + 1 }
    ensures offsets { going.new.offsets ≡ going.old.offsets }
{
    going.taken += 1;
    going.secure.is_secure();
    let turn = going.engine.turn(rt, disk, files, &mut going.secure);
    going.secure.is_secure();
    lemma_script_plays(&going.secure);
    disk.is_played();
    files.is_played();
    keeper.is_played();
    checked(&going.secure, turn)
}

/// Returns whether the run is over after a turn.
fn is_over(turn: Turn) -> bool
    ensures { turn ≡ as_turn result }
{
    match turn {
        Turn::More => false,
        Turn::Over => true,
    }
}

/// Returns whether memory ran out in a turn.
pub fn is_out_of_memory(turn: Result<Turn, EngineStop>) -> bool
    ensures { result ≡ is_out_of_memory turn }
{
    match turn {
        Ok(_) | Err(EngineStop::LoopFault) => false,
        Err(EngineStop::Memory) => true,
    }
}

/// Puts the settled offsets after a turn.
fn put_offsets(going: &mut Going<'_>, keeper: &mut MemKeeper) -> Result<(), Memory>
    ensures put { (s : AllSettings) (start : Start) (planned : Life) (seen : Seen) (held : FilesState) (which : Turn) → IsStepped s start planned going.old seen held keeper.old which → OnOk result (HasPut s start planned going.new seen held keeper.new which) }
    ensures taken { going.new.taken ≡ going.old.taken }
{
    going.offsets.put(&going.engine, keeper)
}

/// Takes at most `most` turns, until the run is over or is to be cut.
pub fn take_turns(
    rt: &(impl Threads + Sync),
    going: &mut Going<'_>,
    life: &Life,
    disk: &mut MemDisk,
    files: &mut MemFiles,
    keeper: &mut MemKeeper,
    most: u64,
) -> Result<TurnsEnd, Memory>
    requires { going.old.taken ≡ 0 }
    ensures ended { (s : AllSettings) (start : Start) → IsInProgress s start life.now going.old disk.old files.old keeper.old → IfOk result (Ended s start life.now most going.new disk.new files.new keeper.new) }
    ensures taken { going.new.taken ≤ most }
{
    for _ in 0..most {
        if let Some(cut) = prepare(going, life, files)? {
            return Ok(TurnsEnd::Cut(cut));
        }
        match take(rt, going, disk, files, keeper) {
            Ok(turn) => {
                put_offsets(going, keeper)?;
                if is_over(turn) {
                    return Ok(TurnsEnd::Over);
                }
            }
            Err(EngineStop::LoopFault) => return Ok(TurnsEnd::LoopFailed),
            Err(EngineStop::Memory) => return Err(Memory),
        }
    }
    Ok(TurnsEnd::TurnsSpent)
}
