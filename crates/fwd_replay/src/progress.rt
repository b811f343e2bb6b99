ghost use Rattle.std.specs.Prelude.{◌≡◌, ◌++◌, [], if◌then◌else◌, Option, None, OnOk, IfOk};
ghost use Rattle.std.specs.List.{cons_option};
ghost use Rattle.fwd_disk_mem.specs.DiskState.{Seen};
ghost use Rattle.fwd_keeper_mem.specs.KeeperState.{KeeperState};
ghost use Rattle.fwd_settings.specs.declared.settings_types.AllSettings.{AllSettings};
ghost use Rattle.fwd_script_loop.specs.declared.queue.Coming.{Coming};
ghost use Rattle.fwd_script_loop.specs.ScriptRun.{change_in, changes_between, next_in, told_of};
ghost use Rattle.fwd_script_loop.specs.ScriptState.{ScriptState};
ghost use Rattle.fwd_script_loop.specs.Lines.{ends_life, line_ahead, place_in};
ghost use Rattle.fwd_replay.specs.FileChanges.{FilesAt};
ghost use Rattle.fwd_replay.specs.Runs.{Start};
ghost use Rattle.fwd_replay.specs.RunState.{FilesRepresent, IsReady, IsInProgress};

use fwd_base::Memory;
use fwd_engine_run::{Engine, KeptOffsets};
use fwd_script::{Cut, Life, MemFiles, Plan, Planned};
use fwd_script_loop::{Script, is_last};
use fwd_secure::SecureLoop;

/// A run in progress: its engine, the offsets that it keeps, and its keyed loop around the loop of the
/// schedule, how many of its first lines have had their changes made, and how many turns it has taken.
#[derive(Drop)]
pub struct Going<'a> {
    pub engine: Engine,
    pub offsets: KeptOffsets,
    pub secure: SecureLoop<'a, Script>,
    pub changed: usize,
    pub taken: u64,
}

/// Returns the position of the event that the next wait takes from the schedule with this mask of paused
/// inputs, if there is one.
fn place_ahead(secure: &SecureLoop<'_, Script>, paused: u64) -> Option<(usize, u64)>
    ensures { (script : ScriptState) × (told_of script ≡ secure.now.below.call_log) × (result ≡ place_in (next_in paused script)) }
{
    secure.inner.place_ahead(paused)
}

/// Makes the change of a line, if it is one.
fn make_change(files: &mut MemFiles, planned: &Planned) -> Result<(), Memory>
    ensures { OnOk result ((at : FilesAt) → FilesRepresent files.old at → FilesRepresent files.new (record at { changes = at.changes ++ cons_option (change_in planned.now) [] })) }
{
    match planned {
        Planned::Changes(change) => files.apply(change),
        Planned::Happens(_) => Ok(()),
        Planned::Ticks {
            first: _,
            step: _,
            count: _,
        } => Ok(()),
    }
}

/// Makes the changes of the lines in a range.
fn make_changes(
    files: &mut MemFiles,
    lines: &[Planned],
    from: usize,
    upto: usize,
) -> Result<(), Memory>
    ensures { OnOk result ((at : FilesAt) → FilesRepresent files.old at → FilesRepresent files.new (record at { changes = at.changes ++ changes_between lines.now from upto })) }
{
    let ahead = &lines[..upto.min(lines.len())];
    for planned in &ahead[from.min(ahead.len())..] {
        make_change(files, planned)?;
    }
    Ok(())
}

/// Returns the line of an event by its position, or the number of lines if there is none.
fn line_at(lines: &Plan, place: Option<(usize, u64)>) -> usize
    ensures { (next : Option Coming) → place ≡ place_in next → result ≡ line_ahead lines.now next }
{
    match place {
        Some(place) => place.0,
        None => lines.len(),
    }
}

/// Returns the crash that cuts the run in an event, if there is one.
fn cut_at(life: &Life, place: Option<(usize, u64)>) -> Option<Cut>
    ensures { (next : Option Coming) → place ≡ place_in next → result ≡ (if ends_life life.now.lines next then life.now.cut else None) }
{
    let Some(place) = place else {
        return None;
    };
    if is_last(&life.lines, place.0, place.1) {
        life.cut
    } else {
        None
    }
}

/// Makes the changes before the event that the next wait takes from the schedule. Returns the crash that cuts
/// the run in this event, if there is one. A wait that gives kept bytes takes no event.
pub fn prepare(
    going: &mut Going<'_>,
    life: &Life,
    files: &mut MemFiles,
) -> Result<Option<Cut>, Memory>
    ensures ready { (s : AllSettings) (start : Start) (seen : Seen) (kept : KeeperState) → IsInProgress s start life.now going.old seen files.old kept → IfOk result (λ cut. IsReady s start life.now going.new seen files.new kept cut) }
    ensures taken { going.new.taken ≡ going.old.taken }
{
    let paused = going.engine.paused();
    if going.secure.holds(paused) {
        return Ok(None);
    }
    let place = place_ahead(&going.secure, paused);
    let upto = line_at(&life.lines, place);
    make_changes(files, life.lines.as_slice(), going.changed, upto)?;
    going.changed = going.changed.max(upto);
    Ok(cut_at(life, place))
}
