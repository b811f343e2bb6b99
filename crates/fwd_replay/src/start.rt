//! The start of a run.

ghost use Rattle.std.specs.Prelude.{◌≡◌, ◌++◌, [], map, ℕ, OnOk};
ghost use Rattle.fwd_disk_mem.specs.declared.entry.MemEntry.TheVariants as mem_entry;
ghost use Rattle.fwd_disk_mem.specs.DiskState.{Seen};
ghost use Rattle.fwd_engine_run.specs.EngineSteps.{IsAt};
ghost use Rattle.fwd_settings.specs.declared.settings_types.AllSettings.{AllSettings};
ghost use Rattle.fwd_settings.specs.Requirements.{MeetsRequirements};
ghost use Rattle.fwd_files_mem.specs.FilesState.{FilesState};
ghost use Rattle.fwd_files_mem.specs.declared.files.FilesNote.TheVariants as note;
ghost use Rattle.fwd_script.specs.declared.schedule.Life.{Life};
ghost use Rattle.fwd_script.specs.declared.schedule.Stored.{Stored};
ghost use Rattle.fwd_replay.specs.Runs.{Start, course_of};
ghost use Rattle.fwd_model.specs.Fact.{History};
ghost use Rattle.fwd_keeper_mem.specs.KeeperState.{KeeperState};
ghost use Rattle.fwd_engine_run.specs.OffsetRows.{Keeps};
ghost use Rattle.fwd_replay.specs.RunState.{Begins, DevicesAreReady, FilesRepresent, IsRecovered, IsSetUp};

use fwd_base::Memory;
use fwd_disk_mem::MemDisk;
use fwd_engine_run::{BeginErr, Engine, Got, KeptOffsets};
use fwd_keeper_mem::MemKeeper;
use fwd_script::{Calls, Life, MemFiles, StoredList};
use fwd_settings::AllSettings;
use std::alloc::Global;
use std::thread::Threads;

/// An engine that has begun, and the offsets that it keeps.
#[derive(Drop)]
pub struct Begun {
    pub engine: Engine,
    pub offsets: KeptOffsets,
}

/// Why a run doesn't begin.
#[derive(Clone, Copy)]
pub enum StartErr {
    /// A call on the disk failed while it was loaded.
    DiskFailed,
    /// An offset couldn't be got from the keeper.
    KeeperFailed,
    Memory,
}

/// Puts the files of the schedule on the disk.
fn store(disk: &mut MemDisk, stored: &StoredList) -> Result<(), Memory>
    ensures { OnOk result (disk.new ≡ record disk.old { calls = disk.old.calls ++ map (λ (file : Stored). mem_entry.Preset file.name file.bytes) stored.now }) }
{
    for file in stored.as_slice() {
        disk.preset(file.name.as_slice(), file.bytes.as_slice())?;
    }
    Ok(())
}

/// Makes these calls on the disk fail.
fn set_failing_disk_calls(disk: &mut MemDisk, numbers: &Calls) -> Result<(), Memory>
    ensures { OnOk result (disk.new ≡ record disk.old { calls = disk.old.calls ++ map (λ (number : ℕ). mem_entry.FailAt number) numbers.now }) }
{
    for number in numbers.as_slice() {
        disk.fail_at(*number)?;
    }
    Ok(())
}

/// Makes these calls on the files fail.
fn set_failing_file_calls(files: &mut MemFiles, numbers: &Calls) -> Result<(), Memory>
    ensures { OnOk result (files.new ≡ record files.old { notes = files.old.notes ++ map (λ (number : ℕ). note.FailAt number) numbers.now }) }
{
    for number in numbers.as_slice() {
        files.fail_at(*number)?;
    }
    Ok(())
}

/// Sets up disk and files for the run.
pub fn set_up(disk: &mut MemDisk, files: &mut MemFiles, life: &Life) -> Result<(), Memory>
    ensures { (start : Start) (kept : KeeperState) → DevicesAreReady start disk.old files.old kept → OnOk result (IsSetUp start life.now disk.new files.new kept) }
{
    store(disk, &life.store)?;
    set_failing_disk_calls(disk, &life.disk_fails)?;
    set_failing_file_calls(files, &life.file_fails)
}

/// Gets the offsets for an engine that has begun.
fn resume(
    mut engine: Engine,
    mut offsets: KeptOffsets,
    keeper: &mut MemKeeper,
) -> Result<Begun, StartErr>
    ensures { (settings : AllSettings) (begins : Start) (planned : Life) (h : History) (seen : Seen) (held : FilesState) → IsRecovered settings begins planned seen h → IsAt engine settings h → Keeps settings offsets [] → FilesRepresent held (course_of begins planned).files
        → keeper.old.given ≡ begins.offsets → keeper.old.notes ≡ [] → Begins settings begins planned seen held keeper.new result }
{
    match offsets.get(&mut engine, keeper) {
        Ok(Got::All) => {
            keeper.is_played();
            Ok(Begun { engine, offsets })
        }
        Ok(Got::Failed) => {
            keeper.is_played();
            let _given_back = engine.finish();
            Err(StartErr::KeeperFailed)
        }
        Err(Memory) => {
            let _given_back = engine.finish();
            Err(StartErr::Memory)
        }
    }
}

/// Loads the disk and gets the offsets.
pub fn begin(
    rt: &(impl Threads + Sync),
    alloc: Global,
    settings: AllSettings,
    offsets: KeptOffsets,
    disk: &mut MemDisk,
    keeper: &mut MemKeeper,
) -> Result<Begun, StartErr>
    requires sound { MeetsRequirements settings }
    requires offsets { Keeps settings offsets [] }
    ensures { (begins : Start) (planned : Life) (held : FilesState) → IsSetUp begins planned disk.old held keeper.old → Begins settings begins planned disk.new held keeper.new result }
{
    match Engine::begin(rt, alloc, settings, disk) {
        Ok(engine) => {
            disk.is_played();
            resume(engine, offsets, keeper)
        }
        Err(BeginErr::DiskFault) => {
            disk.is_played();
            Err(StartErr::DiskFailed)
        }
        Err(BeginErr::Memory) => Err(StartErr::Memory),
    }
}
