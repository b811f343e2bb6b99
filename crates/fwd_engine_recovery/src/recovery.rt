ghost use Rattle.std.specs.Prelude.{◌≡◌, ℕ, ◌≤◌, List, [], All, IsErrOf, IfOk, Some};
ghost use Rattle.fwd_base.specs.Limits.{numbers_end};
ghost use Rattle.fwd_outside.specs.Cause.{HasCause};
ghost use Rattle.fwd_backlog.specs.declared.error.LoadErr.TheVariants.{DiskFailed};
ghost use Rattle.fwd_backlog.specs.declared.file_read.FileRead.{FileRead};
ghost use Rattle.fwd_backlog.specs.Recovered.{HaveListableNames};
ghost use Rattle.fwd_backlog.specs.Groups.{HasShortMeta};
ghost use Rattle.fwd_backlog.specs.LoadProgram.{IsBacklog};
ghost use Rattle.fwd_model.specs.CallLogs.{CallLogs};
ghost use Rattle.fwd_engine_state.specs.RefinesAction.{with_disk};
ghost use Rattle.fwd_engine_state.specs.PartsRepresent.{PartsRepresentIdle};
ghost use Rattle.fwd_engine_recovery.specs.LoadedAs.{LoadOutcome};
ghost use Rattle.fwd_engine_recovery.specs.Adoption.{recovered_history};

use crate::adoption::adopt_all;
use crate::empty_parts::begin;
use fwd_backlog::{Backlog, LoadErr, later_names_are_new, load_all, recovered_paths_differ};
use fwd_base::Memory;
use fwd_engine_settings::RunSettings;
use fwd_engine_state::Parts;
use fwd_outside::Disk;
use std::alloc::Global;
use std::thread::Threads;

/// Returns the parts of an engine after a backlog was loaded.
fn taken(alloc: Global, run: &RunSettings, backlog: &Backlog) -> Result<Parts, Memory>
    requires read { (files : List FileRead) × IsBacklog files backlog.now }
    requires root { (root : List ℕ) × (run.now.service.path ≡ Some root) }
    requires next { backlog.now.next ≤ numbers_end }
    requires named { HaveListableNames backlog.now.found }
    requires meta { All HasShortMeta backlog.now.found }
    ensures { IfOk result (λ parts. (files : List FileRead) → IsBacklog files backlog.now → PartsRepresentIdle run.now parts (recovered_history 1 files [])) }
{
    recovered_paths_differ();
    later_names_are_new();
    let mut parts = begin(alloc, run, backlog.next)?;
    adopt_all(run, alloc, &mut parts, backlog.found.as_slice())?;
    Ok(parts)
}

/// Returns the parts of an engine whose chunk files are below `root`.
fn load_root<D: Disk>(
    rt: &(impl Threads + Sync),
    alloc: Global,
    run: &RunSettings,
    disk: &mut D,
    root: &[u8],
) -> Result<Parts, LoadErr>
    requires root { run.now.service.path ≡ Some root.now }
    ensures acts { (others : CallLogs) → LoadOutcome run.now (with_disk (D.call_log disk.old) others) (with_disk (D.call_log disk.new) others) result }
    ensures cause { HasCause (D.faults disk.old) (D.faults disk.new) (IsErrOf result DiskFailed) }
{
    let backlog = load_all(rt, alloc, disk, root)?;
    Ok(taken(alloc, run, &backlog)?)
}

/// Returns the parts of an engine at the start of a run. If the settings give a storage path, the chunk
/// files below it are loaded, numbered from 1 on. A chunk with events goes into the store, and is pending
/// for the outputs that match its tag and whose outcome isn't recorded in its file. Returns `DiskFailed`
/// only if a disk failure was counted, and `Memory` only if no disk call failed.
pub fn load<D: Disk>(
    rt: &(impl Threads + Sync),
    alloc: Global,
    run: &RunSettings,
    disk: &mut D,
) -> Result<Parts, LoadErr>
    ensures acts { (others : CallLogs) → LoadOutcome run.now (with_disk (D.call_log disk.old) others) (with_disk (D.call_log disk.new) others) result }
    ensures cause { HasCause (D.faults disk.old) (D.faults disk.new) (IsErrOf result DiskFailed) }
{
    match run.root() {
        Some(root) => load_root(rt, alloc, run, disk, root.as_slice()),
        None => Ok(begin(alloc, run, 1)?),
    }
}
