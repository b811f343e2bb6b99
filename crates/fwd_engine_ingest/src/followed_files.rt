ghost use Rattle.std.specs.Prelude.{◌≡◌, ◌≤◌, ◌<◌, ℕ, List, Some, length, map, slice_get};
ghost use Rattle.fwd_settings.specs.declared.settings_types.InputSet.{InputSet};
ghost use Rattle.fwd_model.specs.Settings.{paths_at};
ghost use Rattle.fwd_model.specs.Limits.{is_paused};
ghost use Rattle.fwd_model.specs.InputActions.{polls_file, polls_files, polls_input, polls_all};
ghost use Rattle.fwd_engine_state.specs.StateRepresents.{StateAnswers};
ghost use Rattle.fwd_engine_state.specs.RefinesAction.{with_files, RefinesAction};

use crate::batches::accept_lines;
use fwd_base::{InputId, Memory, is_set};
use fwd_engine_chunks::RunSettings;
use fwd_engine_state::{Parts, State};
use fwd_in_tail::TailErr;
use fwd_outside::{Disk, Files};
use std::thread::Threads;

/// Polls the file of an input's path with this index, and accepts the lines that end in what was read as
/// one batch.
fn poll_file<D: Disk, F: Files>(
    rt: &(impl Threads + Sync),
    run: &RunSettings,
    parts: &mut Parts,
    disk: &mut D,
    files: &mut F,
    input: InputId,
    index: usize,
) -> Result<(), Memory>
    ensures acts { (path : List ℕ) → slice_get (paths_at run.now input.0) index ≡ Some path → RefinesAction run.now (with_files (D.call_log disk.old) (F.call_log files.old)) (with_files (D.call_log disk.new) (F.call_log files.new)) parts.old parts.new (λ h. polls_file run.now input.0 index path h) result }
    ensures later { D.faults disk.old ≤ D.faults disk.new }
    ensures files_later { F.faults files.old ≤ F.faults files.new }
{
    match parts.followed_files.poll(files, input, index) {
        Ok(lines) => accept_lines(rt, run, parts, disk, input, lines),
        Err(TailErr::FileFault) => {
            parts.state.count_fault();
            Ok(())
        }
        Err(TailErr::Memory) => Err(Memory),
    }
}

/// Polls the files of an input, in the order of its paths.
fn poll_files<D: Disk, F: Files>(
    rt: &(impl Threads + Sync),
    run: &RunSettings,
    parts: &mut Parts,
    disk: &mut D,
    files: &mut F,
    input: InputId,
) -> Result<(), Memory>
    ensures acts { RefinesAction run.now (with_files (D.call_log disk.old) (F.call_log files.old)) (with_files (D.call_log disk.new) (F.call_log files.new)) parts.old parts.new (λ h. polls_files run.now input.0 0 (paths_at run.now input.0) h) result }
    ensures later { D.faults disk.old ≤ D.faults disk.new }
    ensures files_later { F.faults files.old ≤ F.faults files.new }
{
    for index in 0..parts.followed_files.paths(input) {
        poll_file(rt, run, parts, disk, files, input, index)?;
    }
    Ok(())
}

/// Whether an input is paused.
fn is_paused(run: &RunSettings, state: &State, input: InputId) -> bool
    requires there { input.0 < length run.now.inputs }
    ensures { StateAnswers state.now (λ s h. s ≡ run.now → result ≡ is_paused s h input.0) }
{
    is_set(state.paused(run.memory_limits()), input.0)
}

/// Polls the files of an input, unless it is paused.
fn poll_input<D: Disk, F: Files>(
    rt: &(impl Threads + Sync),
    run: &RunSettings,
    parts: &mut Parts,
    disk: &mut D,
    files: &mut F,
    input: InputId,
) -> Result<(), Memory>
    requires there { input.0 < length run.now.inputs }
    ensures acts { RefinesAction run.now (with_files (D.call_log disk.old) (F.call_log files.old)) (with_files (D.call_log disk.new) (F.call_log files.new)) parts.old parts.new (λ h. polls_input run.now input.0 h) result }
    ensures later { D.faults disk.old ≤ D.faults disk.new }
    ensures files_later { F.faults files.old ≤ F.faults files.new }
{
    if parts.followed_files.paths(input) == 0 {
        return Ok(());
    }
    if is_paused(run, &parts.state, input) {
        return Ok(());
    }
    poll_files(rt, run, parts, disk, files, input)
}

/// Polls the files of each input that isn't paused when its turn comes. The lines that end in what was read
/// make one batch for each file.
pub fn poll_inputs<D: Disk, F: Files>(
    rt: &(impl Threads + Sync),
    run: &RunSettings,
    parts: &mut Parts,
    disk: &mut D,
    files: &mut F,
) -> Result<(), Memory>
    ensures acts { RefinesAction run.now (with_files (D.call_log disk.old) (F.call_log files.old)) (with_files (D.call_log disk.new) (F.call_log files.new)) parts.old parts.new (λ h. polls_all run.now h) result }
    ensures later { D.faults disk.old ≤ D.faults disk.new }
    ensures files_later { F.faults files.old ≤ F.faults files.new }
{
    run.lemma_settings_are_sound();
    for input in 0..run.inputs() {
        poll_input(rt, run, parts, disk, files, InputId(input as u32))?;
    }
    Ok(())
}
