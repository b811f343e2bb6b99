//! Replays of recorded runs.

ghost use Rattle.std.specs.Prelude.{ℕ, Bool, Option, Result};
ghost use Rattle.fwd_base.specs.declared.memory.Memory.{Memory};
ghost use Rattle.fwd_settings.specs.Requirements.{MeetsRequirements};
ghost use Rattle.fwd_settings.specs.declared.settings_types.AllSettings.{AllSettings};
ghost use Rattle.fwd_script.specs.declared.schedule.Schedule.{Schedule};
ghost use Rattle.fwd_model.specs.CallLogs.{CallLogs};
ghost use Rattle.fwd_replay.specs.RecordedRun.{IsRecorded};
ghost use Rattle.fwd_replay.specs.declared.report.Reported.{Reported};
ghost use Rattle.fwd_theorem_recorded.specs.Replays.{RunReplays};

use fwd_theorem_disks::disks_answer_as_in_memory;

/// What was recorded of a run replays. A replay of the recorded schedule that doesn't use up its turns, and
/// for which memory suffices, makes the same calls on the loop and on the disk, with the same answers, and
/// links numbered as in the schedule; where the last tick stopped the run, a wait brings the stop. At each
/// step it has the same rows, tries, due times and counts. Each output is handed the same bytes. It prints
/// what the standard outputs took in the recorded run, and ends with the report that this run wrote.
pub fn recorded_runs_replay()
    ensures { (s : AllSettings) (ticks : Option ℕ) (turns : ℕ) (old new : CallLogs) (endless : Bool) (reported : Reported) (made : Result Schedule Memory)
        → MeetsRequirements s → (run : IsRecorded s ticks turns old new endless reported made) → RunReplays s ticks turns old new endless reported made run }
{
    disks_answer_as_in_memory();
}
