//! What a disk answers after the recovery of nothing.

ghost use Rattle.std.specs.Prelude.{◌≡◌, ℕ, ◌-◌, ◌^◌, ◌≤◌, List, [], ◌++◌, length, Option, Some};
ghost use Rattle.fwd_outside.specs.Program.{Return, Execution};
ghost use Rattle.fwd_outside.specs.AtCrashPoints.{Ends};
ghost use Rattle.fwd_outside.specs.DiskStates.{Files};
ghost use Rattle.fwd_outside.specs.declared.ends.Ends.{Ends as InputEnds};
ghost use Rattle.fwd_settings.specs.Requirements.{MeetsRequirements};
ghost use Rattle.fwd_settings.specs.declared.settings_types.AllSettings.{AllSettings};
ghost use Rattle.fwd_model.specs.Trace.{Action, TraceEntry, disk_part};
ghost use Rattle.fwd_model.specs.RecoveryActions.{recovers};
ghost use Rattle.fwd_model.specs.Run.{RunResult, after_recovery};
ghost use Rattle.fwd_theorem_crash.specs.CrashPoint.{CrashPoint, crash_point, LeadsTo};
ghost use Rattle.fwd_theorem_content.specs.KnownNames.{NamesAreKnown};
ghost use Rattle.fwd_theorem_disks.specs.InMemory.{number_after_recovery, AnswersAsInMemory};

/// After recovery found nothing, the disk answers the calls of the run as an empty disk in memory does of
/// which the same calls fail, whether or not appends are fsynced. When the run began, each name had a file,
/// or had none that a crash could bring back. The calls on the disk are fewer than 2^64 - 1, so each has its
/// own number.
pub fn disks_answer_as_in_memory()
    ensures { (s : AllSettings) (ends : InputEnds) (ticks : Option ℕ) (turns : ℕ) (start : Files) (recovery trace : List TraceEntry) (left : Action RunResult) (last : CrashPoint)
        → MeetsRequirements s → NamesAreKnown start
        → Execution (recovers s) recovery (Return (Some [])) → Execution (after_recovery s ends ticks turns (Some [])) trace left
        → Ends LeadsTo (crash_point [] start) (recovery ++ trace) last → length (disk_part trace) ≤ 2 ^ 64 - 2
        → AnswersAsInMemory (number_after_recovery s.service.path) s.service.path trace }
{}
