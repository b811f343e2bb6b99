//! The run of a schedule.

ghost use Rattle.std.specs.Prelude.{◌≢◌, ℕ, List};
ghost use Rattle.fwd_settings.specs.declared.settings_types.AllSettings.{AllSettings};
ghost use Rattle.fwd_script.specs.declared.schedule.Life.{Life};
ghost use Rattle.fwd_model.specs.Trace.{TraceEntry};
ghost use Rattle.fwd_model.specs.Run.{RunResult, TurnsSpent};
ghost use Rattle.fwd_replay.specs.Runs.{IsLife, Start};
ghost use Rattle.fwd_theorem_recorded.specs.SameRun.{IsSameRun};

/// A schedule determines its run, with each call and each fact: two runs of it that don't use up their turns
/// have the same trace, make the same calls on the devices, and have the same result.
pub fn schedules_determine_runs()
    ensures { (s : AllSettings) (turns turns2 : ℕ) (start : Start) (planned : Life) (trace trace2 : List TraceEntry) (comes comes2 : RunResult)
        → (one : IsLife s turns start planned trace comes) → (other : IsLife s turns2 start planned trace2 comes2)
        → comes.end ≢ TurnsSpent → comes2.end ≢ TurnsSpent → IsSameRun trace one.below comes trace2 other.below comes2 }
{}
