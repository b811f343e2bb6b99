//! Theorems on replays and on runs over devices.

ghost use Rattle.std.specs.Prelude.{ℕ, List, Option};
ghost use Rattle.fwd_settings.specs.declared.settings_types.AllSettings.{AllSettings};
ghost use Rattle.fwd_script.specs.declared.schedule.Life.{Life};
ghost use Rattle.fwd_model.specs.Trace.{TraceEntry};
ghost use Rattle.fwd_model.specs.CallLogs.{CallLogs};
ghost use Rattle.fwd_model.specs.Run.{RunResult};
ghost use Rattle.fwd_theorem_delivery.specs.Guarantee.{KeepsGuarantee};
ghost use Rattle.fwd_replay.specs.LiveRun.{RunsToEnd};
ghost use Rattle.fwd_replay.specs.Runs.{CutRun, IsCut, IsLife, Start};
ghost use Rattle.fwd_replay.specs.declared.report.Reported.{Reported};

use fwd_theorem_delivery::runs_keep_the_guarantee;

/// Each run of a replay keeps the delivery guarantee, up to its end or to the turn in which it is cut. So
/// does a run over devices, with call logs or without.
pub fn all_runs_keep_the_guarantee()
    ensures lives { (s : AllSettings) (turns : ℕ) (start : Start) (planned : Life) (trace : List TraceEntry) (comes : RunResult)
        → IsLife s turns start planned trace comes → KeepsGuarantee s trace }
    ensures cut { (s : AllSettings) (turns : ℕ) (start : Start) (planned : Life) (c : CutRun)
        → IsCut s turns start planned c → KeepsGuarantee s c.before }
    ensures live { (s : AllSettings) (ticks : Option ℕ) (turns : ℕ) (old new : CallLogs) (reported : Reported) (is : RunsToEnd s ticks turns old new reported)
        → KeepsGuarantee s is.trace }
{
    runs_keep_the_guarantee();
}
