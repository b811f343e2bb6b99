//! A run after the end of another run's process, on a machine that ran on.

ghost use Rattle.std.specs.Prelude.{◌≡◌, ℕ, true, List, [], Option, Some};
ghost use Rattle.fwd_outside.specs.Program.{Return, Execution};
ghost use Rattle.fwd_outside.specs.AtCrashPoints.{AtCrashPoints, Ends};
ghost use Rattle.fwd_outside.specs.DiskStates.{Files};
ghost use Rattle.fwd_outside.specs.declared.ends.Ends.{Ends as InputEnds};
ghost use Rattle.fwd_settings.specs.Requirements.{MeetsRequirements};
ghost use Rattle.fwd_settings.specs.declared.settings_types.AllSettings.{AllSettings};
ghost use Rattle.fwd_model.specs.Fact.{History};
ghost use Rattle.fwd_model.specs.Trace.{Action, TraceEntry};
ghost use Rattle.fwd_model.specs.RecoveryActions.{recovers};
ghost use Rattle.fwd_model.specs.Run.{RunResult, after_recovery};
ghost use Rattle.fwd_theorem_crash.specs.CrashPoint.{CrashPoint, crash_point, LeadsTo};
ghost use Rattle.fwd_theorem_crash.specs.Safety.{PendingAreSafe};
ghost use Rattle.fwd_theorem_survival.specs.Survival.{KeepsAccepted};
ghost use Rattle.fwd_theorem_restart.specs.Restart.{IsLeftByKill};

use fwd_theorem_crash::{crash_points_are_safe, safe_chunks_are_recovered};
use fwd_theorem_delivery::replies_are_due;
use fwd_theorem_trace::pending_iff_unresolved;

/// Once a run has loaded a disk as a killed process left it, each crash point is safe, however far the run
/// has come: between two calls and inside a call on the disk, whatever a crash of the machine leaves has the
/// file of each pending chunk, whole. Files of that disk may have had changes that weren't fsynced: loading
/// fsyncs each chunk's file before it reads it. The run's appends are fsynced.
pub fn restarted_runs_are_safe()
    ensures { (s : AllSettings) (ends : InputEnds) (ticks : Option ℕ) (turns : ℕ) (first : Files) (loading entries : List TraceEntry) (found : History) (m : CrashPoint) (left : Action RunResult)
        → MeetsRequirements s → s.service.full ≡ true → IsLeftByKill first
        → Execution (recovers s) loading (Return (Some found)) → Ends LeadsTo (crash_point [] first) loading m
        → Execution (after_recovery s ends ticks turns (Some found)) entries left → AtCrashPoints LeadsTo (PendingAreSafe s) m entries }
{
    crash_points_are_safe();
}

/// So what such a run accepts survives the next crash. At each crash point since it has loaded: each batch
/// that it accepted from an input with chunks in files survives a crash of the machine, and the end of the
/// process alone; and each message that it answered is one of these, has no events, or has no output.
pub fn restarted_runs_keep_accepted_batches()
    ensures { (s : AllSettings) (ends : InputEnds) (ticks : Option ℕ) (turns : ℕ) (first : Files) (loading entries : List TraceEntry) (found : History) (m : CrashPoint) (left : Action RunResult)
        → MeetsRequirements s → s.service.full ≡ true → IsLeftByKill first
        → Execution (recovers s) loading (Return (Some found)) → Ends LeadsTo (crash_point [] first) loading m
        → Execution (after_recovery s ends ticks turns (Some found)) entries left → AtCrashPoints LeadsTo (KeepsAccepted s) m entries }
{
    restarted_runs_are_safe();
    safe_chunks_are_recovered();
    replies_are_due();
    pending_iff_unresolved();
}
