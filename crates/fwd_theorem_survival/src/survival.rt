//! Accepted batches and acknowledged messages, after a crash.

ghost use Rattle.std.specs.Prelude.{◌≡◌, ℕ, true, List, [], Option};
ghost use Rattle.fwd_outside.specs.Program.{Execution};
ghost use Rattle.fwd_outside.specs.AtCrashPoints.{AtCrashPoints};
ghost use Rattle.fwd_outside.specs.declared.ends.Ends.{Ends as InputEnds};
ghost use Rattle.fwd_outside.specs.DiskStates.{Files};
ghost use Rattle.fwd_backlog.specs.Recovered.{AreDurable};
ghost use Rattle.fwd_settings.specs.declared.settings_types.AllSettings.{AllSettings};
ghost use Rattle.fwd_settings.specs.Requirements.{MeetsRequirements};
ghost use Rattle.fwd_model.specs.Trace.{Action, TraceEntry};
ghost use Rattle.fwd_model.specs.Run.{RunResult, life};
ghost use Rattle.fwd_theorem_crash.specs.CrashPoint.{crash_point, LeadsTo};
ghost use Rattle.fwd_theorem_survival.specs.Survival.{KeepsAccepted};

use fwd_theorem_crash::{crash_points_are_safe, safe_chunks_are_recovered};
use fwd_theorem_delivery::replies_are_due;
use fwd_theorem_trace::pending_iff_unresolved;

/// At each crash point of a run, however far it has come and whatever the devices answered: each batch that
/// was accepted from an input that keeps its chunks in files survives a crash, and each message that was
/// answered is one of these, has no events, or has no output. The run began on a disk without unsynced
/// state, and its appends are fsynced.
pub fn accepted_batches_survive()
    ensures { (s : AllSettings) (ends : InputEnds) (ticks : Option ℕ) (turns : ℕ) (first : Files) (entries : List TraceEntry) (left : Action RunResult)
        → MeetsRequirements s → s.service.full ≡ true → AreDurable first → Execution (life s ends ticks turns) entries left
        → AtCrashPoints LeadsTo (KeepsAccepted s) (crash_point [] first) entries }
{
    crash_points_are_safe();
    safe_chunks_are_recovered();
    replies_are_due();
    pending_iff_unresolved();
}
