//! The turns of a run, whether it came to its end or was broken off, as where memory ran out.

ghost use Rattle.std.specs.Prelude.{◌≡◌, ◌⊎◌, ◌≤◌, ◌++◌, ℕ, List, [], Option};
ghost use Rattle.fwd_outside.specs.Program.{Return, Execution};
ghost use Rattle.fwd_outside.specs.NewLinks.{AreNewLinks};
ghost use Rattle.fwd_outside.specs.declared.ends.Ends.{Ends};
ghost use Rattle.fwd_settings.specs.declared.settings_types.AllSettings.{AllSettings};
ghost use Rattle.fwd_model.specs.Trace.{Action, TraceEntry, loop_part};
ghost use Rattle.fwd_model.specs.Run.{RunResult, life};
ghost use Rattle.fwd_theorem_trace.specs.Waits.{waits_in};
ghost use Rattle.fwd_theorem_delivery.specs.Guarantee.{KeepsGuarantee};
ghost use Rattle.fwd_theorem_steps.specs.Turns.{EndsForCause, HasTurns};

use fwd_theorem_delivery::runs_keep_the_guarantee;

/// However far a run has come, it came so by whole turns, and then by at most one wait and what follows it. A
/// run that hasn't waited yet has no turn.
pub fn runs_come_by_turns()
    ensures { (s : AllSettings) (ends : Ends) (ticks : Option ℕ) (turns : ℕ) (entries : List TraceEntry) (left : Action RunResult)
        → Execution (life s ends ticks turns) entries left → HasTurns s ends ticks entries }
{}

/// A run that was broken off, as where memory ran out, keeps the delivery guarantee up to its last whole
/// turn, if the links that dials returned have rising numbers.
pub fn broken_runs_keep_the_guarantee()
    ensures { (s : AllSettings) (ends : Ends) (ticks : Option ℕ) (turns : ℕ) (entries : List TraceEntry) (left : Action RunResult)
        → Execution (life s ends ticks turns) entries left → AreNewLinks 0 (loop_part entries)
        → (waits_in entries ≡ 0)
        ⊎ ((whole : List TraceEntry) × (since : List TraceEntry) × (entries ≡ whole ++ since) × (waits_in since ≤ 1) × KeepsGuarantee s whole) }
{
    runs_keep_the_guarantee();
}

/// A run's turns are used up only once it waited so many times. It ends because the loop failed only if its
/// last call was a start that failed, or a wait that returned `Failed`; and because the disk failed only if
/// loading did, and then it made no further call. For the other ends see `runs_end_when_due` and
/// `failed_gets_end_runs`.
pub fn runs_end_for_a_cause()
    ensures { (s : AllSettings) (ends : Ends) (ticks : Option ℕ) (turns : ℕ) (lived : RunResult) (entries : List TraceEntry)
        → Execution (life s ends ticks turns) entries (Return lived) → EndsForCause s turns entries lived }
{}
