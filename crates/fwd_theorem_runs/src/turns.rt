//! Runs of more turns.

ghost use Rattle.std.specs.Prelude.{◌≡◌, ◌≢◌, ℕ, suc, ◌+◌, List, [], ◌∷◌, Option};
ghost use Rattle.fwd_base.specs.Limits.{longest_wait};
ghost use Rattle.fwd_outside.specs.Program.{entry, Return, Execution};
ghost use Rattle.fwd_outside.specs.Loop.{Wait};
ghost use Rattle.fwd_outside.specs.declared.ends.Ends.{Ends};
ghost use Rattle.fwd_outside.specs.declared.happening.Happening.TheVariants as happening;
ghost use Rattle.fwd_settings.specs.declared.settings_types.AllSettings.{AllSettings};
ghost use Rattle.fwd_model.specs.Fact.{History, Happened};
ghost use Rattle.fwd_model.specs.Trace.{Note, OnLoop, TraceEntry};
ghost use Rattle.fwd_model.specs.Settings.{saturating_plus};
ghost use Rattle.fwd_model.specs.Clock.{clock};
ghost use Rattle.fwd_model.specs.Limits.{paused};
ghost use Rattle.fwd_model.specs.KeptOffsets.{tracked};
ghost use Rattle.fwd_model.specs.Run.{Over, RunResult, TurnsSpent, lived, run, life};

/// A run that used up its turns goes on with more of them, after the same calls. A run that ended otherwise
/// ends so with more turns, too.
pub fn more_turns_continue_a_run()
    ensures goes_on { (s : AllSettings) (ends : Ends) (ticks : Option ℕ) (turns more : ℕ) (trace : List TraceEntry) (h : History)
        → Execution (life s ends ticks turns) trace (Return (lived h TurnsSpent)) → Execution (life s ends ticks (turns + more)) trace (run s ticks more h) }
    ensures ended { (s : AllSettings) (ends : Ends) (ticks : Option ℕ) (turns more : ℕ) (trace : List TraceEntry) (result : RunResult)
        → Execution (life s ends ticks turns) trace (Return result) → result.end ≢ TurnsSpent → Execution (life s ends ticks (turns + more)) trace (Return result) }
{}

/// If a wait returns End and no followed file has a database, the run is over without a further call.
pub fn an_end_ends_a_run()
    ensures { (s : AllSettings) (ticks : Option ℕ) (turns : ℕ) (h : History) → tracked s ≡ []
        → Execution (run s ticks (suc turns) h)
        (entry (OnLoop (Wait (saturating_plus (clock h) longest_wait) (paused s h))) happening.End ∷ entry (Note (Happened happening.End)) tt ∷ [])
        (Return (lived (Happened happening.End ∷ h) Over)) }
{}
