//! Ticks and Stop.

ghost use Rattle.std.specs.Prelude.{◌≡◌, ◌⊎◌, ℕ, suc, List, [], ◌∷◌, Option, Some, None};
ghost use Rattle.fwd_outside.specs.Program.{Return, Execution};
ghost use Rattle.fwd_outside.specs.declared.ends.Ends.{Ends};
ghost use Rattle.fwd_outside.specs.declared.happening.Happening.TheVariants as happening;
ghost use Rattle.fwd_settings.specs.declared.settings_types.AllSettings.{AllSettings};
ghost use Rattle.fwd_model.specs.Fact.{History};
ghost use Rattle.fwd_model.specs.Trace.{Action, TraceEntry, history_after};
ghost use Rattle.fwd_model.specs.Clock.{stopped};
ghost use Rattle.fwd_model.specs.KeptOffsets.{tracked};
ghost use Rattle.fwd_model.specs.Run.{RunResult, steps_on, run, life};
ghost use Rattle.fwd_theorem_runs.specs.StopsAfterTicks.{StopsAfterTicks, wait_for_stop};

/// Once a run is stopped, its number of ticks doesn't matter.
pub fn stopped_runs_count_no_ticks()
    ensures { (s : AllSettings) (ends : Ends) (ticks : Option ℕ) (turns : ℕ) (trace : List TraceEntry) (left : Action RunResult) (at more : ℕ)
        → Execution (life s ends ticks turns) trace left → stopped s (history_after trace []) ≡ Some at
        → run s ticks more (history_after trace []) ≡ run s None more (history_after trace []) }
{}

/// A run with a number of ticks is a run without one, if no followed file has a database: the same, or, if it
/// stopped after its last tick, the one in which the loop brings Stop there.
pub fn ticks_end_with_a_stop()
    ensures { (s : AllSettings) (ends : Ends) (ticks turns : ℕ) (trace : List TraceEntry) (result : RunResult)
        → tracked s ≡ [] → Execution (life s ends (Some ticks) turns) trace (Return result)
        → Execution (life s ends None turns) trace (Return result) ⊎ StopsAfterTicks s ends turns trace result }
{}

/// The Stop after the last tick does what a Stop that the loop brings does, if no followed file has a
/// database: a run without a number of ticks makes the same calls, after a wait that returns Stop.
pub fn last_ticks_stop_like_the_loop()
    ensures { (s : AllSettings) (ends : Ends) (ticks : Option ℕ) (turns more : ℕ) (trace rest : List TraceEntry) (left : Action RunResult) (result : RunResult) (h : History)
        → tracked s ≡ [] → Execution (life s ends ticks turns) trace left → history_after trace [] ≡ h → stopped s h ≡ None
        → Execution (steps_on s (run s ticks more) happening.Stop h) rest (Return result)
        → Execution (run s None (suc more) h) (wait_for_stop s h ∷ rest) (Return result) }
{}
