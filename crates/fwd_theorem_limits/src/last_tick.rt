//! The end of a run with a number of ticks.

ghost use Rattle.std.specs.Prelude.{◌≡◌, ◌<◌, ◌^◌, ℕ, List, [], map, Option, Some, None};
ghost use Rattle.fwd_outside.specs.Program.{Return, Execution};
ghost use Rattle.fwd_outside.specs.declared.ends.Ends.{Ends};
ghost use Rattle.fwd_settings.specs.declared.settings_types.AllSettings.{AllSettings};
ghost use Rattle.fwd_model.specs.Fact.{Happened};
ghost use Rattle.fwd_model.specs.Trace.{TraceEntry, history_after};
ghost use Rattle.fwd_model.specs.Run.{RunResult, life};
ghost use Rattle.fwd_theorem_trace.specs.Past.{past_after};
ghost use Rattle.fwd_theorem_trace.specs.Events.{events_only, waited_events};
ghost use Rattle.fwd_theorem_limits.specs.LastTick.{with_last_stop};

/// A run of a number of ticks logs the events that its waits returned, in order, and directly after the tick
/// of that number `Stop`, unless it was stopped before. A run without such a number logs no `Stop` of its
/// own.
pub fn stop_follows_last_tick()
    ensures given { (s : AllSettings) (ends : Ends) (ticks turns : ℕ) (lived : RunResult) (entries : List TraceEntry)
        → ticks < 2 ^ 64 → Execution (life s ends (Some ticks) turns) entries (Return lived)
        → events_only (history_after entries []) ≡ map (λ brought. Happened brought) (with_last_stop s ticks (waited_events (past_after [] entries))) }
    ensures without { (s : AllSettings) (ends : Ends) (turns : ℕ) (lived : RunResult) (entries : List TraceEntry)
        → Execution (life s ends None turns) entries (Return lived)
        → events_only (history_after entries []) ≡ map (λ brought. Happened brought) (waited_events (past_after [] entries)) }
{}
