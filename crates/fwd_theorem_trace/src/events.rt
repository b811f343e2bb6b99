//! Events that the loop delivers.

ghost use Rattle.std.specs.Prelude.{◌≡◌, ℕ, List, [], Option};
ghost use Rattle.fwd_outside.specs.Program.{Return, Execution};
ghost use Rattle.fwd_outside.specs.declared.ends.Ends.{Ends};
ghost use Rattle.fwd_settings.specs.declared.settings_types.AllSettings.{AllSettings};
ghost use Rattle.fwd_model.specs.Trace.{TraceEntry, history_after};
ghost use Rattle.fwd_model.specs.Run.{RunResult, life};
ghost use Rattle.fwd_theorem_trace.specs.Past.{past_after};
ghost use Rattle.fwd_theorem_trace.specs.Events.{events_only, waited_events, logged_events};

/// The events that a run logs (`Happened`) are those that its waits returned, in order, plus the `Stop`
/// after the last tick.
pub fn logged_events_are_waited()
    ensures { (s : AllSettings) (ends : Ends) (ticks : Option ℕ) (turns : ℕ) (lived : RunResult) (entries : List TraceEntry)
        → Execution (life s ends ticks turns) entries (Return lived) → events_only (history_after entries []) ≡ logged_events s ticks (waited_events (past_after [] entries)) }
{}
