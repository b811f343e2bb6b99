//! What never goes back.

ghost use Rattle.std.specs.Prelude.{◌≡◌, ◌≤◌, ◌++◌, ℕ, List, [], Option};
ghost use Rattle.fwd_event.specs.declared.event.Event.{Event};
ghost use Rattle.fwd_outside.specs.Program.{Execution};
ghost use Rattle.fwd_outside.specs.declared.ends.Ends.{Ends};
ghost use Rattle.fwd_settings.specs.declared.settings_types.AllSettings.{AllSettings};
ghost use Rattle.fwd_model.specs.Fact.{History};
ghost use Rattle.fwd_model.specs.Trace.{Action, TraceEntry, history_after};
ghost use Rattle.fwd_model.specs.Clock.{clock};
ghost use Rattle.fwd_model.specs.Chunks.{records};
ghost use Rattle.fwd_model.specs.Run.{RunResult, life};

/// The clock never goes back, whatever is called and logged.
pub fn clock_never_falls()
    ensures { (h : History) (entries : List TraceEntry) → clock h ≤ clock (history_after entries h) }
{}

/// However a run goes on, the events of a chunk stay a prefix of its later events.
pub fn records_never_shrink()
    ensures { (s : AllSettings) (ends : Ends) (ticks : Option ℕ) (turns : ℕ) (before entries : List TraceEntry) (left : Action RunResult) (chunk : ℕ)
        → Execution (life s ends ticks turns) (before ++ entries) left
        → (more : List Event) × (records (history_after (before ++ entries) []) chunk ≡ records (history_after before []) chunk ++ more) }
{}
