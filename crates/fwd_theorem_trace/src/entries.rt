//! Which calls and facts a trace may have.

ghost use Rattle.std.specs.Prelude.{◌≡◌, ℕ, List, [], Option};
ghost use Rattle.fwd_outside.specs.Program.{Return, Execution};
ghost use Rattle.fwd_outside.specs.declared.ends.Ends.{Ends};
ghost use Rattle.fwd_settings.specs.declared.settings_types.AllSettings.{AllSettings};
ghost use Rattle.fwd_model.specs.Trace.{Action, TraceEntry, history_after};
ghost use Rattle.fwd_model.specs.Run.{RunResult, life};
ghost use Rattle.fwd_theorem_trace.specs.Past.{past_after};
ghost use Rattle.fwd_theorem_trace.specs.Allowed.{Allowed};
ghost use Rattle.fwd_theorem_trace.specs.Sound.{Sound};

/// The history of a run is what the run logged. So its trace determines it.
pub fn histories_are_logged()
    ensures { (s : AllSettings) (ends : Ends) (ticks : Option ℕ) (turns : ℕ) (lived : RunResult) (entries : List TraceEntry)
        → Execution (life s ends ticks turns) entries (Return lived) → lived.history ≡ history_after entries [] }
{}

/// Each entry of a run is allowed by the entries before it, however far the run has come.
pub fn entries_are_allowed()
    ensures { (s : AllSettings) (ends : Ends) (ticks : Option ℕ) (turns : ℕ) (entries : List TraceEntry) (left : Action RunResult)
        → Execution (life s ends ticks turns) entries left → Allowed s (past_after [] entries) }
{}

/// Every history of a run satisfies `Sound`: chunk numbers rise and are below the next one, no fact is
/// about a chunk from that number on, and each open chunk is pending for an output.
pub fn histories_are_sound()
    ensures { (s : AllSettings) (ends : Ends) (ticks : Option ℕ) (turns : ℕ) (entries : List TraceEntry) (left : Action RunResult)
        → Execution (life s ends ticks turns) entries left → Sound s (history_after entries []) }
{}
