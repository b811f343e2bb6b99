//! When chunks close.

ghost use Rattle.std.specs.Prelude.{◌≡◌, ℕ, List, [], Option, true};
ghost use Rattle.fwd_outside.specs.Program.{Return, Execution};
ghost use Rattle.fwd_outside.specs.declared.ends.Ends.{Ends};
ghost use Rattle.fwd_settings.specs.declared.settings_types.AllSettings.{AllSettings};
ghost use Rattle.fwd_model.specs.Trace.{TraceEntry};
ghost use Rattle.fwd_model.specs.Chunks.{open_chunks};
ghost use Rattle.fwd_model.specs.Run.{RunResult, life};
ghost use Rattle.fwd_theorem_trace.specs.Closure.{has_closed};

/// At the end of a turn no chunk is open if the last event closes chunks: a closing tick, or the first of
/// `Stop` and the end of a standard input. Each end of a turn is the end of a run of that many turns.
pub fn chunks_close()
    ensures { (s : AllSettings) (ends : Ends) (ticks : Option ℕ) (turns : ℕ) (lived : RunResult) (entries : List TraceEntry)
        → Execution (life s ends ticks turns) entries (Return lived) → has_closed s lived.history ≡ true → open_chunks lived.history ≡ [] }
{}
