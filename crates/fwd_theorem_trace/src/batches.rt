//! What becomes of complete batches.

ghost use Rattle.std.specs.Prelude.{ℕ, List, [], Option};
ghost use Rattle.fwd_outside.specs.Program.{Return, Execution};
ghost use Rattle.fwd_outside.specs.declared.ends.Ends.{Ends};
ghost use Rattle.fwd_settings.specs.declared.settings_types.AllSettings.{AllSettings};
ghost use Rattle.fwd_model.specs.Fact.{Batch};
ghost use Rattle.fwd_model.specs.Trace.{Action, TraceEntry, history_after};
ghost use Rattle.fwd_model.specs.Acceptance.{Acceptance, accepts};
ghost use Rattle.fwd_model.specs.Run.{RunResult, life};
ghost use Rattle.fwd_theorem_trace.specs.Acceptance.{AcceptanceOutcome};

/// Whenever a run accepts a batch, its events are appended to a chunk, after all that the chunk had. The
/// exceptions: the batch is empty, no output matches its tag, or the batch is refused, which changes no
/// chunk.
pub fn complete_batches_are_stored()
    ensures { (s : AllSettings) (ends : Ends) (ticks : Option ℕ) (turns : ℕ) (before : List TraceEntry) (left : Action RunResult) (b : Batch) (entries : List TraceEntry) (a : Acceptance)
        → Execution (life s ends ticks turns) before left → Execution (accepts s b (history_after before [])) entries (Return a)
        → AcceptanceOutcome s b (history_after before []) a }
{}
