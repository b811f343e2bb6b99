//! What becomes of a chunk once a route of it is resolved.

ghost use Rattle.std.specs.Prelude.{ℕ, List, [], Option};
ghost use Rattle.fwd_outside.specs.Program.{Return, Execution};
ghost use Rattle.fwd_outside.specs.declared.ends.Ends.{Ends};
ghost use Rattle.fwd_settings.specs.declared.settings_types.AllSettings.{AllSettings};
ghost use Rattle.fwd_model.specs.Trace.{TraceEntry};
ghost use Rattle.fwd_model.specs.Run.{RunResult, life};
ghost use Rattle.fwd_theorem_steps.specs.Resolutions.{AreSettled};

/// At the end of a turn, for each route that was delivered, rejected, evicted, or ran out of retries: if its
/// chunk was then pending for another output, the route was marked as done in the chunk's file since, if the
/// file has a place for the mark. If it was pending for no output, the chunk was removed since. Else a call
/// on the disk failed. Each end of a turn is the end of a run of that many turns.
pub fn resolved_routes_are_settled()
    ensures { (s : AllSettings) (ends : Ends) (ticks : Option ℕ) (turns : ℕ) (lived : RunResult) (entries : List TraceEntry)
        → Execution (life s ends ticks turns) entries (Return lived) → AreSettled s [] lived.history }
{}
