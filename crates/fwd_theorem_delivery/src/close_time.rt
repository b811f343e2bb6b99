//! When open chunks close.

ghost use Rattle.std.specs.Prelude.{◌≡◌, ℕ, List, Option, true};
ghost use Rattle.fwd_outside.specs.Program.{Return, Execution};
ghost use Rattle.fwd_outside.specs.declared.ends.Ends.{Ends};
ghost use Rattle.fwd_settings.specs.declared.settings_types.AllSettings.{AllSettings};
ghost use Rattle.fwd_model.specs.Trace.{TraceEntry};
ghost use Rattle.fwd_model.specs.Chunks.{ChunkInfo, is_closed};
ghost use Rattle.fwd_model.specs.Run.{RunResult, life};
ghost use Rattle.fwd_theorem_delivery.specs.OverdueChunks.{IsOverdue};

/// At the end of a turn, a chunk that existed at the end of the step of an earlier tick is closed if the
/// clock advanced by a flush time since, at a later tick. Each end of a turn is the end of a run of that
/// many turns.
pub fn chunks_close_in_time()
    ensures { (s : AllSettings) (ends : Ends) (ticks : Option ℕ) (turns : ℕ) (lived : RunResult) (entries : List TraceEntry) (c : ChunkInfo)
        → Execution (life s ends ticks turns) entries (Return lived) → IsOverdue s lived.history c → is_closed lived.history c.number ≡ true }
{}
