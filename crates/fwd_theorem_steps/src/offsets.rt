//! The offsets of followed files that a turn puts.

ghost use Rattle.std.specs.Prelude.{◌≡◌, ℕ, List, Option};
ghost use Rattle.fwd_outside.specs.Program.{Return, Execution};
ghost use Rattle.fwd_settings.specs.declared.settings_types.AllSettings.{AllSettings};
ghost use Rattle.fwd_model.specs.Fact.{History};
ghost use Rattle.fwd_model.specs.Trace.{TraceEntry};
ghost use Rattle.fwd_model.specs.Run.{LoopFailed, RunResult, run};
ghost use Rattle.fwd_theorem_steps.specs.PutOffsets.{PutsOffsets};

/// Each turn puts offsets after its step: the database of a followed file then has the offset after the last
/// whole line that was read of it, unless the put of this offset failed. A turn whose wait failed ends the
/// run.
pub fn turns_put_settled_offsets()
    ensures { (s : AllSettings) (ticks : Option ℕ) (h : History) (lived : RunResult) (entries : List TraceEntry)
        → Execution (run s ticks 1 h) entries (Return lived) → (lived.end ≡ LoopFailed → ⊥) → PutsOffsets s h entries }
{}
