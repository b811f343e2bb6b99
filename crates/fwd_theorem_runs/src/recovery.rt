//! Recovery, and what follows it.

ghost use Rattle.std.specs.Prelude.{◌≡◌, ◌++◌, ℕ, List, [], Option, Some};
ghost use Rattle.fwd_outside.specs.Program.{Return, Execution};
ghost use Rattle.fwd_outside.specs.declared.ends.Ends.{Ends};
ghost use Rattle.fwd_settings.specs.declared.settings_types.AllSettings.{AllSettings};
ghost use Rattle.fwd_model.specs.Trace.{TraceEntry};
ghost use Rattle.fwd_model.specs.Run.{RunResult, life};
ghost use Rattle.fwd_theorem_runs.specs.SplitRun.{SplitRun, empty_recovery};

/// Each run that came to its end begins with recovery, and goes on with what it recovered.
pub fn runs_recover_first()
    ensures { (s : AllSettings) (ends : Ends) (ticks : Option ℕ) (turns : ℕ) (trace : List TraceEntry) (result : RunResult)
        → Execution (life s ends ticks turns) trace (Return result) → SplitRun s ends ticks turns trace result }
{}

/// A run that recovered nothing goes on as on a disk without files. It may have listed empty folders.
pub fn empty_recoveries_are_alike()
    ensures { (s : AllSettings) (ends : Ends) (ticks : Option ℕ) (turns : ℕ) (trace : List TraceEntry) (result : RunResult) (split : SplitRun s ends ticks turns trace result)
        → split.found ≡ Some [] → Execution (life s ends ticks turns) (empty_recovery s.service.path ++ split.rest) (Return result) }
{}
