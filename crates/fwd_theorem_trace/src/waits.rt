//! How often a run waits.

ghost use Rattle.std.specs.Prelude.{◌≡◌, ◌⊎◌, ℕ, List, [], Option};
ghost use Rattle.fwd_outside.specs.Program.{Return, Execution};
ghost use Rattle.fwd_outside.specs.declared.happening.Happening.{Happening};
ghost use Rattle.fwd_settings.specs.declared.settings_types.AllSettings.{AllSettings};
ghost use Rattle.fwd_model.specs.Fact.{History};
ghost use Rattle.fwd_model.specs.Trace.{Action, TraceEntry};
ghost use Rattle.fwd_model.specs.StepActions.{step};
ghost use Rattle.fwd_model.specs.RecoveryActions.{recovers};
ghost use Rattle.fwd_model.specs.Run.{RunResult, run};
ghost use Rattle.fwd_theorem_trace.specs.Waits.{waits_in, WaitsFirst};

/// A step never waits, after any history and however far it has come.
pub fn steps_never_wait()
    ensures { (s : AllSettings) (happens : Happening) (h : History) (entries : List TraceEntry) (left : Action History)
        → Execution (step s happens h) entries left → waits_in entries ≡ 0 }
{}

/// Loading never waits.
pub fn loading_never_waits()
    ensures { (s : AllSettings) (entries : List TraceEntry) (left : Action (Option History)) → Execution (recovers s) entries left → waits_in entries ≡ 0 }
{}

/// A turn waits exactly once, in its first call: until 250 ms after the current clock, naming the paused
/// inputs. A turn that was cut short has made no call, or that wait first and no other.
pub fn turns_wait_once()
    ensures whole { (s : AllSettings) (ticks : Option ℕ) (h : History) (lived : RunResult) (entries : List TraceEntry)
        → Execution (run s ticks 1 h) entries (Return lived) → (waits_in entries ≡ 1) × WaitsFirst s h entries }
    ensures broken_off { (s : AllSettings) (ticks : Option ℕ) (h : History) (entries : List TraceEntry) (left : Action RunResult)
        → Execution (run s ticks 1 h) entries left → (entries ≡ []) ⊎ WaitsFirst s h entries }
{}
