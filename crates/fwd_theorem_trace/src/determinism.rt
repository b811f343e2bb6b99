//! What determines a run.

ghost use Rattle.std.specs.Prelude.{◌≡◌, List};
ghost use Rattle.fwd_outside.specs.Program.{Return, Execution};
ghost use Rattle.fwd_model.specs.Fact.{History};
ghost use Rattle.fwd_model.specs.Trace.{Action, TraceEntry};
ghost use Rattle.fwd_model.specs.Run.{RunResult};
ghost use Rattle.fwd_theorem_trace.specs.Platform.{Platform, AreAnswersOf};

/// The answers of the platform determine the joined trace of an action and of a run over all devices, and
/// their results.
pub fn platform_determines_trace()
    ensures of_acts { (outside : Platform) (act : Action History) (before one other : List TraceEntry) (new new2 : History)
        → Execution act one (Return new) → Execution act other (Return new2) → AreAnswersOf outside before one → AreAnswersOf outside before other
        → (other ≡ one) × (new2 ≡ new) }
    ensures of_lives { (outside : Platform) (life : Action RunResult) (before one other : List TraceEntry) (lived lived2 : RunResult)
        → Execution life one (Return lived) → Execution life other (Return lived2) → AreAnswersOf outside before one → AreAnswersOf outside before other
        → (other ≡ one) × (lived2 ≡ lived) }
{}
