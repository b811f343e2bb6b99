ghost use Rattle.std.specs.Prelude.{◌≡◌, ℕ, true, List, [], ◌∷◌, ◌++◌, Option};
ghost use Rattle.fwd_outside.specs.Program.{Execution};
ghost use Rattle.fwd_outside.specs.declared.ends.Ends.{Ends};
ghost use Rattle.fwd_settings.specs.declared.settings_types.AllSettings.{AllSettings};
ghost use Rattle.fwd_model.specs.Fact.{Fact, History, Batch, Placement, Reason, Accepted, Refused};
ghost use Rattle.fwd_model.specs.Trace.{Action, TraceEntry, history_after};
ghost use Rattle.fwd_model.specs.Run.{RunResult, life};
ghost use Rattle.fwd_theorem_delivery.specs.Origins.{is_arrival, HasNoArrival, WasCompleted, AreDecidedInOrder};

/// However far a run has come, each batch that was accepted or refused is one of those that the last
/// event or poll before it completed.
pub fn decided_batches_were_complete()
    ensures accepted { (s : AllSettings) (ends : Ends) (ticks : Option ℕ) (turns : ℕ) (entries : List TraceEntry) (left : Action RunResult) (later h : History) (b : Batch) (place : Placement)
        → Execution (life s ends ticks turns) entries left → history_after entries [] ≡ later ++ Accepted b place ∷ h → WasCompleted s h b }
    ensures refused { (s : AllSettings) (ends : Ends) (ticks : Option ℕ) (turns : ℕ) (entries : List TraceEntry) (left : Action RunResult) (later h : History) (b : Batch) (why : Reason)
        → Execution (life s ends ticks turns) entries left → history_after entries [] ≡ later ++ Refused b why ∷ h → WasCompleted s h b }
{}

/// However far a run has come, after an event or a poll and before the next one, the accepted and refused
/// batches are, in order, the first of the nonempty ones that it completed. So no batch is accepted or
/// refused twice.
pub fn batches_are_decided_once()
    ensures { (s : AllSettings) (ends : Ends) (ticks : Option ℕ) (turns : ℕ) (entries : List TraceEntry) (left : Action RunResult) (later during before : History) (fact : Fact)
        → Execution (life s ends ticks turns) entries left → history_after entries [] ≡ later ++ (during ++ fact ∷ before) → is_arrival fact ≡ true → HasNoArrival during
        → AreDecidedInOrder s during fact before }
{}
