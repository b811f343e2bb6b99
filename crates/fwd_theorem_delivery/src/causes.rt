//! Why a run refuses a batch, runs out of retries, or evicts a chunk, and what its flushes send.

ghost use Rattle.std.specs.Prelude.{ℕ, List, [], Option};
ghost use Rattle.fwd_outside.specs.Program.{Execution};
ghost use Rattle.fwd_outside.specs.declared.ends.Ends.{Ends};
ghost use Rattle.fwd_settings.specs.declared.settings_types.AllSettings.{AllSettings};
ghost use Rattle.fwd_model.specs.Trace.{Action, TraceEntry, history_after};
ghost use Rattle.fwd_model.specs.Run.{RunResult, life};
ghost use Rattle.fwd_theorem_delivery.specs.Causes.{HaveCauses};

/// However far a run has come, each batch was refused for a named reason that applied: it was too large,
/// chunk numbers ran out, or a call on the disk failed. A route ran out of retries only after as many flushes
/// as its output's limit of retries, and one more. A chunk was evicted only if the chunks pending for the
/// output had more bytes than its limit when a chunk closed, and then it was among the oldest that wait. Each
/// flush began with the events of its chunk: in memory, those that were accepted into it, in order; in a
/// file, those that were read from it, whole.
pub fn outcomes_have_causes()
    ensures { (s : AllSettings) (ends : Ends) (ticks : Option ℕ) (turns : ℕ) (entries : List TraceEntry) (left : Action RunResult)
        → Execution (life s ends ticks turns) entries left → HaveCauses s (history_after entries []) }
{}
