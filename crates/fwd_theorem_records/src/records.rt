//! What chunks have, and what flushes begin with. Each theorem is the contract of a function that does
//! nothing.

ghost use Rattle.std.specs.Prelude.{ℕ, List, [], Option};
ghost use Rattle.fwd_outside.specs.Program.{Execution};
ghost use Rattle.fwd_outside.specs.AtCrashPoints.{Ends};
ghost use Rattle.fwd_outside.specs.LoopAnswers.{WaitsBringBytes};
ghost use Rattle.fwd_outside.specs.declared.ends.Ends.{Ends as InputEnds};
ghost use Rattle.fwd_outside.specs.DiskStates.{Files};
ghost use Rattle.fwd_settings.specs.declared.settings_types.AllSettings.{AllSettings};
ghost use Rattle.fwd_settings.specs.Requirements.{MeetsRequirements};
ghost use Rattle.fwd_model.specs.Trace.{Action, TraceEntry, history_after, loop_part};
ghost use Rattle.fwd_model.specs.Run.{RunResult, life};
ghost use Rattle.fwd_theorem_crash.specs.CrashPoint.{CrashPoint, crash_point, LeadsTo};
ghost use Rattle.fwd_theorem_records.specs.Records.{StoredAreWritable, HoldsRecords, FlushesSendTheirRecords, NamesAreKnown};

/// However far a run has come, each event that it stored in a chunk can be encoded and read back, if its
/// waits brought bytes.
pub fn stored_events_are_writable()
    ensures { (s : AllSettings) (ends : InputEnds) (ticks : Option ℕ) (turns : ℕ) (entries : List TraceEntry) (left : Action RunResult)
        → MeetsRequirements s → Execution (life s ends ticks turns) entries left → WaitsBringBytes (loop_part entries) → StoredAreWritable (history_after entries []) }
{}

/// Under the same premise, the events in the bytes of each chunk are its records: those that were accepted
/// into it, in order. A recovered chunk has the bytes of its file, and no event is added.
pub fn chunks_hold_their_records()
    ensures { (s : AllSettings) (ends : InputEnds) (ticks : Option ℕ) (turns : ℕ) (entries : List TraceEntry) (left : Action RunResult) (chunk : ℕ)
        → MeetsRequirements s → Execution (life s ends ticks turns) entries left → WaitsBringBytes (loop_part entries) → HoldsRecords (history_after entries []) chunk }
{}

/// Under the same premise, each flush of a run began with the records of its chunk, in memory or in a file,
/// whether or not appends are fsynced. When the run began, each name had a file, or had none that a crash
/// could bring back.
pub fn flushes_send_their_records()
    ensures { (s : AllSettings) (ends : InputEnds) (ticks : Option ℕ) (turns : ℕ) (first : Files) (entries : List TraceEntry) (left : Action RunResult) (last : CrashPoint)
        → MeetsRequirements s → NamesAreKnown first → Execution (life s ends ticks turns) entries left → Ends LeadsTo (crash_point [] first) entries last
        → WaitsBringBytes (loop_part entries) → FlushesSendTheirRecords (history_after entries []) }
{}
