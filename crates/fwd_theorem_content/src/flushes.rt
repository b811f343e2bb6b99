//! What the flushes of a run begin with.

ghost use Rattle.std.specs.Prelude.{◌≡◌, ℕ, List, [], Option};
ghost use Rattle.fwd_outside.specs.Program.{Execution};
ghost use Rattle.fwd_outside.specs.AtCrashPoints.{Ends};
ghost use Rattle.fwd_outside.specs.declared.ends.Ends.{Ends as InputEnds};
ghost use Rattle.fwd_outside.specs.DiskStates.{Files};
ghost use Rattle.fwd_settings.specs.declared.settings_types.AllSettings.{AllSettings};
ghost use Rattle.fwd_settings.specs.Requirements.{MeetsRequirements};
ghost use Rattle.fwd_model.specs.Trace.{Action, TraceEntry, history_after};
ghost use Rattle.fwd_model.specs.Run.{RunResult, life};
ghost use Rattle.fwd_theorem_crash.specs.CrashPoint.{CrashPoint, crash_point, LeadsTo};
ghost use Rattle.fwd_theorem_crash.specs.FlushEvents.{FlushesSendTheirChunks};
ghost use Rattle.fwd_theorem_content.specs.KnownNames.{NamesAreKnown};

/// Each flush of a run began with the events of its chunk, also if appends aren't fsynced: for a chunk in
/// memory those that were accepted, and for a chunk in a file the events of all bytes that were accepted, or
/// recovered. When the run began, each name had a file, or had none that a crash could bring back. Files may
/// have had unsynced state, as after the end of an earlier run's process.
pub fn flushes_send_their_chunks()
    ensures { (s : AllSettings) (ends : InputEnds) (ticks : Option ℕ) (turns : ℕ) (first : Files) (entries : List TraceEntry) (left : Action RunResult) (last : CrashPoint)
        → MeetsRequirements s → NamesAreKnown first → Execution (life s ends ticks turns) entries left → Ends LeadsTo (crash_point [] first) entries last
        → FlushesSendTheirChunks s (history_after entries []) }
{}
