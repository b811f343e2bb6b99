//! How many flushes are in flight.

ghost use Rattle.std.specs.Prelude.{◌⊎◌, ◌≤◌, ℕ, List, [], Option};
ghost use Rattle.fwd_outside.specs.Program.{Execution};
ghost use Rattle.fwd_outside.specs.declared.ends.Ends.{Ends};
ghost use Rattle.fwd_settings.specs.declared.settings_types.AllSettings.{AllSettings};
ghost use Rattle.fwd_model.specs.Trace.{Action, TraceEntry, history_after};
ghost use Rattle.fwd_model.specs.Settings.{output_at};
ghost use Rattle.fwd_model.specs.Run.{RunResult, life};
ghost use Rattle.fwd_theorem_limits.specs.FlushLimits.{flight_count, most_flights, files_in_flight, backlog_in_flight, IsOneChunk};

/// However far a run has come, at most one chunk is in flight to a file or the standard output, and at most
/// four to a peer. Of chunks in files, at most `storage.max_chunks_up` are in flight to any outputs. The
/// recovered chunks in flight have at most `storage.backlog.mem_limit` bytes, or no more than one recovered
/// chunk.
pub fn flights_are_limited()
    ensures outputs { (s : AllSettings) (ends : Ends) (ticks : Option ℕ) (turns : ℕ) (entries : List TraceEntry) (left : Action RunResult) (output : ℕ)
        → Execution (life s ends ticks turns) entries left → flight_count (history_after entries []) output ≤ most_flights (output_at s output) }
    ensures files { (s : AllSettings) (ends : Ends) (ticks : Option ℕ) (turns : ℕ) (entries : List TraceEntry) (left : Action RunResult)
        → Execution (life s ends ticks turns) entries left → files_in_flight s (history_after entries []) ≤ s.service.max_up }
    ensures backlog { (s : AllSettings) (ends : Ends) (ticks : Option ℕ) (turns : ℕ) (entries : List TraceEntry) (left : Action RunResult)
        → Execution (life s ends ticks turns) entries left
        → (backlog_in_flight s (history_after entries []) ≤ s.service.backlog_limit) ⊎ IsOneChunk (history_after entries []) (backlog_in_flight s (history_after entries [])) }
{}
