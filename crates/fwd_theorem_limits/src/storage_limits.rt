//! How much is kept for an output that has a limit.

ghost use Rattle.std.specs.Prelude.{◌≡◌, ◌⊎◌, ◌≤◌, ℕ, true, List, [], Contains, Option, Some};
ghost use Rattle.fwd_outside.specs.Program.{Return, Execution};
ghost use Rattle.fwd_outside.specs.declared.ends.Ends.{Ends};
ghost use Rattle.fwd_table.specs.Usage.{is_file};
ghost use Rattle.fwd_settings.specs.declared.settings_types.AllSettings.{AllSettings};
ghost use Rattle.fwd_settings.specs.declared.settings_types.OutputSet.{OutputSet};
ghost use Rattle.fwd_model.specs.Fact.{History};
ghost use Rattle.fwd_model.specs.Trace.{Action, TraceEntry, history_after};
ghost use Rattle.fwd_model.specs.Settings.{output_at, outputs_for};
ghost use Rattle.fwd_model.specs.Chunks.{ChunkInfo, open_chunks};
ghost use Rattle.fwd_model.specs.Routes.{home_of};
ghost use Rattle.fwd_model.specs.CloseActions.{closes_chunk};
ghost use Rattle.fwd_model.specs.Run.{RunResult, life};
ghost use Rattle.fwd_theorem_limits.specs.StorageLimits.{kept_bytes, recovered_bytes, HasNoRoom};

/// Whenever a run closes a chunk that is kept in a file: an output that it matches, and that has a limit,
/// keeps no more bytes of closed chunks in files than its limit. The exception: this chunk alone has no room
/// beside what is in flight to the output. Then it is evicted.
pub fn closings_keep_limits()
    ensures { (s : AllSettings) (ends : Ends) (ticks : Option ℕ) (turns : ℕ) (before : List TraceEntry) (left : Action RunResult) (c : ChunkInfo) (entries : List TraceEntry) (new : History) (output : ℕ) (set : OutputSet) (limit : ℕ)
        → Execution (life s ends ticks turns) before left → Contains (open_chunks (history_after before [])) c → is_file (home_of s c.input) ≡ true
        → Contains (outputs_for s c.tag) output → output_at s output ≡ Some set → set.total_limit ≡ Some limit
        → Execution (closes_chunk s c.number (history_after before [])) entries (Return new)
        → (kept_bytes s new output ≤ limit) ⊎ HasNoRoom s (history_after before []) new c output limit }
{}

/// At the end of a turn, the closed chunks in files that are pending for an output with a limit have at most
/// as many bytes as the limit, or as the recovered chunks that match the output. Each end of a turn is the
/// end of a run of that many turns.
pub fn kept_bytes_are_limited()
    ensures { (s : AllSettings) (ends : Ends) (ticks : Option ℕ) (turns : ℕ) (lived : RunResult) (entries : List TraceEntry) (output : ℕ) (set : OutputSet) (limit : ℕ)
        → Execution (life s ends ticks turns) entries (Return lived) → output_at s output ≡ Some set → set.total_limit ≡ Some limit
        → (kept_bytes s lived.history output ≤ limit) ⊎ (kept_bytes s lived.history output ≤ recovered_bytes s lived.history output) }
{}
