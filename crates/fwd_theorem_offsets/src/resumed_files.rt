//! Where a run resumes reading of followed files.

ghost use Rattle.std.specs.Prelude.{◌≡◌, ℕ, nat_lt, if◌then◌else◌, List, [], ◌∷◌, ◌++◌, Contains, Option, Some};
ghost use Rattle.fwd_outside.specs.Program.{entry, Execution};
ghost use Rattle.fwd_outside.specs.Files.{Length, ReadAt};
ghost use Rattle.fwd_outside.specs.Loop.{Wait};
ghost use Rattle.fwd_outside.specs.declared.ends.Ends.{Ends};
ghost use Rattle.fwd_outside.specs.declared.happening.Happening.{Happening};
ghost use Rattle.fwd_settings.specs.declared.settings_types.AllSettings.{AllSettings};
ghost use Rattle.fwd_model.specs.Fact.{History};
ghost use Rattle.fwd_model.specs.Trace.{Action, TraceEntry, OnLoop, OnFiles, history_after};
ghost use Rattle.fwd_model.specs.FollowedFiles.{file_at};
ghost use Rattle.fwd_model.specs.InputActions.{polls_file};
ghost use Rattle.fwd_model.specs.KeptOffsets.{Tracked, tracked};
ghost use Rattle.fwd_model.specs.Run.{RunResult, life};
ghost use Rattle.fwd_theorem_trace.specs.Past.{past_after};
ghost use Rattle.fwd_theorem_trace.specs.Waits.{waits_in};
ghost use Rattle.fwd_theorem_offsets.specs.KeptFiles.{IsAlone, last_given, begun_at};

/// A run resumes reading of a followed file at the offset that its keeper gave last for the path. When it
/// first waits, it has read nothing of the file, which is to be read from that offset, or anew if the keeper
/// gave none. A poll then reads at the offset, or at 0 if the file has become shorter. The first assumes
/// that no other followed file has the same database and path.
pub fn runs_resume_at_kept_offsets()
    ensures begun { (s : AllSettings) (ends : Ends) (ticks : Option ℕ) (turns : ℕ) (before after : List TraceEntry) (left : Action RunResult) (until mask : ℕ) (brought : Happening) (file : Tracked)
        → Execution (life s ends ticks turns) (before ++ entry (OnLoop (Wait until mask)) brought ∷ after) left → waits_in before ≡ 0 → Contains (tracked s) file → IsAlone s file.input file.index
        → file_at s (history_after before []) file.input file.index ≡ begun_at (last_given (past_after [] before) file.db file.path) }
    ensures read { (s : AllSettings) (h : History) (input index place long at max : ℕ) (path named other : List ℕ) (answer : Option (List ℕ)) (entries : List TraceEntry) (left : Action History)
        → (file_at s h input index).place ≡ Some place → Execution (polls_file s input index path h) (entry (OnFiles (Length named)) (Some long) ∷ entry (OnFiles (ReadAt other at max)) answer ∷ entries) left
        → (other ≡ path) × (at ≡ (if nat_lt long place then 0 else place)) }
{}
