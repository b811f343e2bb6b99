//! Runs without followed files.

ghost use Rattle.std.specs.Prelude.{◌≡◌, ℕ, List, [], Option};
ghost use Rattle.fwd_outside.specs.Program.{Execution};
ghost use Rattle.fwd_outside.specs.declared.ends.Ends.{Ends};
ghost use Rattle.fwd_settings.specs.declared.settings_types.AllSettings.{AllSettings};
ghost use Rattle.fwd_model.specs.Trace.{Action, TraceEntry, files_part, keeper_part};
ghost use Rattle.fwd_model.specs.Settings.{paths_at};
ghost use Rattle.fwd_model.specs.Run.{RunResult, life};

/// If no input follows files, a run makes no call on files, and none on the database of offsets, however far
/// it has come.
pub fn nothing_is_asked_without_followed_files()
    ensures files { (s : AllSettings) (ends : Ends) (ticks : Option ℕ) (turns : ℕ) (trace : List TraceEntry) (left : Action RunResult)
        → ((input : ℕ) → paths_at s input ≡ []) → Execution (life s ends ticks turns) trace left → files_part trace ≡ [] }
    ensures keeper { (s : AllSettings) (ends : Ends) (ticks : Option ℕ) (turns : ℕ) (trace : List TraceEntry) (left : Action RunResult)
        → ((input : ℕ) → paths_at s input ≡ []) → Execution (life s ends ticks turns) trace left → keeper_part trace ≡ [] }
{}
