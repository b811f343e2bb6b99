//! Offsets that a run puts, and what was read before and after them.

ghost use Rattle.std.specs.Prelude.{◌≡◌, ◌≤◌, ◌-◌, ◌^◌, ℕ, List, [], Contains, Option, Some, false};
ghost use Rattle.fwd_frames.specs.Lines.{lines};
ghost use Rattle.fwd_frames.specs.declared.line.Line.{Line};
ghost use Rattle.fwd_outside.specs.Program.{Execution};
ghost use Rattle.fwd_outside.specs.declared.ends.Ends.{Ends};
ghost use Rattle.fwd_settings.specs.declared.settings_types.AllSettings.{AllSettings};
ghost use Rattle.fwd_model.specs.Fact.{History};
ghost use Rattle.fwd_model.specs.Trace.{Action, TraceEntry, history_after};
ghost use Rattle.fwd_model.specs.FollowedFiles.{file_at};
ghost use Rattle.fwd_model.specs.KeptOffsets.{kept_at};
ghost use Rattle.fwd_model.specs.Run.{RunResult, life};
ghost use Rattle.fwd_theorem_trace.specs.Past.{past_after};
ghost use Rattle.fwd_theorem_offsets.specs.Passed.{ArePassed, CameIn};
ghost use Rattle.fwd_theorem_offsets.specs.KeptFiles.{IsAlone, was_cut, SplitsAt};

/// However far a run has come, each offset that it put is the one after the last whole line that it read
/// of a followed file. Each batch that was complete by then was accepted, or refused and counted, or has
/// no events, or followed the drop of its connection.
pub fn put_offsets_are_passed()
    ensures { (s : AllSettings) (ends : Ends) (ticks : Option ℕ) (turns : ℕ) (entries : List TraceEntry) (left : Action RunResult)
        → Execution (life s ends ticks turns) entries left → ArePassed s (past_after [] entries) }
{}

/// Each line of what was read of a followed file, since it was truncated or reading resumed, was completed
/// by a poll of it.
pub fn read_lines_came_in()
    ensures { (s : AllSettings) (h : History) (input index : ℕ) (line : Line) → Contains (lines (file_at s h input index).said) line → CameIn s h input index line }
{}

/// However far a run has come, what it read of a followed file whose offset is kept splits at that offset:
/// whole lines up to it, and then all bytes from there on. This assumes that no other followed file has
/// the same database and path, and that no poll found the file truncated since the offset was got or taken.
pub fn kept_offsets_split_files()
    ensures { (s : AllSettings) (ends : Ends) (ticks : Option ℕ) (turns : ℕ) (entries : List TraceEntry) (left : Action RunResult) (input index place : ℕ)
        → Execution (life s ends ticks turns) entries left → IsAlone s input index → kept_at (history_after entries []) input index ≡ Some place → place ≤ 2 ^ 64 - 1
        → was_cut s (history_after entries []) input index ≡ false → SplitsAt (file_at s (history_after entries []) input index) place }
{}
