ghost use Rattle.std.specs.Prelude.{ℕ, Bool, Option};
ghost use Rattle.fwd_settings.specs.Requirements.{MeetsRequirements};
ghost use Rattle.fwd_settings.specs.declared.settings_types.AllSettings.{AllSettings};
ghost use Rattle.fwd_replay.specs.RecordedRun.{RanSo};
ghost use Rattle.fwd_replay.specs.declared.recorded_run.Ran.{Ran};
ghost use Rattle.fwd_top.specs.Outcomes.{Platform, world};
ghost use Rattle.fwd_top.specs.RecordedOutcome.{RecordedOutcome};

use fwd_replay::all_runs_keep_the_guarantee;
use fwd_theorem_crash::crash_points_are_safe;
use fwd_theorem_offsets::{
    kept_offsets_split_files, put_offsets_are_passed, runs_resume_at_kept_offsets,
};
use fwd_theorem_recorded::recorded_runs_replay;
use fwd_theorem_records::flushes_send_their_records;
use fwd_theorem_steps::broken_runs_keep_the_guarantee;
use fwd_theorem_survival::accepted_batches_survive;

/// What holds of a run holds of a recorded run: it keeps the delivery guarantee, each of its crash points is
/// safe, what was accepted before a crash survives it, each offset that it puts has nothing lost before it,
/// and each flush began with the records of its chunk. The text of its schedule is read back as this
/// schedule, and each replay of it is this run again.
pub fn recorded_outcomes_hold()
    ensures { (turns : ℕ) (s : AllSettings) (ticks : Option ℕ) (old new : Platform) (ran : Ran) → MeetsRequirements s
        → RanSo s ticks turns (world old) (world new) old.endless ran → RecordedOutcome turns s ticks old new ran }
{
    all_runs_keep_the_guarantee();
    broken_runs_keep_the_guarantee();
    crash_points_are_safe();
    accepted_batches_survive();
    put_offsets_are_passed();
    kept_offsets_split_files();
    runs_resume_at_kept_offsets();
    flushes_send_their_records();
    recorded_runs_replay();
}
