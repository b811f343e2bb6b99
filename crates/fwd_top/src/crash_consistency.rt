ghost use Rattle.std.specs.Prelude.{ℕ};
ghost use Rattle.fwd_replay.specs.declared.report.Reported.{Reported};
ghost use Rattle.fwd_top.specs.Outcomes.{Produces, Platform};
ghost use Rattle.fwd_theorem_replay.specs.PresetFiles.{OnlyFirstHasFiles};
ghost use Rattle.fwd_top.specs.Cases.{AreSound, Case, lives_of, settings_for};
ghost use Rattle.fwd_top.specs.CrashConsistency.{IsCrashConsistent};

use fwd_theorem_crash::crash_points_are_safe;
use fwd_theorem_replay::no_crash_loses_a_chunk;
use fwd_theorem_survival::accepted_batches_survive;

/// No crash between the runs of a schedule loses a chunk, if only the first of them puts files on its disk.
/// Each crash point of a run is safe, and what was accepted before it survives the crash.
pub fn outcomes_are_crash_consistent()
    ensures { (turns : ℕ) (case : Case) (old new : Platform) (reported : Reported) (comes : Produces turns case old new reported) → AreSound (settings_for case) → OnlyFirstHasFiles (lives_of case) → IsCrashConsistent turns case old new reported comes }
{
    no_crash_loses_a_chunk();
    crash_points_are_safe();
    accepted_batches_survive();
}
