ghost use Rattle.std.specs.Prelude.{◌≡◌, ℕ};
ghost use Rattle.fwd_replay.specs.declared.report.Ending.TheVariants.{TurnsSpent};
ghost use Rattle.fwd_replay.specs.declared.report.Reported.{Reported};
ghost use Rattle.fwd_top.specs.Cases.{Case};
ghost use Rattle.fwd_top.specs.EnoughTurns.{HasFewTurns};
ghost use Rattle.fwd_top.specs.Outcomes.{Produces, Platform};

use fwd_theorem_replay::enough_turns_end_a_run;
use fwd_theorem_steps::{runs_come_by_turns, runs_end_for_a_cause};

/// A replay uses up its turns only if they are fewer than the events of all its runs, with one more for each
/// run, and with two for each event if an input or an output has a shared key.
pub fn spent_turns_were_few()
    ensures { (turns : ℕ) (case : Case) (old new : Platform) (reported : Reported) → Produces turns case old new reported → reported.ending ≡ TurnsSpent → HasFewTurns case turns }
{
    runs_come_by_turns();
    runs_end_for_a_cause();
    enough_turns_end_a_run();
}
