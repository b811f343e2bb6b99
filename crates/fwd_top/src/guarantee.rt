ghost use Rattle.std.specs.Prelude.{ℕ};
ghost use Rattle.fwd_replay.specs.declared.report.Reported.{Reported};
ghost use Rattle.fwd_top.specs.Outcomes.{Produces, Platform};
ghost use Rattle.fwd_top.specs.Cases.{Case};
ghost use Rattle.fwd_top.specs.Delivery.{IsDelivered};

use fwd_replay::all_runs_keep_the_guarantee;
use fwd_theorem_steps::broken_runs_keep_the_guarantee;

/// Each run of a case keeps the delivery guarantee; a run over devices for which memory ran out, up to its
/// last whole turn.
pub fn outcomes_are_delivered()
    ensures { (turns : ℕ) (case : Case) (old new : Platform) (reported : Reported) (comes : Produces turns case old new reported)
        → IsDelivered turns case old new reported comes }
{
    all_runs_keep_the_guarantee();
    broken_runs_keep_the_guarantee();
}
