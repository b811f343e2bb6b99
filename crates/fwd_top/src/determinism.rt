ghost use Rattle.std.specs.Prelude.{ℕ};
ghost use Rattle.fwd_replay.specs.declared.report.Reported.{Reported};
ghost use Rattle.fwd_top.specs.Outcomes.{Produces, Platform};
ghost use Rattle.fwd_top.specs.Cases.{Case};
ghost use Rattle.fwd_top.specs.Determinism.{IsDetermined};

use fwd_theorem_replay::schedules_determine_text;

/// The outcome of a replay is the only one that its schedule allows.
pub fn outcomes_are_determined()
    ensures { (turns : ℕ) (case : Case) (old new : Platform) (reported : Reported) → Produces turns case old new reported
        → IsDetermined turns case reported }
{
    schedules_determine_text();
}
