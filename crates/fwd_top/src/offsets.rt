ghost use Rattle.std.specs.Prelude.{ℕ};
ghost use Rattle.fwd_replay.specs.declared.report.Reported.{Reported};
ghost use Rattle.fwd_top.specs.Outcomes.{Produces, Platform};
ghost use Rattle.fwd_top.specs.Cases.{Case};
ghost use Rattle.fwd_top.specs.Offsets.{EachRunKeepsOffsets};

use fwd_theorem_offsets::{
    kept_offsets_split_files, put_offsets_are_passed, runs_resume_at_kept_offsets,
};

/// Each offset that a run of a case puts has nothing lost before it, and the next run reads on from there.
pub fn outcomes_keep_offsets()
    ensures { (turns : ℕ) (case : Case) (old new : Platform) (reported : Reported) (comes : Produces turns case old new reported) → EachRunKeepsOffsets turns case old new reported comes }
{
    put_offsets_are_passed();
    kept_offsets_split_files();
    runs_resume_at_kept_offsets();
}
