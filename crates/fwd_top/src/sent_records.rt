ghost use Rattle.std.specs.Prelude.{ℕ};
ghost use Rattle.fwd_replay.specs.declared.report.Reported.{Reported};
ghost use Rattle.fwd_top.specs.Outcomes.{Produces, Platform};
ghost use Rattle.fwd_top.specs.Cases.{AreSound, Case, settings_for};
ghost use Rattle.fwd_top.specs.SentRecords.{EachRunSendsRecords};

use fwd_theorem_records::flushes_send_their_records;
use fwd_theorem_replay::replays_send_their_records;

/// Each flush of a run of a case began with the records of its chunk, whether or not appends are fsynced.
pub fn outcomes_send_records()
    ensures { (turns : ℕ) (case : Case) (old new : Platform) (reported : Reported) (comes : Produces turns case old new reported) → AreSound (settings_for case) → EachRunSendsRecords turns case old new reported comes }
{
    flushes_send_their_records();
    replays_send_their_records();
}
