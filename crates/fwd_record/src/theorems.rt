//! What was recorded plays.

ghost use Rattle.std.specs.Prelude.{ℕ, ◌-◌, ◌^◌, ◌≤◌, Bool, List, length};
ghost use Rattle.fwd_outside.specs.NewLinks.{AreNewLinks};
ghost use Rattle.fwd_script_loop.specs.Lines.{given_of};
ghost use Rattle.fwd_script_loop.specs.Place.{IsPlayed};
ghost use Rattle.fwd_record.specs.Seen.{Seen, calls_of};
ghost use Rattle.fwd_record.specs.Links.{no_links, links_in, number_of};
ghost use Rattle.fwd_record.specs.Allowed.{AreAllowed};
ghost use Rattle.fwd_record.specs.Recorded.{recorded};
ghost use Rattle.fwd_record.specs.Played.{AreReplayable, replayed};

/// A loop in memory with the recorded schedule gives each recorded call the answer that it had, with links
/// numbered from 1. Where the run was stopped without a call, a wait of any time and mask brings the stop.
/// The recorder gives the first two premises; the others are what a schedule can express.
pub fn recorded_runs_play()
    ensures { (endless : Bool) (seen : List Seen) (failed : List ℕ) (until paused : ℕ)
        → AreAllowed endless (calls_of seen) → AreNewLinks 0 (calls_of seen)
        → length (links_in (calls_of seen)) ≤ 2 ^ 64 - 1 → AreReplayable no_links seen
        → IsPlayed (given_of (recorded seen failed)) (replayed (number_of (links_in (calls_of seen))) until paused seen) }
{}
