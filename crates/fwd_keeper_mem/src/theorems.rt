//! The answers of a keeper in memory that isn't told to fail.

ghost use Rattle.std.specs.Prelude.{◌≡◌, List, [], ◌++◌};
ghost use Rattle.fwd_keeper.specs.Keeper.{KeeperEntry, KeeperGiven};
ghost use Rattle.fwd_keeper_mem.specs.KeeperAnswers.{IsPlayed, IsUnfailing, fails_in, offsets_after_all};

/// A call fails only if it is told to: a get returns the offset of its path, and a put is done.
pub fn only_told_calls_fail()
    ensures { (given : KeeperGiven) (before es : List KeeperEntry) → fails_in (before ++ es) ≡ [] → IsPlayed given before es → IsUnfailing (offsets_after_all given before) es }
{}
