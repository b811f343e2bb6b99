//! A theorem on successive polls. It is the contract of a function that does nothing.

ghost use Rattle.fwd_in_tail.specs.Polls.{PollsCompose};

/// A followed file after polls and one more is what the one more makes of the file after the others. So
/// what a tail returns for each poll is given for any list of polls.
pub fn polls_follow_one_another()
    ensures { PollsCompose }
{}
