//! The state of a flush after a poll.

use fwd_table::Answer;

/// The state of a flush after a poll.
#[derive(Clone, Copy, Debug, PartialEq, Eq)]
pub enum Poll {
    /// The flush waits until its link has room, replies or breaks.
    Waiting,
    Ended(Answer),
}
