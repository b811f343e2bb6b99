//! The stages of a flush.

ghost use Rattle.std.specs.Prelude.{◌≡◌};
ghost use Rattle.fwd_flush.specs.FlushProgram.{poll_in};

use crate::{Answer, Poll};
use fwd_base::LinkId;

/// The stage of a flush.
#[derive(Clone, Copy, Debug, PartialEq, Eq)]
pub enum Stage {
    /// The output isn't dialled yet.
    Opening,
    /// The flush sends its payload over this link.
    Writing(LinkId),
    /// The link took the whole payload, and the flush waits for a reply.
    AwaitingAck(LinkId),
    Ended(Answer),
}

impl Stage {
    /// Returns the result of a poll that leaves a flush in this stage.
    pub fn poll(self) -> Poll
        ensures { result ≡ poll_in self }
    {
        match self {
            Stage::Ended(answer) => Poll::Ended(answer),
            Stage::Opening | Stage::Writing(_) | Stage::AwaitingAck(_) => Poll::Waiting,
        }
    }
}
