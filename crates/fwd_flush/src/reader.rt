//! Readers of replies, by kind of output.

ghost use Rattle.std.specs.Prelude.{◌≡◌, Bool, List, ℕ, false, IfOk};
ghost use Rattle.fwd_flush.specs.declared.judgement.Judged.{Judged};
ghost use Rattle.fwd_flush.specs.declared.judgement.Judged.TheVariants.{Right};

use crate::Judged;
use fwd_base::Memory;
use std::alloc::Global;

/// Says whether a reply is wanted, and judges it.
pub trait ReplyReader {
    /// Whether a flush is good only after a right reply.
    ghost wanted: { Self → Bool };

    /// The judgement of a reply, from all its bytes so far.
    ghost judged: { Self → List ℕ → Judged };

    /// Returns whether a reply is wanted.
    fn wanted(&self) -> bool
        ensures { result ≡ wanted self.now };

    /// Judges a reply from all its bytes so far, which may be none.
    fn judge(&self, alloc: Global, reply: &[u8]) -> Result<Judged, Memory>
        ensures { IfOk result (λ judgement. judgement ≡ judged self.now reply.now) };
}

/// The reader of an output without replies.
#[derive(Clone, Copy, Debug, PartialEq, Eq)]
pub struct NoReply;

impl ReplyReader for NoReply {
    ghost wanted = { λ _. false };

    ghost judged = { λ _ _. Right };

    fn wanted(&self) -> bool {
        false
    }

    fn judge(&self, _alloc: Global, _reply: &[u8]) -> Result<Judged, Memory> {
        Ok(Judged::Right)
    }
}
