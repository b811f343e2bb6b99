//! The reader of a peer's reply.

use crate::judgement::judgement_of;
use fwd_base::{Bytes, Memory};
use fwd_flush::{Judged, ReplyReader};
use std::alloc::Global;

/// The reply that a peer has to give: none, or the acknowledgement of an id.
#[derive(Debug, Drop)]
pub enum EndReader {
    Quiet,
    Ack { id: Bytes },
}

impl ReplyReader for EndReader {
    ghost use Rattle.fwd_out_net.specs.Reader.{wants, judges};

    ghost wanted = { wants };

    ghost judged = { judges };

    fn wanted(&self) -> bool {
        match self {
            EndReader::Quiet => false,
            EndReader::Ack { .. } => true,
        }
    }

    fn judge(&self, alloc: Global, reply: &[u8]) -> Result<Judged, Memory> {
        match self {
            EndReader::Quiet => Ok(Judged::Right),
            EndReader::Ack { id } => judgement_of(alloc, id, reply),
        }
    }
}
