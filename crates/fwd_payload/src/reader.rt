//! The reader of an output's reply.

use fwd_base::Memory;
use fwd_flush::{Judged, ReplyReader};
use fwd_out_http::HttpReader;
use fwd_out_net::EndReader;
use std::alloc::Global;

/// The reply of an output: none or an acknowledgement, or the head of an HTTP reply.
#[derive(Debug, Drop)]
pub enum Reader {
    End(EndReader),
    Http(HttpReader),
}

impl ReplyReader for Reader {
    ghost use Rattle.fwd_payload.specs.Reader.{wants, judges};

    ghost wanted = { wants };

    ghost judged = { judges };

    fn wanted(&self) -> bool {
        match self {
            Reader::End(reader) => reader.wanted(),
            Reader::Http(reader) => reader.wanted(),
        }
    }

    fn judge(&self, alloc: Global, reply: &[u8]) -> Result<Judged, Memory> {
        match self {
            Reader::End(reader) => reader.judge(alloc, reply),
            Reader::Http(reader) => reader.judge(alloc, reply),
        }
    }
}
