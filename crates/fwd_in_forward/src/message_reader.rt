//! Reading of all messages at the start of bytes.

ghost use Rattle.std.specs.Prelude.{◌<◌, length, map, All, IfOk};
ghost use Rattle.fwd_base.specs.Limits.{longest_message};
ghost use Rattle.fwd_wire.specs.Fits.{ContentFits};
ghost use Rattle.fwd_wire.specs.Stream.{Streams};
ghost use Rattle.fwd_in_forward.specs.Conn.{ending_of};

use crate::next_message::NextMessage;
use crate::read_message::ReadMessage;
use fwd_base::{Bytes, Items, Memory};
use fwd_wire::ConnFault;
use std::alloc::Global;

/// The messages of some bytes, the bytes after them, and what breaks these, if anything does.
#[derive(Drop)]
pub struct AllRead<M> {
    pub messages: Items<M>,
    pub rest: Bytes,
    pub fault: Option<ConnFault>,
}

/// Returns the messages at the start of bytes.
pub fn all_messages<M: ReadMessage>(alloc: Global, bytes: &[u8]) -> Result<AllRead<M>, Memory>
    ensures streams { IfOk result
        (λ read. Streams (map M.content read.messages) (ending_of read.rest read.fault) bytes.now) }
    ensures fits { IfOk result (λ read. All ContentFits (map M.content read.messages)) }
    ensures sound { IfOk result (λ read. All M.IsSound read.messages) }
    ensures short { IfOk result (λ read. length read.rest < longest_message) }
{
    let mut messages = Items::new(alloc);
    let mut rest = bytes;
    'reading: loop {
        match M::read_next(alloc, rest)? {
            NextMessage::Message(message, length) => {
                messages.push(message)?;
                let (_, behind) = rest.split_at(length);
                rest = behind;
            }
            NextMessage::Short => {
                return Ok(AllRead {
                    messages,
                    rest: Bytes::from_slice(alloc, rest)?,
                    fault: None,
                });
            }
            NextMessage::Broken(fault) => {
                return Ok(AllRead {
                    messages,
                    rest: Bytes::new(alloc),
                    fault: Some(fault),
                });
            }
        }
    }
}
