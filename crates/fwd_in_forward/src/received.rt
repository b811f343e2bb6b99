//! Messages whose events are encoded where their bytes allow it.

ghost use Rattle.std.specs.Prelude.{IfOk};
ghost use Rattle.fwd_wire.specs.Fits.{ContentFits};
ghost use Rattle.fwd_in_forward.specs.NextMessage.{NextIs, NextMeets};
ghost use Rattle.fwd_in_forward.specs.Received.{received_content, KeepsEncodings};

use crate::encoded_message::{EncodedMessage, read_encoded};
use crate::next_message::NextMessage;
use crate::read_message::ReadMessage;
use fwd_base::Memory;
use fwd_wire::Message;
use std::alloc::Global;

/// A message: a batch with encoded events, or any message with its events as values.
#[derive(Debug, Drop)]
pub enum Received {
    Encoded(EncodedMessage),
    Decoded(Message),
}

impl ReadMessage for Received {
    ghost use Rattle.fwd_in_forward.specs.Received.{received_content, KeepsEncodings};

    ghost content = { received_content };

    ghost IsSound = { KeepsEncodings };

    fn read_next(alloc: Global, bytes: &[u8]) -> Result<NextMessage<Received>, Memory> {
        match read_encoded(alloc, bytes)? {
            Some((message, length)) => {
                Ok(NextMessage::Message(Received::Encoded(message), length))
            }
            None => read_decoded(alloc, bytes),
        }
    }
}

/// Returns what comes next in bytes, with its events as values.
fn read_decoded(alloc: Global, bytes: &[u8]) -> Result<NextMessage<Received>, Memory>
    ensures is { IfOk result (NextIs received_content bytes.now) }
    ensures fits { IfOk result (NextMeets (λ m. ContentFits (received_content m))) }
    ensures sound { IfOk result (NextMeets KeepsEncodings) }
{
    match Message::read_next(alloc, bytes)? {
        NextMessage::Message(message, length) => {
            Ok(NextMessage::Message(Received::Decoded(message), length))
        }
        NextMessage::Short => Ok(NextMessage::Short),
        NextMessage::Broken(fault) => Ok(NextMessage::Broken(fault)),
    }
}
