//! How the next message of a stream is read.

ghost use Rattle.std.specs.Prelude.{IfOk};
ghost use Rattle.fwd_wire.specs.Fits.{ContentFits};
ghost use Rattle.fwd_wire.specs.Message.{MessageContent};
ghost use Rattle.fwd_wire.specs.Representation.{content_of};
ghost use Rattle.fwd_in_forward.specs.NextMessage.{NextIs, NextMeets, TakenAs};

use crate::next_message::NextMessage;
use fwd_base::Memory;
use fwd_wire::{ConnFault, Message, WireErr};
use std::alloc::Global;

/// A form in which a connection returns messages.
pub trait ReadMessage: Drop {
    /// What a message says.
    ghost content: { Self → MessageContent };

    /// What reading guarantees of a message besides.
    ghost IsSound: { Self → Type 0 };

    /// Returns what comes next in bytes.
    fn read_next(alloc: Global, bytes: &[u8]) -> Result<NextMessage<Self>, Memory>
        ensures is { IfOk result (NextIs content bytes.now) }
        // What the message says can be encoded again.
        ensures fits { IfOk result (NextMeets (λ m. ContentFits (content m))) }
        ensures sound { IfOk result (NextMeets IsSound) };
}

impl ReadMessage for Message {
    ghost use Rattle.fwd_wire.specs.Representation.{content_of};

    ghost content = { content_of };

    ghost IsSound = { λ _. Unit {0} };

    fn read_next(alloc: Global, bytes: &[u8]) -> Result<NextMessage<Message>, Memory> {
        next_of(fwd_wire::read_message(alloc, bytes))
    }
}

/// Returns what comes next, by what was read.
fn next_of(read: Result<(Message, u64), WireErr>) -> Result<NextMessage<Message>, Memory>
    ensures { TakenAs read result }
{
    match read {
        Ok((message, length)) => Ok(NextMessage::Message(message, length as usize)),
        Err(WireErr::Short) => Ok(NextMessage::Short),
        Err(WireErr::NotAMessage { .. }) => Ok(NextMessage::Broken(ConnFault::NotAMessage)),
        Err(WireErr::Compressed) => Ok(NextMessage::Broken(ConnFault::Compressed)),
        Err(WireErr::TooLong) => Ok(NextMessage::Broken(ConnFault::TooLong)),
        Err(WireErr::Memory) => Err(Memory),
    }
}
