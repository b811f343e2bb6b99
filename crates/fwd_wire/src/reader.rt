//! Reading of the message at the start of bytes.

ghost use Rattle.std.specs.Prelude.{◌≡◌, ◌⊎◌, ◌↔◌, Some, None, IfOk};
ghost use Rattle.fwd_wire.specs.Answer.{Answer, IsAnswer, front};
ghost use Rattle.fwd_wire.specs.Representation.{HasAnswer, content_of, answer_of, refused_as};
ghost use Rattle.fwd_wire.specs.Fits.{ContentFits};

use crate::parts::message_of;
use crate::{Message, WireErr};
use fwd_base::limits::LONGEST_MESSAGE;
use fwd_msgpack::{DecodeErr, decode};
use std::alloc::Global;

/// Returns the first bytes, at most as many as a message may have.
fn front(bytes: &[u8]) -> &[u8]
    ensures { result.now ≡ front bytes.now }
{
    if bytes.len() <= LONGEST_MESSAGE {
        return bytes;
    }
    let (front, _) = bytes.split_at(LONGEST_MESSAGE);
    front
}

/// Returns the error of this many bytes, if the decoder finds no value in them.
fn decode_error(error: DecodeErr, length: usize) -> WireErr
    ensures { result ≡ refused_as length error }
{
    match error {
        DecodeErr::Short => {
            if length < LONGEST_MESSAGE {
                WireErr::Short
            } else {
                WireErr::TooLong
            }
        }
        DecodeErr::Unused { at } => WireErr::NotAMessage { at },
        DecodeErr::TooDeep { at } => WireErr::NotAMessage { at },
        DecodeErr::Memory => WireErr::Memory,
    }
}

fn read(alloc: Global, bytes: &[u8]) -> Result<(Message, u64), WireErr>
    ensures { HasAnswer bytes.now (answer_of result) }
{
    match decode(alloc, front(bytes)) {
        Ok((value, length)) => {
            let message = message_of(alloc, value)?;
            Ok((message, length))
        }
        Err(error) => Err(decode_error(error, bytes.len())),
    }
}

/// Returns the message at the start of the bytes, and its length in bytes. It takes all three modes and
/// events in their older and newer form; a nil value is an empty message.
pub fn read_message(alloc: Global, bytes: &[u8]) -> Result<(Message, u64), WireErr>
    // Unless memory runs out, the answer is the one that these bytes have.
    ensures answer { (a : Answer) → (answer_of result ≡ None)
        ⊎ ((answer_of result ≡ Some a) ↔ IsAnswer bytes.now a) }
    // What the message says can be encoded again.
    ensures fits { IfOk result (λ x. ContentFits (content_of x.0)) }
{
    read(alloc, bytes)
}
