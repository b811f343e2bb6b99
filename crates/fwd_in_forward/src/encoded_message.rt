//! Batches whose events are copied into their stored encoding as they are read.

ghost use Rattle.std.specs.Prelude.{IfOk, IfSome};
ghost use Rattle.fwd_wire.specs.Answer.{message, IsAnswer};
ghost use Rattle.fwd_wire.specs.Fits.{ContentFits};
ghost use Rattle.fwd_in_forward.specs.EncodedMessage.{encoded_content, HoldsEncodings};

use crate::encoded_parts::{Acknowledgement, copy_events, read_acknowledgement, split_head};
use fwd_base::limits::LONGEST_MESSAGE;
use fwd_base::{Bytes, Memory};
use fwd_wire::Value;
use std::alloc::Global;

/// A batch of a peer whose events are encoded as a chunk keeps them. The chunk, if there is one, is to be
/// acknowledged once they are accepted.
#[derive(Debug, Drop)]
pub struct EncodedMessage {
    pub tag: Bytes,
    /// How many events there are.
    pub count: usize,
    /// The encodings of the events, one after another.
    pub events: Bytes,
    pub chunk: Option<Value>,
}

/// Reads the message that the bytes start with, if its events can be copied into their stored encoding one
/// by one, and returns it with its length in bytes. `None` says nothing of the bytes: the caller reads them
/// by `read_message`.
pub fn read_encoded(alloc: Global, bytes: &[u8]) -> Result<Option<(EncodedMessage, usize)>, Memory>
    ensures holds { IfOk result (λ found. IfSome found (λ x. HoldsEncodings x.0)) }
    ensures is { IfOk result
        (λ found. IfSome found (λ x. IsAnswer bytes.now (message (encoded_content x.0) x.1))) }
    ensures fits { IfOk result (λ found. IfSome found (λ x. ContentFits (encoded_content x.0))) }
{
    let (front, _) = bytes.split_at(LONGEST_MESSAGE.min(bytes.len()));
    let Some((members, tag, rest)) = split_head(front) else {
        return Ok(None);
    };
    let mut events = Bytes::new(alloc);
    let Some(copied) = copy_events(members, rest, &mut events)? else {
        return Ok(None);
    };
    let Some(ending) = read_acknowledgement(alloc, copied.members, copied.rest)? else {
        return Ok(None);
    };
    let Acknowledgement { chunk, length } = ending;
    let message = EncodedMessage {
        tag: Bytes::from_slice(alloc, tag)?,
        count: copied.count,
        events,
        chunk,
    };
    Ok(Some((message, front.len() - copied.rest.len() + length)))
}
