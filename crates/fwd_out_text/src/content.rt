//! Streams the content of a chunk into a payload: each event is decoded, written and freed before the next.

ghost use Rattle.std.specs.Prelude.{◌≡◌, ◌<◌, ◌++◌, List, ℕ, length, drop, IsTrue, IfOk, IfSome, None};
ghost use Rattle.fwd_event.specs.declared.event.Event.{Event};
ghost use Rattle.fwd_event.specs.Event.{AreEvents, EventFits};
ghost use Rattle.fwd_out_text.specs.FirstEvent.{StartsWithEvent, StartsWithNoEvent};
ghost use Rattle.fwd_out_text.specs.Payload.{record_of, payload_of};

use crate::payload::write_record;
use crate::transcode::write_encoded;
use fwd_base::{Bytes, Memory};
use fwd_event::{Event, event_of};
use fwd_json::PayloadForm;
use fwd_msgpack::{DecodeErr, decode};
use std::alloc::Global;

/// Returns the payload of the events that the bytes encode, in a format; `None` if the bytes aren't a list
/// of events.
pub fn payload_of_content(
    alloc: Global,
    form: PayloadForm,
    tag: &[u8],
    content: &[u8],
) -> Result<Option<Bytes>, Memory>
    ensures given { IfOk result (λ payload. IfSome payload (λ p. (events : List Event) × AreEvents events content.now × (p ≡ payload_of form tag.now events))) }
    ensures none { IfOk result (λ payload. payload ≡ None → (events : List Event) → AreEvents events content.now → ⊥) }
{
    let mut payload = Bytes::new(alloc);
    payload.reserve(content.len())?;
    if write_content(alloc, form, tag, content, &mut payload)? {
        Ok(Some(payload))
    } else {
        Ok(None)
    }
}

/// Appends the text of each event that the bytes encode. Returns false if the bytes aren't a list of
/// events.
fn write_content(
    alloc: Global,
    form: PayloadForm,
    tag: &[u8],
    content: &[u8],
    out: &mut Bytes,
) -> Result<bool, Memory>
    ensures given { IfOk result (λ whole. IsTrue whole → (events : List Event) × AreEvents events content.now × (out.new ≡ out.old ++ payload_of form tag.now events)) }
    ensures none { IfOk result (λ whole. (events : List Event) → AreEvents events content.now → IsTrue whole) }
{
    let mut at = 0;
    while at < content.len() {
        match write_next(alloc, form, tag, content, at, out)? {
            Some(length) => at += length,
            None => return Ok(false),
        }
    }
    Ok(true)
}

/// Appends the text of the event that is encoded at an offset, and returns its encoded length; `None` if
/// there is none.
fn write_next(
    alloc: Global,
    form: PayloadForm,
    tag: &[u8],
    content: &[u8],
    at: usize,
    out: &mut Bytes,
) -> Result<Option<usize>, Memory>
    requires { at < length content.now }
    ensures given { IfOk result (λ found. IfSome found (λ n. (e : Event) × StartsWithEvent e n (drop at content.now) × (out.new ≡ out.old ++ record_of form tag.now e))) }
    ensures none { IfOk result (λ found. found ≡ None → StartsWithNoEvent (drop at content.now)) }
{
    let (_, rest) = content.split_at(at);
    match write_encoded(alloc, form, tag, rest, out)? {
        Some(length) => Ok(Some(length)),
        None => write_read(alloc, form, tag, rest, out),
    }
}

/// Appends the text of the event that the bytes start with, and returns its encoded length; `None` if there
/// is none.
fn write_read(
    alloc: Global,
    form: PayloadForm,
    tag: &[u8],
    bytes: &[u8],
    out: &mut Bytes,
) -> Result<Option<usize>, Memory>
    ensures given { IfOk result (λ found. IfSome found (λ n. (e : Event) × StartsWithEvent e n bytes.now × (out.new ≡ out.old ++ record_of form tag.now e))) }
    ensures none { IfOk result (λ found. found ≡ None → StartsWithNoEvent bytes.now) }
{
    match decode_first(alloc, bytes)? {
        Some((event, length)) => {
            write_record(alloc, form, tag, &event, out)?;
            Ok(Some(length))
        }
        None => Ok(None),
    }
}

/// Decodes the event that the bytes start with, and returns it with its encoded length; `None` if there is
/// none.
fn decode_first(alloc: Global, bytes: &[u8]) -> Result<Option<(Event, usize)>, Memory>
    ensures given { IfOk result (λ found. IfSome found (λ x. StartsWithEvent x.0 x.1 bytes.now)) }
    ensures fits { IfOk result (λ found. IfSome found (λ x. EventFits x.0)) }
    ensures none { IfOk result (λ found. found ≡ None → StartsWithNoEvent bytes.now) }
{
    match decode(alloc, bytes) {
        Ok((value, length)) => match event_of(alloc, value) {
            Some(event) => Ok(Some((event, length as usize))),
            None => Ok(None),
        },
        Err(DecodeErr::Memory) => Err(Memory),
        Err(_) => Ok(None),
    }
}
