//! Decoding of events, one after another.

ghost use Rattle.std.specs.Prelude.{◌≡◌, ◌≢◌, ◌⊎◌, ◌↔◌, ◌+◌, ◌≤◌, ◌<◌, ◌^◌, ℕ, List, Option, Some, length, take, drop, Result, Ok, Err, IfOk, IfSome};
ghost use Rattle.fwd_value.specs.Val.{Val, whole, list, mapping, val, no_vals, vals_of, entries_of};
ghost use Rattle.fwd_value.specs.Limits.{entry_nestings};
ghost use Rattle.fwd_msgpack.specs.DecodeAnswers.{EncodesPrefix};
ghost use Rattle.fwd_value.specs.View.{val_of};
ghost use Rattle.fwd_event.specs.Event.{event_time, time_of, event_at, event_with_header, event_of, IsWholePrefix};
ghost use Rattle.fwd_event.specs.declared.errors.EventErr.TheVariants as event_err;
ghost use Rattle.fwd_event.specs.ReadAnswers.{EventsRead, OutcomeAt, IsAnswer, IsMemory};

use crate::writing::{BODY_DEPTH, META_DEPTH};
use crate::{Event, EventErr, Events};
use fwd_base::{Items, Memory};
use fwd_msgpack::{Below, DecodeErr, Pairs, Value, Values, decode};
use std::alloc::Global;

fn event_time(bytes: &[u8]) -> Option<(u32, u32)>
    ensures { result ≡ event_time bytes.now }
{
    if bytes.len() != 8 {
        return None;
    }
    let (sec, nsec) = bytes.split_at(4);
    Some((
        u32::from_be_bytes([sec[0], sec[1], sec[2], sec[3]]),
        u32::from_be_bytes([nsec[0], nsec[1], nsec[2], nsec[3]]),
    ))
}

/// Returns the time that a value encodes, in seconds and nanoseconds.
fn time_of(value: &Value) -> Option<(u32, u32)>
    ensures { result ≡ time_of (val_of value.now) }
{
    match value {
        Value::Uint(n) => {
            if *n < 4_294_967_296 {
                Some((*n as u32, 0))
            } else {
                None
            }
        }
        Value::Ext(kind, bytes) => {
            if *kind == 0 {
                event_time(bytes.as_slice())
            } else {
                None
            }
        }
        Value::Neg(n) => no_time_below_zero(n),
        Value::Nil
        | Value::Truth(_)
        | Value::Text(_)
        | Value::Bin(_)
        | Value::Float32(_)
        | Value::Float64(_)
        | Value::List(_)
        | Value::Map(_) => None,
    }
}

/// Returns no time for a negative number.
#[tactic(auto, using(crate::proofs::EventParts::time_below))]
fn no_time_below_zero(n: &Below) -> Option<(u32, u32)>
    ensures { result ≡ time_of (whole n.now) }
{
    let _below_zero = n.get();
    None
}

/// Builds an event if there is a time.
#[tactic(auto, using(crate::proofs::EventParts::pairs_back))]
fn event_at(moment: Option<(u32, u32)>, meta: Pairs, body: Pairs) -> Option<Event>
    ensures { result ≡ event_at moment (entries_of meta) (entries_of body) }
{
    match moment {
        Some((sec, nsec)) => Some(Event {
            sec,
            nsec,
            meta,
            body,
        }),
        None => None,
    }
}

/// Builds the event of a time, metadata and a record.
fn event_with_meta(time: Value, meta: Value, body: Pairs) -> Option<Event>
    ensures { result
        ≡ event_with_header (list (val (val_of time) (val (val_of meta) no_vals))) (entries_of body) }
{
    let Value::Map(meta) = meta else {
        return None;
    };
    event_at(time_of(&time), meta, body)
}

#[tactic(auto, using(crate::proofs::EventParts::no_head))]
fn event_with_parts(mut head: Values, body: Pairs) -> Option<Event>
    ensures { result ≡ event_with_header (list (vals_of head)) (entries_of body) }
{
    if head.len() != 2 {
        return None;
    }
    let meta = head.remove(1);
    let time = head.remove(0);
    event_with_meta(time, meta, body)
}

/// Builds the event of a header and a record.
fn event_with_header(alloc: Global, head: Value, body: Pairs) -> Option<Event>
    ensures { result ≡ event_with_header (val_of head) (entries_of body) }
{
    match head {
        Value::List(parts) => event_with_parts(parts, body),
        time => event_at(time_of(&time), Pairs::new(alloc), body),
    }
}

/// Builds the event of a header and a record: a time, or a list of a time and metadata, and a map. Returns
/// `None` if they have another form.
pub fn event_of_two(alloc: Global, head: Value, body: Value) -> Option<Event>
    ensures { result ≡ event_of (list (val (val_of head) (val (val_of body) no_vals))) }
{
    let Value::Map(body) = body else {
        return None;
    };
    event_with_header(alloc, head, body)
}

#[tactic(auto, using(crate::proofs::EventParts::not_two_parts))]
fn event_of_list(alloc: Global, mut values: Values) -> Option<Event>
    ensures { result ≡ event_of (list (vals_of values)) }
{
    if values.len() != 2 {
        return None;
    }
    let body = values.remove(1);
    let head = values.remove(0);
    event_of_two(alloc, head, body)
}

/// Converts a value to an event, from either format. Returns `None` if it isn't one.
pub fn event_of(alloc: Global, value: Value) -> Option<Event>
    ensures { result ≡ event_of (val_of value) }
{
    let Value::List(values) = value else {
        return None;
    };
    event_of_list(alloc, values)
}

/// Decodes the event at the beginning of the bytes, and returns it and its length in bytes. `place` is the
/// offset of the bytes, for errors.
fn decode_event(alloc: Global, bytes: &[u8], place: u64) -> Result<(Event, usize), EventErr>
    requires { place + length bytes.now < 2 ^ 64 }
    ensures { OutcomeAt place bytes.now result }
{
    match decode(alloc, bytes) {
        Ok((value, length)) => match event_of(alloc, value) {
            Some(event) => Ok((event, length as usize)),
            None => Err(EventErr::NotAnEvent { at: place }),
        },
        Err(DecodeErr::Short) => Err(EventErr::Short),
        Err(DecodeErr::Unused { at: behind }) => Err(EventErr::Unused { at: place + behind }),
        Err(DecodeErr::TooDeep { at: behind }) => Err(EventErr::TooDeep { at: place + behind }),
        Err(DecodeErr::Memory) => Err(EventErr::Memory),
    }
}

/// The encoding of an empty map.
const EMPTY_MAP: u8 = 0x80;

/// Decodes the map at the beginning of the bytes, and returns its pairs and its length in bytes. Returns
/// `None` if there is no map, or its keys and values are nested more than `depth` deep.
fn decode_map(alloc: Global, bytes: &[u8], depth: u64) -> Option<(Pairs, usize)>
    ensures { IfSome result (λ x. EncodesPrefix (mapping (entries_of x.0)) x.1 bytes.now
        × (entry_nestings (entries_of x.0) ≤ depth)) }
{
    if let [EMPTY_MAP, ..] = bytes {
        return Some((Pairs::new(alloc), 1));
    }
    let Ok((value, length)) = decode(alloc, bytes) else {
        return None;
    };
    let Value::Map(pairs) = value else {
        return None;
    };
    if pairs.nest_within(depth) {
        Some((pairs, length as usize))
    } else {
        None
    }
}

/// Decodes the event at the beginning of the bytes if it is in the format that `write_event` writes. This is
/// faster, since it builds no value for the enclosing lists.
fn decode_written(alloc: Global, bytes: &[u8]) -> Option<(Event, usize)>
    ensures { IfSome result (λ x. (v : Val) × EncodesPrefix v x.1 bytes.now × (event_of v ≡ Some x.0)) }
{
    let [0x92, 0x92, 0xd7, 0x00, parts @ ..] = bytes else {
        return None;
    };
    if parts.len() < 8 {
        return None;
    }
    let (time, maps) = parts.split_at(8);
    let (sec, nsec) = event_time(time)?;
    let (meta, meta_length) = decode_map(alloc, maps, META_DEPTH)?;
    let (_, last) = maps.split_at(meta_length);
    let (body, body_length) = decode_map(alloc, last, BODY_DEPTH)?;
    let event = Event {
        sec,
        nsec,
        meta,
        body,
    };
    Some((event, 12 + meta_length + body_length))
}

/// Decodes the event at the beginning of the bytes, in any format, and returns it and its length in bytes.
/// `place` is the offset of the bytes, for errors.
fn decode_any_event(alloc: Global, bytes: &[u8], place: u64) -> Result<(Event, usize), EventErr>
    requires { place + length bytes.now < 2 ^ 64 }
    ensures { OutcomeAt place bytes.now result }
{
    match decode_written(alloc, bytes) {
        Some(found) => Ok(found),
        None => decode_event(alloc, bytes, place),
    }
}

/// Decodes the event at an offset, and returns it and its length in bytes.
fn next_event(alloc: Global, bytes: &[u8], at: usize) -> Result<(Event, usize), EventErr>
    requires { at < length bytes.now }
    ensures { OutcomeAt at (drop at bytes.now) result }
{
    let (_, rest) = bytes.split_at(at);
    decode_any_event(alloc, rest, at as u64)
}

/// Decodes bytes that are a list of events. Accepts both formats, and any encoding of an EventTime.
pub fn read_events(alloc: Global, bytes: &[u8]) -> Result<Events, EventErr>
    // Unless memory is out, the answer is the one for these bytes.
    ensures { (answer : EventsRead) → IsMemory result ⊎ ((result ≡ answer) ↔ IsAnswer answer bytes.now) }
{
    let mut events = Items::new(alloc);
    let mut at = 0;
    while at < bytes.len() {
        let (event, length) = next_event(alloc, bytes, at)?;
        events.push(event)?;
        at += length;
    }
    Ok(events)
}

/// Returns the events before an error, or the error if memory is out.
fn events_unless_memory(events: Events, at: u64, error: EventErr) -> Result<(Events, u64), Memory>
    ensures { IfOk result (λ x. (x.0 ≡ events) × (x.1 ≡ at) × (error ≢ event_err.Memory)) }
{
    match error {
        EventErr::Memory => Err(Memory),
        EventErr::Short
        | EventErr::Unused { .. }
        | EventErr::TooDeep { .. }
        | EventErr::NotAnEvent { .. } => Ok((events, at)),
    }
}

/// Decodes the longest prefix of the bytes that is a list of events. Returns the events and its length in
/// bytes.
pub fn whole_prefix(alloc: Global, bytes: &[u8]) -> Result<(Events, u64), Memory>
    ensures { IfOk result (λ x. IsWholePrefix x.0 x.1 bytes.now) }
{
    let mut events = Items::new(alloc);
    let mut at = 0;
    while at < bytes.len() {
        match next_event(alloc, bytes, at) {
            Ok((event, length)) => {
                events.push(event)?;
                at += length;
            }
            Err(error) => return events_unless_memory(events, at as u64, error),
        }
    }
    Ok((events, at as u64))
}
