//! Copies of encoded events in their stored encoding.

ghost use Rattle.std.specs.Prelude.{◌≡◌, ◌≤◌, ◌<◌, ◌^◌, ◌++◌, ◌∷◌, IfOk, IfSome, OnOk, OnErr};
ghost use Rattle.std.specs.Int.{w32, to_be_bytes};
ghost use Rattle.fwd_base.specs.Limits.{deepest};
ghost use Rattle.fwd_msgpack.specs.KeptFront.{KeepsFront};
ghost use Rattle.fwd_transcode.specs.Events.{StartsWithEventTime, StartsWithTime, TranscodesEvent, TranscodesSingle, TranscodesEntries, TranscodesEvents};

use crate::value::transcode_record;
use fwd_base::limits::DEEPEST;
use fwd_base::{Bytes, Memory};
use fwd_msgpack::{Form, form_of, number_at, put_byte, put_bytes};

/// The deepest nesting of an entry, which stands in two lists of its message.
const ENTRY_DEPTH: u32 = DEEPEST - 2;

/// Returns the seconds and the nanoseconds of the EventTime whose eight bytes come first, and the bytes after
/// them.
fn split_event_time(bytes: &[u8]) -> Option<(u32, u32, &[u8])>
    ensures read { IfSome result (λ x. StartsWithEventTime x.0 x.1 x.2.now bytes.now) }
    ensures range { IfSome result (λ x. (x.0 < 2 ^ 32) × (x.1 < 2 ^ 32)) }
{
    if bytes.len() < 8 {
        return None;
    }
    let (time, rest) = bytes.split_at(8);
    let sec = u32::from_be_bytes([time[0], time[1], time[2], time[3]]);
    let nsec = u32::from_be_bytes([time[4], time[5], time[6], time[7]]);
    Some((sec, nsec, rest))
}

/// Returns the time of an EventTime with the header of an extension of eight bytes, and the bytes after it.
fn split_short_time(bytes: &[u8]) -> Option<(u32, u32, &[u8])>
    ensures read { IfSome result (λ x. StartsWithTime x.0 x.1 x.2.now bytes.now) }
    ensures range { IfSome result (λ x. (x.0 < 2 ^ 32) × (x.1 < 2 ^ 32)) }
{
    let [0xd7, 0x00, time @ ..] = bytes else {
        return None;
    };
    split_event_time(time)
}

/// Returns the time of an EventTime with the header of an extension whose length is in a byte, and the bytes
/// after it.
fn split_long_time(bytes: &[u8]) -> Option<(u32, u32, &[u8])>
    ensures read { IfSome result (λ x. StartsWithTime x.0 x.1 x.2.now bytes.now) }
    ensures range { IfSome result (λ x. (x.0 < 2 ^ 32) × (x.1 < 2 ^ 32)) }
{
    let [0xc7, 0x08, 0x00, time @ ..] = bytes else {
        return None;
    };
    split_event_time(time)
}

/// Returns the whole seconds in a number of one byte or more after the first, and the bytes after them.
fn split_uint(bytes: &[u8]) -> Option<(u32, &[u8])>
    ensures read { IfSome result (λ x. StartsWithTime x.0 0 x.1.now bytes.now) }
    ensures range { IfSome result (λ x. x.0 < 2 ^ 32) }
{
    let [first, rest @ ..] = bytes else {
        return None;
    };
    let Form::Uint(width) = form_of(*first) else {
        return None;
    };
    let (n, rest) = number_at(rest, width)?;
    if n < 4_294_967_296 {
        Some((n as u32, rest))
    } else {
        None
    }
}

/// Returns the whole seconds that the bytes start with, and the bytes after them.
fn split_seconds(bytes: &[u8]) -> Option<(u32, &[u8])>
    ensures read { IfSome result (λ x. StartsWithTime x.0 0 x.1.now bytes.now) }
    ensures range { IfSome result (λ x. x.0 < 2 ^ 32) }
{
    let [first, rest @ ..] = bytes else {
        return None;
    };
    match *first {
        0x00..=0x7f => Some((*first as u32, rest)),
        _ => split_uint(bytes),
    }
}

/// Returns the seconds and the nanoseconds of the time that the bytes start with, and the bytes after it.
fn split_time(bytes: &[u8]) -> Option<(u32, u32, &[u8])>
    ensures read { IfSome result (λ x. StartsWithTime x.0 x.1 x.2.now bytes.now) }
    ensures range { IfSome result (λ x. (x.0 < 2 ^ 32) × (x.1 < 2 ^ 32)) }
{
    match bytes {
        [0xd7, ..] => split_short_time(bytes),
        [0xc7, ..] => split_long_time(bytes),
        _ => {
            let (sec, rest) = split_seconds(bytes)?;
            Some((sec, 0, rest))
        }
    }
}

/// Appends the bytes of an event before its metadata.
fn put_time(sec: u32, nsec: u32, out: &mut Bytes) -> Result<(), Memory>
    ensures ok { OnOk result (out.new
        ≡ out.old ++ 146 ∷ 146 ∷ 215 ∷ 0 ∷ (to_be_bytes w32 sec ++ to_be_bytes w32 nsec)) }
    ensures err { OnErr result (KeepsFront out.old out.new) }
{
    let [a, b, c, d] = sec.to_be_bytes();
    let [e, f, g, h] = nsec.to_be_bytes();
    put_bytes(
        out,
        [0x92, 0x92, 0xd7, 0x00, a, b, c, d, e, f, g, h].as_slice(),
    )
}

/// Copies the event of a time, metadata and a record, given by the bytes after the headers of its two lists.
fn transcode_with_meta<'b>(
    bytes: &'b [u8],
    depth: u32,
    out: &mut Bytes,
) -> Result<Option<&'b [u8]>, Memory>
    requires { (2 < depth) × (depth ≤ deepest) }
    ensures given { IfOk result (λ found. IfSome found (λ rest.
        TranscodesEvent depth rest.now (146 ∷ 146 ∷ bytes.now) out.old out.new)) }
    ensures kept { KeepsFront out.old out.new }
{
    let Some((sec, nsec, maps)) = split_time(bytes) else {
        return Ok(None);
    };
    put_time(sec, nsec, out)?;
    let Some(last) = transcode_record(maps, depth - 2, out)? else {
        return Ok(None);
    };
    transcode_record(last, depth - 1, out)
}

/// Copies the event of a time and a record, given by the bytes of both.
fn transcode_without_meta<'b>(
    bytes: &'b [u8],
    depth: u32,
    out: &mut Bytes,
) -> Result<Option<&'b [u8]>, Memory>
    requires { (0 < depth) × (depth ≤ deepest) }
    ensures given { IfOk result (λ found. IfSome found (λ rest.
        TranscodesSingle depth rest.now bytes.now out.old out.new)) }
    ensures kept { KeepsFront out.old out.new }
{
    let Some((sec, nsec, last)) = split_time(bytes) else {
        return Ok(None);
    };
    put_time(sec, nsec, out)?;
    put_byte(out, 0x80)?;
    transcode_record(last, depth - 1, out)
}

/// Copies an event, given by the bytes after the header of its list.
fn transcode_parts<'b>(
    bytes: &'b [u8],
    depth: u32,
    out: &mut Bytes,
) -> Result<Option<&'b [u8]>, Memory>
    requires { (2 < depth) × (depth ≤ deepest) }
    ensures given { IfOk result (λ found. IfSome found (λ rest.
        TranscodesEvent depth rest.now (146 ∷ bytes.now) out.old out.new)) }
    ensures kept { KeepsFront out.old out.new }
{
    match bytes {
        [0x92, time @ ..] => transcode_with_meta(time, depth, out),
        _ => transcode_without_meta(bytes, depth, out),
    }
}

/// Copies an event whose value is nested at most `depth` deep.
fn transcode_nested<'b>(
    bytes: &'b [u8],
    depth: u32,
    out: &mut Bytes,
) -> Result<Option<&'b [u8]>, Memory>
    requires { (2 < depth) × (depth ≤ deepest) }
    ensures given { IfOk result (λ found. IfSome found (λ rest.
        TranscodesEvent depth rest.now bytes.now out.old out.new)) }
    ensures kept { KeepsFront out.old out.new }
{
    let [0x92, parts @ ..] = bytes else {
        return Ok(None);
    };
    transcode_parts(parts, depth, out)
}

/// Appends the stored encoding of the event of the time and the record that the bytes start with, one after
/// the other, and returns the bytes after them. Both are members of a message, so the record is nested at most
/// 63 deep. Returns `None` if the bytes start with no time and record, if the record is nested deeper, or if
/// the time is neither an EventTime with the header 0xd7 or 0xc7 0x08, nor a whole number of at most 32 bits in
/// an unsigned form; `out` may then end in an unfinished event.
pub fn transcode_single<'b>(bytes: &'b [u8], out: &mut Bytes) -> Result<Option<&'b [u8]>, Memory>
    ensures given { IfOk result (λ found. IfSome found (λ rest.
        TranscodesSingle deepest rest.now bytes.now out.old out.new)) }
    ensures kept { KeepsFront out.old out.new }
{
    transcode_without_meta(bytes, DEEPEST, out)
}

/// Appends the stored encodings of the `count` events that the bytes start with, and returns the bytes after
/// them. The events are entries of a message, so each is nested at most 62 deep. Returns `None` if the bytes
/// start with fewer events, if one of them is nested deeper, if the header of one of an event's two lists isn't
/// the byte 0x92, or if a time is neither an EventTime with the header 0xd7 or 0xc7 0x08, nor a whole number of
/// at most 32 bits in an unsigned form; `out` may then end in some of the events and in an unfinished one.
pub fn transcode_entries<'b>(
    count: usize,
    bytes: &'b [u8],
    out: &mut Bytes,
) -> Result<Option<&'b [u8]>, Memory>
    ensures given { IfOk result (λ found. IfSome found (λ rest.
        TranscodesEntries count rest.now bytes.now out.old out.new)) }
    ensures kept { KeepsFront out.old out.new }
{
    let mut rest = bytes;
    for _ in 0..count {
        let Some(behind) = transcode_nested(rest, ENTRY_DEPTH, out)? else {
            return Ok(None);
        };
        rest = behind;
    }
    Ok(Some(rest))
}

/// Appends the stored encodings of the events that the bytes are, one after another, and returns their number.
/// Returns `None` if the bytes aren't events, if one of them is nested more than 64 deep, if the header of one
/// of an event's two lists isn't the byte 0x92, or if a time is neither an EventTime with the header 0xd7 or
/// 0xc7 0x08, nor a whole number of at most 32 bits in an unsigned form; `out` may then end in some of the
/// events and in an unfinished one.
pub fn transcode_packed(bytes: &[u8], out: &mut Bytes) -> Result<Option<usize>, Memory>
    ensures given { IfOk result (λ found. IfSome found (λ count.
        TranscodesEvents count bytes.now out.old out.new)) }
    ensures kept { KeepsFront out.old out.new }
{
    let mut rest = bytes;
    let mut count = 0;
    while !rest.is_empty() {
        let Some(behind) = transcode_nested(rest, DEEPEST, out)? else {
            return Ok(None);
        };
        rest = behind;
        // Each event has at least one byte.
        prove!(count < bytes.len());
        count += 1;
    }
    Ok(Some(count))
}
