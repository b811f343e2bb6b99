//! Values, events, JSON and lines.

ghost use Rattle.std.specs.Prelude.{◌≤◌};
ghost use Rattle.fwd_base.specs.Limits.{deepest};
ghost use Rattle.fwd_value.specs.Limits.{nesting, LengthsFit};
ghost use Rattle.fwd_value.specs.View.{val_of};

use fwd_base::{Bytes, Memory};
use fwd_event::{Event, Events, can_write, read_events, whole_prefix, write_event};
use fwd_frames::{Frames, Line, Lines};
use fwd_json::{Floats, json_text, map_text, pairs_of_json};
use fwd_msgpack::{decode, encode};
use fwd_test_rows::put_bytes;
use fwd_value::{Pairs, Value};
use std::alloc::Global;
use std::fmt::Display;

pub fn put_error(out: &mut String, error: &impl Display) -> Result<(), Memory> {
    write!(out, "{error}")?;
    Ok(())
}

/// What is encoded for a value.
fn encode_value(alloc: Global, value: &Value) -> Result<Bytes, Memory>
    requires nested { nesting (val_of value.now) ≤ deepest }
    requires lengths { LengthsFit (val_of value.now) }
{
    let mut out = Bytes::new(alloc);
    encode(value, &mut out)?;
    Ok(out)
}

fn put_encoded(alloc: Global, out: &mut String, value: &Value) -> Result<(), Memory>
    requires nested { nesting (val_of value.now) ≤ deepest }
    requires lengths { LengthsFit (val_of value.now) }
{
    let bytes = encode_value(alloc, value)?;
    put_bytes(out, bytes.as_slice())
}

/// Appends what is encoded for a copy of a value.
fn put_copy(alloc: Global, out: &mut String, value: &Value) -> Result<(), Memory>
    requires { LengthsFit (val_of value.now) }
{
    if !value.nests_within(64) {
        return Ok(());
    }
    let copy = value.try_clone(alloc)?;
    put_encoded(alloc, out, &copy)
}

/// Appends the length of the first value and its canonical encoding, or why there is none.
pub fn put_value(alloc: Global, out: &mut String, bytes: &[u8]) -> Result<(), Memory> {
    match decode(alloc, bytes) {
        Ok((value, length)) => {
            write!(out, "{length} ")?;
            put_copy(alloc, out, &value)
        }
        Err(error) => put_error(out, &error),
    }
}

fn text_of(alloc: Global, floats: Floats, value: &Value) -> Result<Bytes, Memory> {
    let mut text = Bytes::new(alloc);
    json_text(alloc, value, floats, &mut text)?;
    Ok(text)
}

fn put_value_text(
    alloc: Global,
    out: &mut String,
    floats: Floats,
    value: &Value,
) -> Result<(), Memory> {
    let text = text_of(alloc, floats, value)?;
    put_bytes(out, text.as_slice())
}

/// Appends the first value as JSON.
pub fn put_json(
    alloc: Global,
    out: &mut String,
    floats: Floats,
    bytes: &[u8],
) -> Result<(), Memory> {
    match decode(alloc, bytes) {
        Ok((value, _)) => put_value_text(alloc, out, floats, &value),
        Err(error) => put_error(out, &error),
    }
}

fn text_of_pairs(alloc: Global, floats: Floats, pairs: &Pairs) -> Result<Bytes, Memory> {
    let mut text = Bytes::new(alloc);
    map_text(alloc, pairs, floats, &mut text)?;
    Ok(text)
}

/// Appends pairs as JSON.
pub fn put_pairs(
    alloc: Global,
    out: &mut String,
    floats: Floats,
    pairs: &Pairs,
) -> Result<(), Memory> {
    let text = text_of_pairs(alloc, floats, pairs)?;
    put_bytes(out, text.as_slice())
}

/// Appends the pairs of a line of JSON, or why it has none.
pub fn put_object(
    alloc: Global,
    out: &mut String,
    floats: Floats,
    line: &[u8],
) -> Result<(), Memory> {
    match pairs_of_json(alloc, line, floats) {
        Ok(pairs) => put_pairs(alloc, out, floats, &pairs),
        Err(error) => put_error(out, &error),
    }
}

fn push_event(bytes: &mut Bytes, event: &Event) -> Result<(), Memory> {
    if can_write(event) {
        write_event(event, bytes)?;
    }
    Ok(())
}

fn push_events(bytes: &mut Bytes, events: &Events) -> Result<(), Memory> {
    for event in events {
        push_event(bytes, event)?;
    }
    Ok(())
}

fn encode_events(alloc: Global, events: &Events) -> Result<Bytes, Memory> {
    let mut bytes = Bytes::new(alloc);
    push_events(&mut bytes, events)?;
    Ok(bytes)
}

fn put_stored(alloc: Global, out: &mut String, events: &Events) -> Result<(), Memory> {
    let bytes = encode_events(alloc, events)?;
    write!(out, "{} ", events.len())?;
    put_bytes(out, bytes.as_slice())
}

/// Appends the number of events and how a chunk stores them, or why the bytes are no events.
pub fn put_events(alloc: Global, out: &mut String, bytes: &[u8]) -> Result<(), Memory> {
    match read_events(alloc, bytes) {
        Ok(events) => put_stored(alloc, out, &events),
        Err(error) => put_error(out, &error),
    }
}

/// Appends how many events the longest whole prefix has, and how many bytes.
pub fn put_prefix(alloc: Global, out: &mut String, bytes: &[u8]) -> Result<(), Memory> {
    let (events, length) = whole_prefix(alloc, bytes)?;
    write!(out, "{} events, {length} bytes", events.len())?;
    Ok(())
}

fn put_line(out: &mut String, line: &Line) -> Result<(), Memory> {
    out.push_str(if line.cut { " cut:" } else { " " })?;
    put_bytes(out, line.bytes.as_slice())
}

fn put_all_lines(out: &mut String, lines: &Lines) -> Result<(), Memory> {
    for line in lines {
        put_line(out, line)?;
    }
    out.push_str(" /")?;
    Ok(())
}

/// The lines that end in a piece; an empty piece ends the stream.
fn next_lines(reader: &mut Frames, piece: &[u8]) -> Result<Lines, Memory> {
    if piece.is_empty() {
        reader.finish()
    } else {
        reader.feed(piece)
    }
}

fn put_piece(out: &mut String, reader: &mut Frames, piece: &[u8]) -> Result<(), Memory> {
    let lines = next_lines(reader, piece)?;
    put_all_lines(out, &lines)
}

/// Appends the lines that end in each piece.
pub fn put_lines(alloc: Global, out: &mut String, pieces: &[Bytes]) -> Result<(), Memory> {
    let mut reader = Frames::new(alloc);
    for piece in pieces {
        put_piece(out, &mut reader, piece.as_slice())?;
    }
    Ok(())
}
