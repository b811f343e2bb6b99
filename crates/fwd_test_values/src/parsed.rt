//! Lines and their events, and times by their formats.

use crate::encoded::{put_error, put_pairs};
use fwd_base::{Bytes, Memory, Pattern, PatternErr};
use fwd_event::{Event, can_write, write_event};
use fwd_parser::{FieldType, FieldTypes, Floats, Parser, Shape, TimeRule, TypeKind, time_of};
use fwd_test_rows::argument;
use std::alloc::Global;

/// The clock of the rows `parse`, in milliseconds.
const NOW: u64 = 7_250;

fn kind(word: &str) -> TypeKind {
    match word {
        "integer" => TypeKind::Integer,
        "hex" => TypeKind::Hex,
        "bool" => TypeKind::Bool,
        "float" => TypeKind::Float,
        _ => TypeKind::Text,
    }
}

fn push_type(alloc: Global, types: &mut FieldTypes, key: &str, name: &str) -> Result<(), Memory> {
    let key = Bytes::from_slice(alloc, key.as_bytes())?;
    let kind = kind(name);
    types.push(FieldType { key, kind })
}

/// The types of words `KEY:TYPE`.
fn types(alloc: Global, words: &[u8]) -> Result<FieldTypes, Memory> {
    let mut types = FieldTypes::new(alloc);
    for word in str::from_utf8(words).unwrap_or("").split(' ') {
        if let Some((key, name)) = word.split_once(':') {
            push_type(alloc, &mut types, key, name)?;
        }
    }
    Ok(types)
}

fn groups(alloc: Global, pattern: &[u8], words: &[u8], skip: &[u8]) -> Result<Shape, PatternErr> {
    let types = types(alloc, words)?;
    Ok(Shape::Groups {
        pattern: Pattern::new(alloc, pattern)?,
        types,
        skip_empty: skip != b"keep".as_slice(),
    })
}

fn shape(alloc: Global, format: &[u8], words: &[u8], skip: &[u8]) -> Result<Shape, PatternErr> {
    match str::from_utf8(format).unwrap_or("") {
        "none" => Ok(Shape::Plain),
        "json" => Ok(Shape::Json),
        _ => groups(alloc, format, words, skip),
    }
}

fn time_rule(alloc: Global, key: &[u8], format: &[u8], keep: bool) -> Result<TimeRule, Memory> {
    let key = Bytes::from_slice(alloc, key)?;
    Ok(TimeRule {
        key,
        format: Bytes::from_slice(alloc, format)?,
        keep,
    })
}

/// The rule for the time; none without a key.
fn time(alloc: Global, key: &[u8], format: &[u8], keep: &[u8]) -> Result<Option<TimeRule>, Memory> {
    if key.is_empty() {
        return Ok(None);
    }
    Ok(Some(time_rule(alloc, key, format, keep == b"keep".as_slice())?))
}

fn parser(alloc: Global, floats: Floats, row: &[Bytes]) -> Result<Parser, PatternErr> {
    let shape = shape(alloc, argument(row, 1), argument(row, 2), argument(row, 3))?;
    Ok(Parser {
        shape,
        time: time(alloc, argument(row, 4), argument(row, 5), argument(row, 6))?,
        floats,
    })
}

fn put_event(alloc: Global, out: &mut String, floats: Floats, event: &Event) -> Result<(), Memory> {
    write!(out, "{} {} ", event.sec, event.nsec)?;
    put_pairs(alloc, out, floats, &event.body)
}

/// Returns the encoding of an event; nothing if it can't be encoded.
fn encoding(alloc: Global, event: &Event) -> Result<Bytes, Memory> {
    let mut bytes = Bytes::new(alloc);
    if can_write(event) {
        write_event(event, &mut bytes)?;
    }
    Ok(bytes)
}

/// Returns whether a reader writes the event of a line as its encoding.
fn is_written_alike(
    alloc: Global,
    parser: &Parser,
    line: &[u8],
    now: u64,
    event: &Event,
) -> Result<bool, Memory> {
    let mut bytes = Bytes::new(alloc);
    let mut reader = parser.reader(alloc)?;
    let written = reader.write(alloc, Bytes::from_slice(alloc, line)?, now, &mut bytes)?;
    Ok(written == can_write(event) && bytes == encoding(alloc, event)?)
}

/// Appends the event of a line, and tells it if the reader writes another one.
fn put_read(
    alloc: Global,
    out: &mut String,
    parser: &Parser,
    line: &[u8],
    now: u64,
) -> Result<(), Memory> {
    let event = parser.parse(alloc, line, now)?;
    if !is_written_alike(alloc, parser, line, now, &event)? {
        out.push_str("written otherwise ")?;
    }
    put_event(alloc, out, parser.floats, &event)
}

/// `parse|FORMAT|TYPES|EMPTY|KEY|TIME|KEEP|LINE`: the event of a line. FORMAT is `none`, `json` or a pattern;
/// EMPTY and KEEP are `keep` or empty.
pub fn put_parsed(
    alloc: Global,
    out: &mut String,
    floats: Floats,
    row: &[Bytes],
) -> Result<(), Memory> {
    match parser(alloc, floats, row) {
        Ok(parser) => put_read(alloc, out, &parser, argument(row, 7), NOW),
        Err(error) => put_error(out, &error),
    }
}

/// Appends the event of an empty line at a reading of the clock.
pub fn put_clock(alloc: Global, out: &mut String, reading: &[u8]) -> Result<(), Memory> {
    let parser = Parser {
        shape: Shape::Plain,
        time: None,
        floats: Floats::Tagged,
    };
    let now = fwd_base::number(reading).unwrap_or(0);
    put_read(alloc, out, &parser, b"", now)
}

/// Appends the seconds and nanoseconds of a text under a format.
pub fn put_time(out: &mut String, format: &[u8], text: &[u8]) -> Result<(), Memory> {
    match time_of(format, text) {
        Some((seconds, nanos)) => write!(out, "{seconds} {nanos}")?,
        None => out.push_str("no time")?,
    }
    Ok(())
}
