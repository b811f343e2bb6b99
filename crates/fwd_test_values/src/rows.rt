//! What each operation prints.

use crate::bodies::{put_gathered, put_kept, put_lifted, put_modified, put_modified_if};
use crate::encoded::{put_events, put_json, put_lines, put_object, put_prefix, put_value};
use crate::parsed::{put_clock, put_parsed, put_time};
use crate::patterns::{put_captures, put_size};
use fwd_base::{Bytes, Memory};
use fwd_json::Floats;
use fwd_route::matches as takes;
use fwd_test_rows::{argument, arguments, put_word};
use std::alloc::Global;

fn put_of_bytes(
    alloc: Global,
    out: &mut String,
    word: &str,
    floats: Floats,
    bytes: &[u8],
) -> Result<(), Memory> {
    match word {
        "value" => put_value(alloc, out, bytes),
        "json" => put_json(alloc, out, floats, bytes),
        "events" => put_events(alloc, out, bytes),
        "prefix" => put_prefix(alloc, out, bytes),
        "object" => put_object(alloc, out, floats, bytes),
        "clock" => put_clock(alloc, out, bytes),
        _ => put_size(out, bytes),
    }
}

fn put_of_two(
    alloc: Global,
    out: &mut String,
    word: &str,
    first: &[u8],
    second: &[u8],
) -> Result<(), Memory> {
    match word {
        "glob" => put_word(out, takes(first, second), "matches", "no match"),
        "pattern" => put_captures(alloc, out, first, second),
        _ => put_time(out, first, second),
    }
}

fn put_of_body(
    alloc: Global,
    out: &mut String,
    word: &str,
    floats: Floats,
    arguments: &[Bytes],
) -> Result<(), Memory> {
    match word {
        "modify" => put_modified(alloc, out, arguments),
        "if" => put_modified_if(alloc, out, arguments),
        "nest" => put_gathered(alloc, out, arguments),
        "lift" => put_lifted(alloc, out, arguments),
        "grep" => put_kept(alloc, out, floats, arguments),
        _ => put_parsed(alloc, out, floats, arguments),
    }
}

/// Returns the operation of a row. After it, the row may say that floats are numbers in JSON.
fn operation(word: &str) -> (&str, Floats) {
    match word.split_once(' ') {
        Some((word, "floats")) => (word, Floats::Numbers),
        Some(_) | None => (word, Floats::Tagged),
    }
}

/// Appends what comes of an operation; the row itself if it begins with none.
fn put_answer(
    alloc: Global,
    out: &mut String,
    row: &str,
    arguments: &[Bytes],
) -> Result<(), Memory> {
    let (word, floats) = operation(str::from_utf8(argument(arguments, 0)).unwrap_or(""));
    let first = argument(arguments, 1);
    let second = argument(arguments, 2);
    match word {
        "value" | "json" | "events" | "prefix" | "object" | "clock" | "size" => {
            put_of_bytes(alloc, out, word, floats, first)
        }
        "glob" | "pattern" | "time" => put_of_two(alloc, out, word, first, second),
        "modify" | "if" | "nest" | "lift" | "grep" | "parse" => {
            put_of_body(alloc, out, word, floats, arguments)
        }
        "lines" => put_lines(alloc, out, arguments.get(1..).unwrap_or(&[])),
        _ => Ok(out.push_str(row)?),
    }
}

fn put_row(alloc: Global, out: &mut String, row: &str) -> Result<(), Memory> {
    let arguments = arguments(alloc, row)?;
    put_answer(alloc, out, row, arguments.as_slice())
}

/// What comes of a row.
pub fn answer(alloc: Global, row: &str) -> Result<String, Memory> {
    let mut out = String::new(alloc);
    put_row(alloc, &mut out, row)?;
    Ok(out)
}
