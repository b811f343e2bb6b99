//! Arguments of rows.

use fwd_base::{Bytes, Memory, Names};
use std::alloc::Global;

/// The value of a hex digit in lower case; 0 for any other byte.
fn hex_value(digit: u8) -> u8 {
    match digit {
        b'0'..=b'9' => digit - b'0',
        b'a'..=b'f' => digit - b'a' + 10,
        _ => 0,
    }
}

/// Appends the byte that two hex digits denote, and the text after them.
fn push_coded(bytes: &mut Bytes, text: &str) -> Result<(), Memory> {
    match text.as_bytes() {
        [high, low, rest @ ..] => {
            bytes.push(
                hex_value(*high)
                    .wrapping_mul(16)
                    .wrapping_add(hex_value(*low)),
            )?;
            bytes.extend_from_slice(rest)
        }
        _ => Ok(()),
    }
}

/// Appends a text with its coded bytes.
fn push_text(bytes: &mut Bytes, text: &str) -> Result<(), Memory> {
    for (place, piece) in text.split('~').enumerate() {
        if place == 0 {
            bytes.extend_from_slice(piece.as_bytes())?;
        } else {
            push_coded(bytes, piece)?;
        }
    }
    Ok(())
}

fn decode(alloc: Global, text: &str) -> Result<Bytes, Memory> {
    let mut bytes = Bytes::new(alloc);
    push_text(&mut bytes, text)?;
    Ok(bytes)
}

fn push_often(bytes: &mut Bytes, count: u32, text: &[u8]) -> Result<(), Memory> {
    for _ in 0..count {
        bytes.extend_from_slice(text)?;
    }
    Ok(())
}

/// Appends the text of a part `COUNT TEXT` as often as it says.
fn push_repeated(alloc: Global, bytes: &mut Bytes, part: &str) -> Result<(), Memory> {
    let (count, text) = part.split_once(' ').unwrap_or(("0", ""));
    let text = decode(alloc, text)?;
    push_often(bytes, count.parse::<u32>().unwrap_or(0), text.as_slice())
}

fn push_parts(alloc: Global, bytes: &mut Bytes, argument: &str) -> Result<(), Memory> {
    for (place, part) in argument.split('¦').enumerate() {
        if place % 2 == 0 {
            push_text(bytes, part)?;
        } else {
            push_repeated(alloc, bytes, part)?;
        }
    }
    Ok(())
}

/// The bytes that an argument denotes.
fn bytes_of(alloc: Global, argument: &str) -> Result<Bytes, Memory> {
    let mut bytes = Bytes::new(alloc);
    push_parts(alloc, &mut bytes, argument)?;
    Ok(bytes)
}

fn push_argument(alloc: Global, all: &mut Names, argument: &str) -> Result<(), Memory> {
    let bytes = bytes_of(alloc, argument)?;
    all.push(bytes)
}

fn push_arguments(alloc: Global, all: &mut Names, row: &str) -> Result<(), Memory> {
    for argument in row.split('|') {
        push_argument(alloc, all, argument)?;
    }
    Ok(())
}

/// The operation of a row and its arguments.
pub fn arguments(alloc: Global, row: &str) -> Result<Names, Memory> {
    let mut all = Names::new(alloc);
    push_arguments(alloc, &mut all, row)?;
    Ok(all)
}

/// The argument at a place; empty if the row has fewer.
pub fn argument(all: &[Bytes], place: usize) -> &[u8] {
    match all.get(place) {
        Some(bytes) => bytes.as_slice(),
        None => &[],
    }
}
