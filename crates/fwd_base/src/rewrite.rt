//! Translation of a pattern of the configuration into the syntax of the `regex` crate.

ghost use Rattle.std.specs.Prelude.{◌≡◌, ◌≤◌, ◌++◌, length, drop, IfOk, OnOk};
ghost use Rattle.fwd_base.specs.Pattern.{after_byte, after_escape, begins_name, opens_named, escaped, without_slashes, translated_from, translated};

use crate::{Bytes, Memory};
use std::alloc::Global;

/// The position of the reader relative to a character class.
#[derive(Clone, Copy)]
pub enum Position {
    /// Outside any class.
    Outside,

    /// At the first character of a class.
    First,

    /// Further inside a class.
    Inside,
}

impl Position {
    /// Returns the position after a byte.
    fn after_byte(self, byte: u8) -> Position
        ensures { result ≡ after_byte self byte }
    {
        match self {
            Position::Outside if byte == b'[' => Position::First,
            Position::Outside => Position::Outside,
            Position::Inside if byte == b']' => Position::Outside,
            Position::First | Position::Inside => Position::Inside,
        }
    }

    /// Returns the position after a backslash and the byte that it escapes.
    fn after_escape(self) -> Position
        ensures { result ≡ after_escape self }
    {
        match self {
            Position::Outside => Position::Outside,
            Position::First | Position::Inside => Position::Inside,
        }
    }
}

/// Returns whether the bytes begin with `<` and a letter or `_`.
fn begins_name(bytes: &[u8]) -> bool
    ensures { result ≡ begins_name bytes.now }
{
    match bytes {
        [b'<', start, ..] => start.is_ascii_alphabetic() || *start == b'_',
        _ => false,
    }
}

/// Returns whether these bytes open a named group.
fn opens_named(place: Position, first: u8, second: u8, more: &[u8]) -> bool
    ensures { result ≡ opens_named place first second more.now }
{
    match place {
        Position::Outside => first == b'(' && second == b'?' && begins_name(more),
        Position::First | Position::Inside => false,
    }
}

/// Returns the text between two slashes if the pattern is enclosed in them, else the whole text.
fn without_slashes(text: &[u8]) -> &[u8]
    ensures { result.now ≡ without_slashes text.now }
{
    match text {
        [b'/', between @ .., b'/'] => between,
        _ => text,
    }
}

/// Translates a pattern: removes enclosing slashes and, outside classes, replaces `(?<` of a named group by
/// `(?P<`, and an escaped `<` or `>` by the character itself.
pub fn translate(alloc: Global, text: &[u8]) -> Result<Bytes, Memory>
    ensures { IfOk result (λ bytes. bytes ≡ translated text.now) }
{
    let text = without_slashes(text);
    let mut bytes = Bytes::new(alloc);
    let mut place = Position::Outside;
    let mut at = 0;
    while at + 2 <= text.len() {
        let (taken, next) = push_translated(&mut bytes, place, &text[at..])?;
        place = next;
        at += taken;
    }
    bytes.extend_from_slice(&text[at..])?;
    Ok(bytes)
}

/// Appends the translation of the first one or two bytes of a text. Returns how many bytes it took and the
/// position after them.
fn push_translated(
    bytes: &mut Bytes,
    place: Position,
    text: &[u8],
) -> Result<(usize, Position), Memory>
    requires { 2 ≤ length text.now }
    ensures within { IfOk result (λ step. (1 ≤ step.0) × (step.0 ≤ 2)) }
    ensures written { IfOk result (λ step. bytes.new ++ translated_from step.1 (drop step.0 text.now)
        ≡ bytes.old ++ translated_from place text.now) }
{
    let (first, second) = (text[0], text[1]);
    if first == b'\\' {
        push_escaped(bytes, place, second)?;
        return Ok((2, place.after_escape()));
    }
    if opens_named(place, first, second, &text[2..]) {
        bytes.extend_from_slice(&[first, second, b'P'])?;
        return Ok((2, place));
    }
    bytes.push(first)?;
    Ok((1, place.after_byte(first)))
}

/// Appends the translation of a backslash and the byte that it escapes.
fn push_escaped(bytes: &mut Bytes, place: Position, second: u8) -> Result<(), Memory>
    ensures { OnOk result (bytes.new ≡ bytes.old ++ escaped place second) }
{
    let is_edge = matches!(place, Position::Outside) && (second == b'<' || second == b'>');
    if is_edge {
        return bytes.push(second);
    }
    bytes.extend_from_slice(&[b'\\', second])
}
