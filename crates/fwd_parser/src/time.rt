//! Times in texts, by formats of directives.

ghost use Rattle.std.specs.Prelude.{◌≡◌, ◌∷◌, ◌<◌, ◌≤◌, length, option_map, IfSome, MatchOption};
ghost use Rattle.fwd_parser.specs.Time.{read_format, directive as directive_of, moment_of, time_of, no_fields};

use crate::calendar::seconds_of;
use crate::directives::{Fields, after_format_byte, directive};

const NO_FIELDS: Fields = Fields {
    year: None,
    month: None,
    day: None,
    hour: None,
    minute: None,
    second: None,
    nanos: None,
    offset: None,
    stamp: None,
};

/// Returns the moment of a text under a format of directives: seconds since 1970 in UTC, and nanoseconds.
/// The format must match the whole text.
///
/// A blank in the format matches all blanks that follow in the text, also none; `%` and a letter are a
/// directive; each other byte matches itself. The directives are `%Y`, `%m`, `%b`, `%d`, `%e`, `%H`, `%M`,
/// `%S`, `%F`, `%T`, `%z`, `%s` and `%%` of strptime, and `%L`, a fraction of one to nine digits.
#[tactic(auto, unfolding(crate::specs::Time::time_of))]
pub fn time_of(format: &[u8], text: &[u8]) -> Option<(i64, u32)>
    ensures { result ≡ time_of format.now text.now }
{
    let (fields, left) = read_format(format, text)?;
    moment(&fields, left)
}

/// Returns the moment of what was read, if no text is left.
#[tactic(auto, unfolding(crate::specs::Time::moment_of))]
fn moment(fields: &Fields, left: &[u8]) -> Option<(i64, u32)>
    ensures { result ≡ moment_of (fields.now, left.now) }
{
    if !left.is_empty() {
        return None;
    }
    let seconds = seconds_of(fields)?;
    Some((seconds, fields.nanos.unwrap_or(0)))
}

/// A position in a format and in a text, with the fields read so far.
#[derive(Clone, Copy)]
struct Cursor<'f, 't> {
    format: &'f [u8],
    text: &'t [u8],
    fields: Fields,
}

/// Reads a text by a format, and returns the fields and the rest of the text.
fn read_format<'t>(format: &[u8], text: &'t [u8]) -> Option<(Fields, &'t [u8])>
    ensures { option_map (λ p. (p.0, p.1.now)) result
        ≡ read_format directive_of format.now text.now no_fields }
{
    let mut place = Cursor {
        format,
        text,
        fields: NO_FIELDS,
    };
    while !place.format.is_empty() {
        place = step(place)?;
    }
    Some((place.fields, place.text))
}

/// Reads what the first byte of a format matches, or its first directive.
fn step<'f, 't>(place: Cursor<'f, 't>) -> Option<Cursor<'f, 't>>
    requires { 0 < length place.format.now }
    ensures walks { let whole = read_format directive_of place.entry.format.now place.entry.text.now
        place.entry.fields in
        MatchOption result (whole ≡ None)
        (λ next. read_format directive_of next.format.now next.text.now next.fields ≡ whole) }
    ensures shorter { IfSome result (λ next. length next.format.now < length place.entry.format.now) }
{
    let (first, more) = place.format.split_first()?;
    if *first == b'%' {
        return read_directive(more, place.text, place.fields);
    }
    Some(Cursor {
        format: more,
        text: after_format_byte(*first, place.text)?,
        fields: place.fields,
    })
}

/// Reads the directive whose letter begins a format.
fn read_directive<'f, 't>(
    format: &'f [u8],
    text: &'t [u8],
    fields: Fields,
) -> Option<Cursor<'f, 't>>
    ensures walks { let whole = read_format directive_of (37 ∷ format.now) text.now fields in
        MatchOption result (whole ≡ None)
        (λ next. read_format directive_of next.format.now next.text.now next.fields ≡ whole) }
    ensures shorter { IfSome result (λ next. length next.format.now < length format.now) }
{
    let (letter, more) = format.split_first()?;
    let (fields, text) = directive(*letter, text, fields)?;
    Some(Cursor {
        format: more,
        text,
        fields,
    })
}
