//! What each directive of a format reads.

ghost use Rattle.std.specs.Prelude.{◌≡◌, ◌+◌, ◌*◌, ◌-◌, ◌<◌, ◌≤◌, ◌^◌, codes, length, map, option_map, IfSome};
ghost use Rattle.std.specs.Char.{to_ascii_lowercase};
ghost use Rattle.std.specs.Str.{bytes_eq};
ghost use Rattle.fwd_parser.specs.Number.{number_of, digits_at};
ghost use Rattle.fwd_parser.specs.Time.{after_byte as left_behind_same, after_format_byte as left_behind_byte, after_colon as left_behind_colon, month_named, month_of, fraction_of, two_digits_of, distance_of, offset_of, of_clock, single as single_of, read_format, directive as directive_of};

use crate::digits::{digits, digits_at};
use fwd_base::{is_blank, skip_blanks};

/// The fields that a format read from a text. If a field was read twice, the last counts.
#[derive(Clone, Copy, Debug, PartialEq, Eq)]
pub struct Fields {
    pub year: Option<u32>,
    pub month: Option<u32>,
    pub day: Option<u32>,
    pub hour: Option<u32>,
    pub minute: Option<u32>,
    pub second: Option<u32>,

    /// The fraction of a second, in nanoseconds.
    pub nanos: Option<u32>,

    /// The offset from UTC in seconds, positive to the east.
    pub offset: Option<i32>,

    /// The seconds since 1970 in UTC.
    pub stamp: Option<i64>,
}

/// The first three letters of the English names of the months.
const MONTHS: [[u8; 3]; 12] = [
    *b"jan", *b"feb", *b"mar", *b"apr", *b"may", *b"jun", *b"jul", *b"aug", *b"sep", *b"oct",
    *b"nov", *b"dec",
];

/// Returns the text after this byte, if it begins with it.
fn after_byte(byte: u8, text: &[u8]) -> Option<&[u8]>
    ensures { option_map (λ t. t.now) result ≡ left_behind_same byte text.now }
{
    match text {
        [first, left @ ..] if *first == byte => Some(left),
        _ => None,
    }
}

/// Returns the text after what a byte of the format matches: blanks for a blank, else the same byte.
#[tactic(auto, unfolding(crate::specs::Time::after_format_byte))]
pub fn after_format_byte(byte: u8, text: &[u8]) -> Option<&[u8]>
    ensures { option_map (λ t. t.now) result ≡ left_behind_byte byte text.now }
{
    if byte == b'%' {
        return None;
    }
    if is_blank(byte) {
        return Some(skip_blanks(text));
    }
    after_byte(byte, text)
}

/// Reads at most nine digits, as `digits`.
#[tactic(auto, using(crate::proofs::Numbers::power_most))]
fn few_digits(least: usize, most: usize, text: &[u8]) -> Option<(u32, &[u8])>
    requires least { 1 ≤ least }
    requires most { most ≤ 9 }
    ensures value { option_map (λ p. (p.0, p.1.now)) result ≡ number_of least most text.now }
    ensures bound { IfSome result (λ p. p.0 < 10 ^ digits_at most text.now) }
{
    let (found, left) = digits(least, most, text)?;
    Some((found as u32, left))
}

/// Returns whether two texts are the same, case ignored.
fn is_same(text: &[u8], other: &[u8]) -> bool
    ensures { result ≡ bytes_eq (map to_ascii_lowercase text.now) (map to_ascii_lowercase other.now) }
{
    text.eq_ignore_ascii_case(other)
}

/// Returns the month whose name begins with these letters, case ignored.
#[tactic(auto, unfolding(crate::specs::Time::month_named))]
fn month_named(letters: &[u8]) -> Option<u32>
    ensures { result ≡ month_named letters.now }
{
    let place = MONTHS
        .iter()
        .position(|name| is_same(letters, name.as_slice()));
    match place {
        Some(place) => Some(place as u32 + 1),
        None => None,
    }
}

#[tactic(auto, unfolding(crate::specs::Time::month_of))]
fn month(text: &[u8]) -> Option<(u32, &[u8])>
    ensures { option_map (λ p. (p.0, p.1.now)) result ≡ month_of text.now }
{
    if text.len() < 3 {
        return None;
    }
    let month = month_named(&text[..3])?;
    Some((month, &text[3..]))
}

/// Reads a fraction of a second in nanoseconds.
#[tactic(auto, using(crate::proofs::Numbers::in_billionths, crate::proofs::Numbers::power_most), unfolding(crate::specs::Time::fraction_of))]
fn fraction(text: &[u8]) -> Option<(u32, &[u8])>
    ensures { option_map (λ p. (p.0, p.1.now)) result ≡ fraction_of text.now }
{
    let count = digits_at(9, text) as u32;
    let (found, left) = few_digits(1, 9, text)?;
    Some((found * 10u32.pow(9 - count), left))
}

/// Returns the text after a colon, or the whole text if it doesn't begin with one.
#[tactic(auto, unfolding(crate::specs::Time::after_colon))]
fn after_colon(text: &[u8]) -> &[u8]
    ensures { result.now ≡ left_behind_colon text.now }
{
    match text {
        [b':', left @ ..] => left,
        _ => text,
    }
}

#[tactic(auto, unfolding(crate::specs::Time::two_digits_of))]
fn two_digits(greatest: u32, text: &[u8]) -> Option<(u32, &[u8])>
    ensures value { option_map (λ p. (p.0, p.1.now)) result ≡ two_digits_of greatest text.now }
    ensures bound { IfSome result (λ p. p.0 ≤ greatest) }
{
    let (found, left) = few_digits(2, 2, text)?;
    if found <= greatest {
        Some((found, left))
    } else {
        None
    }
}

/// Reads a distance from UTC in seconds.
#[tactic(auto, unfolding(crate::specs::Time::distance_of))]
fn distance(text: &[u8]) -> Option<(u32, &[u8])>
    ensures value { option_map (λ p. (p.0, p.1.now)) result ≡ distance_of text.now }
    ensures bound { IfSome result (λ p. p.0 < 86400) }
{
    let (hours, left) = two_digits(23, text)?;
    let (minutes, left) = two_digits(59, after_colon(left))?;
    Some((3600 * hours + 60 * minutes, left))
}

/// Reads an offset from UTC in seconds.
#[tactic(auto, unfolding(crate::specs::Time::offset_of))]
fn offset(text: &[u8]) -> Option<(i32, &[u8])>
    ensures { option_map (λ p. (p.0, p.1.now)) result ≡ offset_of text.now }
{
    match text {
        [b'Z', left @ ..] => Some((0, left)),
        [b'+', left @ ..] => {
            let (seconds, left) = distance(left)?;
            Some((seconds as i32, left))
        }
        [b'-', left @ ..] => {
            let (seconds, left) = distance(left)?;
            Some((-(seconds as i32), left))
        }
        _ => None,
    }
}

/// Reads a directive for the time of day into one field.
#[tactic(auto, unfolding(crate::specs::Time::of_clock))]
fn clock_field<'t>(letter: u8, text: &'t [u8], fields: Fields) -> Option<(Fields, &'t [u8])>
    ensures { option_map (λ p. (p.0, p.1.now)) result ≡ of_clock letter text.now fields }
{
    let mut read = fields;
    match letter {
        b'H' => {
            let (hour, left) = few_digits(1, 2, text)?;
            read.hour = Some(hour);
            Some((read, left))
        }
        b'M' => {
            let (minute, left) = few_digits(1, 2, text)?;
            read.minute = Some(minute);
            Some((read, left))
        }
        b'S' => {
            let (second, left) = few_digits(1, 2, text)?;
            read.second = Some(second);
            Some((read, left))
        }
        b'L' => {
            let (nanos, left) = fraction(text)?;
            read.nanos = Some(nanos);
            Some((read, left))
        }
        b'z' => {
            let (offset, left) = offset(text)?;
            read.offset = Some(offset);
            Some((read, left))
        }
        b's' => {
            let (stamp, left) = digits(1, 18, text)?;
            read.stamp = Some(stamp as i64);
            Some((read, left))
        }
        b'%' => Some((read, after_byte(b'%', text)?)),
        _ => None,
    }
}

/// Reads a directive into one field.
#[tactic(auto, unfolding(crate::specs::Time::single))]
fn single<'t>(letter: u8, text: &'t [u8], fields: Fields) -> Option<(Fields, &'t [u8])>
    ensures { option_map (λ p. (p.0, p.1.now)) result ≡ single_of letter text.now fields }
{
    let mut read = fields;
    match letter {
        b'Y' => {
            let (year, left) = few_digits(4, 4, text)?;
            read.year = Some(year);
            Some((read, left))
        }
        b'm' => {
            let (month, left) = few_digits(1, 2, text)?;
            read.month = Some(month);
            Some((read, left))
        }
        b'b' => {
            let (month, left) = month(text)?;
            read.month = Some(month);
            Some((read, left))
        }
        b'd' => {
            let (day, left) = few_digits(1, 2, text)?;
            read.day = Some(day);
            Some((read, left))
        }
        b'e' => {
            let (day, left) = few_digits(1, 2, skip_blanks(text))?;
            read.day = Some(day);
            Some((read, left))
        }
        _ => clock_field(letter, text, fields),
    }
}

/// Reads `%Y-%m-%d`.
fn date<'t>(text: &'t [u8], fields: Fields) -> Option<(Fields, &'t [u8])>
    ensures { option_map (λ p. (p.0, p.1.now)) result
        ≡ read_format single_of (codes "%Y-%m-%d") text.now fields }
{
    let (fields, left) = single(b'Y', text, fields)?;
    let (fields, left) = single(b'm', after_format_byte(b'-', left)?, fields)?;
    single(b'd', after_format_byte(b'-', left)?, fields)
}

/// Reads `%H:%M:%S`.
fn clock<'t>(text: &'t [u8], fields: Fields) -> Option<(Fields, &'t [u8])>
    ensures { option_map (λ p. (p.0, p.1.now)) result
        ≡ read_format single_of (codes "%H:%M:%S") text.now fields }
{
    let (fields, left) = single(b'H', text, fields)?;
    let (fields, left) = single(b'M', after_format_byte(b':', left)?, fields)?;
    single(b'S', after_format_byte(b':', left)?, fields)
}

/// Reads a directive.
#[tactic(auto, unfolding(crate::specs::Time::directive))]
pub fn directive<'t>(letter: u8, text: &'t [u8], fields: Fields) -> Option<(Fields, &'t [u8])>
    ensures { option_map (λ p. (p.0, p.1.now)) result ≡ directive_of letter text.now fields }
{
    match letter {
        b'F' => date(text, fields),
        b'T' => clock(text, fields),
        _ => single(letter, text, fields),
    }
}
