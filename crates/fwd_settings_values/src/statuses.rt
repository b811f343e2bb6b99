//! Statuses of HTTP that are retried.

ghost use Rattle.std.specs.Prelude.{◌≡◌, ◌<◌, ◌-◌, IfOk};
ghost use Rattle.fwd_settings_values.specs.Statuses.{from_to, one_status, status_range_of, ranges_of_words, statuses_of};

use crate::texts::{parts_at, same_name};
use fwd_base::{Memory, Names, is_digits};
use fwd_http::{StatusRange, StatusRanges};
use std::alloc::Global;

/// Parses statuses: words of three digits, or `3xx` or `4xx` for a class, separated by blanks or commas.
/// `None` if a word is neither.
pub fn status_ranges(alloc: Global, text: &[u8]) -> Result<Option<StatusRanges>, Memory>
    ensures { IfOk result (λ ranges. ranges ≡ statuses_of text.now) }
{
    let words = parts_at(alloc, b" \t,", text)?;
    ranges_of_words(alloc, &words)
}

fn ranges_of_words(alloc: Global, words: &Names) -> Result<Option<StatusRanges>, Memory>
    ensures { IfOk result (λ ranges. ranges ≡ ranges_of_words words.now) }
{
    let mut ranges = StatusRanges::new(alloc);
    for word in words.as_slice() {
        let word = word.as_slice();
        if word.is_empty() {
            continue;
        }
        match status_range(word) {
            Some(range) => ranges.push(range)?,
            None => return Ok(None),
        }
    }
    Ok(Some(ranges))
}

fn status_range(word: &[u8]) -> Option<StatusRange>
    ensures { result ≡ status_range_of word.now }
{
    if same_name(word, b"3xx") {
        return Some(from_to(300, 399));
    }
    if same_name(word, b"4xx") {
        return Some(from_to(400, 499));
    }
    let status = one_status(word)?;
    Some(from_to(status, status))
}

fn from_to(first: u16, last: u16) -> StatusRange
    ensures { result ≡ from_to first last }
{
    StatusRange { first, last }
}

/// Returns the number of a text of three digits.
fn one_status(word: &[u8]) -> Option<u16>
    ensures { result ≡ one_status word.now }
{
    match word {
        [a, b, c] if is_digits(word) => Some(digit(*a) * 100 + digit(*b) * 10 + digit(*c)),
        _ => None,
    }
}

fn digit(byte: u8) -> u16
    ensures value { result ≡ byte - 48 }
    ensures small { result < 256 }
{
    u16::from(byte.saturating_sub(b'0'))
}
