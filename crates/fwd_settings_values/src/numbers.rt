//! Numbers: counts, ports, durations and retries.

ghost use Rattle.std.specs.Prelude.{◌≡◌, ◌-◌, ◌<◌};
ghost use Rattle.fwd_settings_values.specs.Number.{positive_of, port_of, decimals, thousandths, flush_of, retries_of, within};

use crate::texts::same_name;
use fwd_base::{Retries, index_of, is_digits, number};

fn within(number: u64, least: u64, most: u64) -> Option<u64>
    ensures { result ≡ within least most number }
{
    if least <= number && number <= most {
        Some(number)
    } else {
        None
    }
}

/// Returns a number of at least 1.
pub fn positive(text: &[u8]) -> Option<u64>
    ensures { result ≡ positive_of text.now }
{
    within(number(text)?, 1, u64::MAX)
}

/// Returns a port, from 1 to 65,535.
pub fn port(text: &[u8]) -> Option<u16>
    ensures { result ≡ port_of text.now }
{
    let number = within(number(text)?, 1, 65_535)?;
    u16::try_from(number).ok()
}

/// Returns seconds as milliseconds, at least one. The text is digits, or digits, a point and one to nine
/// digits, of which the first three count.
pub fn flush_ms(text: &[u8]) -> Option<u64>
    ensures { result ≡ flush_of text.now }
{
    let end = index_of(text, b'.');
    let decimals = decimals(text);
    if !is_digits(decimals) || decimals.len() > 9 {
        return None;
    }
    let seconds = number(&text[..end])?;
    let milliseconds = seconds
        .checked_mul(1_000)?
        .checked_add(thousandths(decimals))?;
    within(milliseconds, 1, u64::MAX)
}

fn decimals(text: &[u8]) -> &[u8]
    ensures { result.now ≡ decimals text.now }
{
    let end = index_of(text, b'.');
    if end < text.len() {
        &text[end + 1..]
    } else {
        b"0"
    }
}

fn thousandths(decimals: &[u8]) -> u64
    ensures { result ≡ thousandths decimals.now }
{
    match decimals {
        [] => 0,
        [a] => digit(*a) * 100,
        [a, b] => digit(*a) * 100 + digit(*b) * 10,
        [a, b, c, ..] => digit(*a) * 100 + digit(*b) * 10 + digit(*c),
    }
}

fn digit(byte: u8) -> u64
    ensures value { result ≡ byte - 48 }
    ensures small { result < 256 }
{
    u64::from(byte.saturating_sub(b'0'))
}

/// Returns how often to retry: a number, `no_limits` or `False` for no limit, `no_retries` for never, case
/// ignored.
pub fn retries(text: &[u8]) -> Option<Retries>
    ensures { result ≡ retries_of text.now }
{
    if same_name(text, b"no_limits") || same_name(text, b"false") {
        return Some(Retries::Unlimited);
    }
    if same_name(text, b"no_retries") {
        return Some(Retries::Times(0));
    }
    let times = number(text)?;
    Some(Retries::Times(times))
}
