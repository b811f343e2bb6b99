//! Sizes of the configuration, as `64KB`.

ghost use Rattle.std.specs.Prelude.{◌≡◌, length, take_while};
ghost use Rattle.std.specs.Char.{is_ascii_digit};
ghost use Rattle.std.specs.Result.{result_ok};
ghost use Rattle.fwd_base.specs.Size.{unit_of, factor_of, size_of};

use crate::numbers::value;
use thiserror::Error;

/// The text isn't a size.
#[derive(Clone, Copy, Debug, PartialEq, Eq, Error)]
#[error("not a size")]
pub struct NotASize;

/// Parses a size: digits, and then nothing, or K, M or G for thousands, millions and billions, or KB, MB or
/// GB for the same, in either case. Fails if the text has another form or the size passes 64 bits.
pub fn parse_size(text: &[u8]) -> Result<u64, NotASize>
    ensures { result_ok result ≡ size_of text.now }
{
    let digits = digits_len(text);
    if digits == 0 {
        return Err(NotASize);
    }
    let Some(factor) = factor(&text[digits..]) else {
        return Err(NotASize);
    };
    match value(&text[..digits]) {
        Some(number) => number.checked_mul(factor).ok_or(NotASize),
        None => Err(NotASize),
    }
}

/// Returns the number of leading digits of a text.
fn digits_len(text: &[u8]) -> usize
    ensures { result ≡ length (take_while is_ascii_digit text.now) }
{
    text.iter().take_while(|byte| byte.is_ascii_digit()).count()
}

/// Returns the factor of a suffix.
fn factor(suffix: &[u8]) -> Option<u64>
    ensures { result ≡ factor_of suffix.now }
{
    match suffix {
        [] => Some(1),
        [letter] => unit(*letter),
        [letter, last] if last.eq_ignore_ascii_case(&b'B') => unit(*letter),
        _ => None,
    }
}

/// Returns the factor of a letter.
fn unit(letter: u8) -> Option<u64>
    ensures { result ≡ unit_of letter }
{
    match letter {
        b'k' | b'K' => Some(1_000),
        b'm' | b'M' => Some(1_000_000),
        b'g' | b'G' => Some(1_000_000_000),
        _ => None,
    }
}
