//! Numbers from digits.

ghost use Rattle.std.specs.Prelude.{◌≡◌, ◌+◌, ◌*◌, ◌<◌, ◌≤◌, ◌^◌, option_map, length, SomeIff, IfSome, IsTrue};
ghost use Rattle.std.specs.Char.{digit_value};
ghost use Rattle.fwd_parser.specs.Number.{number_in, number_of, digits_at};

/// Returns the number of a text that is one digit or more of a base, if it has at most 64 bits.
pub fn number(base: u32, text: &[u8]) -> Option<u64>
    requires least { 2 ≤ base }
    requires most { base ≤ 36 }
    ensures { result ≡ number_in base text.now }
{
    if text.is_empty() {
        return None;
    }
    let mut number = 0u64;
    for digit in text {
        let Some(more) = with_digit(base, number, *digit) else {
            return None;
        };
        number = more;
    }
    Some(number)
}

/// Returns a number with one more digit, if that is a digit of the base and the number has at most 64 bits.
fn with_digit(base: u32, number: u64, digit: u8) -> Option<u64>
    requires least { 2 ≤ base }
    requires most { base ≤ 36 }
    ensures { SomeIff result ((digit_value digit < base) × (number * base + digit_value digit < 2 ^ 64))
        (number * base + digit_value digit) }
{
    let value = char::from(digit).to_digit(base)?;
    number
        .checked_mul(u64::from(base))?
        .checked_add(u64::from(value))
}

/// Counts the decimal digits at the start of a text, up to `most`.
#[tactic(auto, using(crate::proofs::Numbers::digits_within, crate::proofs::Numbers::digits_most))]
pub fn digits_at(most: usize, text: &[u8]) -> usize
    ensures value { result ≡ digits_at most text.now }
    ensures within { result ≤ length text.now }
    ensures most { result ≤ most }
{
    text.iter()
        .take(most)
        .take_while(|byte| byte.is_ascii_digit())
        .count()
}

/// Returns the number of the decimal digits at the start of a text, at least `least` and at most `most` of
/// them, and the rest of the text.
#[tactic(auto, using(crate::proofs::Numbers::digits_number, crate::proofs::Numbers::number_below), unfolding(crate::specs::Number::number_of))]
pub fn digits(least: usize, most: usize, text: &[u8]) -> Option<(u64, &[u8])>
    requires least { 1 ≤ least }
    requires most { most ≤ 18 }
    ensures value { option_map (λ p. (p.0, p.1.now)) result ≡ number_of least most text.now }
    ensures bound { IfSome result (λ p. p.0 < 10 ^ digits_at most text.now) }
    ensures limit { IfSome result (λ p. p.0 < 10 ^ most) }
{
    let count = digits_at(most, text);
    if count < least {
        return None;
    }
    let found = number(10, &text[..count])?;
    Some((found, &text[count..]))
}
