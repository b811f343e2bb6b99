//! Decimal numbers in text.

ghost use Rattle.std.specs.Prelude.{◌≡◌, ◌+◌, ◌-◌, ◌*◌, ◌<◌, ◌^◌, SomeIff};
ghost use Rattle.std.specs.Char.{is_ascii_digit};
ghost use Rattle.std.specs.List.{list_all};
ghost use Rattle.fwd_base.specs.Number.{decimal, is_digits, number_of};

/// Parses a decimal number. Returns `None` if the text isn't all digits, is empty, or passes 64 bits.
pub fn number(text: &[u8]) -> Option<u64>
    ensures { result ≡ number_of text.now }
{
    if is_digits(text) { value(text) } else { None }
}

/// Returns whether a text is one or more decimal digits.
pub fn is_digits(text: &[u8]) -> bool
    ensures { result ≡ is_digits text.now }
{
    !text.is_empty() && are_digits(text)
}

fn are_digits(text: &[u8]) -> bool
    ensures { result ≡ list_all is_ascii_digit text.now }
{
    for byte in text {
        if !byte.is_ascii_digit() {
            return false;
        }
    }
    true
}

/// Returns the value of decimal digits, if it has at most 64 bits.
pub(crate) fn value(digits: &[u8]) -> Option<u64>
    ensures { SomeIff result (decimal digits.now < 2 ^ 64) (decimal digits.now) }
{
    let mut number = 0u64;
    for digit in digits {
        let Some(next) = append_digit(number, *digit) else {
            return None;
        };
        number = next;
    }
    Some(number)
}

/// Appends a digit to a number. Returns `None` if the result passes 64 bits.
fn append_digit(number: u64, digit: u8) -> Option<u64>
    ensures { SomeIff result (number * 10 + (digit - 48) < 2 ^ 64) (number * 10 + (digit - 48)) }
{
    number
        .checked_mul(10)?
        .checked_add(u64::from(digit.saturating_sub(b'0')))
}
