//! The power at which the search for a short decimal begins.

ghost use Rattle.std.specs.Prelude.{◌≡◌, ◌+◌, ◌-◌, ◌*◌, ◌^◌, ◌<◌, ◌≤◌, nat_le};
ghost use Rattle.std.specs.Float.Ieee.{low};
ghost use Rattle.fwd_float.specs.Format.{format_of};
ghost use Rattle.fwd_float.specs.Ratio.{units_of};
ghost use Rattle.fwd_float.specs.Shortest.{digits_below};

use crate::precision::{Precision, Size};
use crate::ratio::Ratio;

/// The greatest power that is tried.
const MOST: u64 = 800;

/// Whether the digits below the float are at least that number.
fn is_at_least(precision: Precision, size: Size, power: u64, n: u64) -> bool
    requires significand { size.significand < 2 ^ 53 }
    requires exponent { size.exponent ≤ low (format_of precision) + 971 }
    requires power { power ≤ 800 }
    ensures { result ≡ nat_le n (digits_below (format_of precision) (units_of size) power) }
{
    Ratio::new(precision, size, power).is_at_least(n)
}

/// The least power from the given one on at which the digits below the float and their successor are words.
fn raised(precision: Precision, size: Size, from: u64) -> u64
    requires significand { size.significand < 2 ^ 53 }
    requires exponent { size.exponent ≤ low (format_of precision) + 971 }
    requires power { from ≤ 800 }
    ensures power { result ≤ 800 }
    ensures small { digits_below (format_of precision) (units_of size) result < 2 ^ 64 - 1 }
{
    let mut power = from;
    'up: while power < MOST && is_at_least(precision, size, power, u64::MAX) {
        power += 1;
    }
    power
}

/// A power at which the digits below the float have 61 to 64 bits. It is the guess, or one near it.
pub(crate) fn window(precision: Precision, size: Size, guess: u64) -> u64
    requires significand { (0 < size.significand) × (size.significand < 2 ^ 53) }
    requires exponent { size.exponent ≤ low (format_of precision) + 971 }
    requires power { guess ≤ 800 }
    ensures power { result ≤ 800 }
    ensures small { digits_below (format_of precision) (units_of size) result < 2 ^ 64 - 1 }
    ensures large { 2 ^ 60 ≤ digits_below (format_of precision) (units_of size) result }
{
    let mut power = raised(precision, size, guess);
    'down: while !is_at_least(precision, size, power, 1 << 60) {
        power -= 1;
    }
    power
}
