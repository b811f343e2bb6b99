//! A float over a power of ten, as a fraction in exact arithmetic.

ghost use Rattle.std.specs.Prelude.{◌≡◌, ◌+◌, ◌-◌, ◌*◌, ◌/◌, ◌%◌, ◌^◌, ◌<◌, ◌≤◌, ◌↔◌, IsTrue, nat_le};
ghost use Rattle.std.specs.Ordering.{nat_cmp};
ghost use Rattle.std.specs.Float.Ieee.{low};
ghost use Rattle.fwd_float.specs.Format.{format_of};
ghost use Rattle.fwd_float.specs.Ratio.{units_of, HasRoom, IsRatio};

use crate::big::Big;
use crate::precision::{Precision, Size};
use std::cmp::Ordering;

/// Powers of ten are counted from `10 ^ -BIAS`.
pub(crate) const BIAS: u64 = 400;

/// The fraction `above / under`.
#[derive(Drop)]
pub(crate) struct Ratio {
    above: Big,
    under: Big,
}

impl Ratio {
    /// The float over `10 ^ (power - BIAS)`, without the common factors of two and ten.
    pub(crate) fn new(precision: Precision, size: Size, power: u64) -> Ratio
        requires significand { size.significand < 2 ^ 53 }
        requires exponent { size.exponent ≤ low (format_of precision) + 971 }
        requires power { power ≤ 800 }
        ensures room { HasRoom result }
        ensures ratio { IsRatio (format_of precision) (units_of size) power result }
    {
        let lowest = precision.lowest();
        let mut above = Big::new(size.significand);
        above.multiply_by_two_to(size.exponent.saturating_sub(lowest));
        above.multiply_by_ten_to(BIAS.saturating_sub(power));
        let mut under = Big::new(1);
        under.multiply_by_two_to(lowest.saturating_sub(size.exponent));
        under.multiply_by_ten_to(power.saturating_sub(BIAS));
        Ratio { above, under }
    }

    fn compare(&self, n: u64) -> Ordering
        requires { HasRoom self.now }
        ensures { result ≡ nat_cmp self.now.above (self.now.under * n) }
    {
        self.above.compare(&self.under.times(n))
    }

    /// Whether the whole part is at least that number.
    pub(crate) fn is_at_least(&self, n: u64) -> bool
        requires { HasRoom self.now }
        ensures { result ≡ nat_le n (self.now.above / self.now.under) }
    {
        !matches!(self.compare(n), Ordering::Less)
    }

    /// Whether nothing is left beside the whole part.
    pub(crate) fn is_whole(&self, whole: u64) -> bool
        requires room { HasRoom self.now }
        requires whole { whole ≡ self.now.above / self.now.under }
        ensures { IsTrue result ↔ (self.now.above % self.now.under ≡ 0) }
    {
        matches!(self.compare(whole), Ordering::Equal)
    }

    /// The whole part. The search tries the guess first, and the two numbers above it.
    pub(crate) fn whole_part(&self, guess: u64) -> u64
        requires room { HasRoom self.now }
        requires fits { self.now.above / self.now.under < 2 ^ 64 - 1 }
        ensures { result ≡ self.now.above / self.now.under }
    {
        let mut low = 0;
        let mut high = u64::MAX;
        let mut tries = 0;
        while high - low > 1 {
            let middle = between(low, high, guess.saturating_add(tries), tries);
            tries = tries.saturating_add(1);
            if self.is_at_least(middle) {
                low = middle;
            } else {
                high = middle;
            }
        }
        low
    }
}

/// One of the first three guesses, if it lies between the bounds, and otherwise the number halfway.
fn between(low: u64, high: u64, guess: u64, tries: u64) -> u64
    requires { low + 1 < high }
    ensures { (low < result) × (result < high) }
{
    if tries < 3 && low < guess && guess < high {
        return guess;
    }
    low + (high - low) / 2
}
