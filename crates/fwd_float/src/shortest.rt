//! The shortest decimal that reads as a float.

ghost use Rattle.std.specs.Prelude.{◌≡◌, ◌+◌, ◌-◌, ◌*◌, ◌^◌, ◌<◌, ◌≤◌, ◌/◌, ℕ, true};
ghost use Rattle.std.specs.Float.Ieee.{Format, hid, ones, prec};
ghost use Rattle.fast_float.specs.Rounding.{IsNearestBits};
ghost use Rattle.fwd_float.specs.Cut.{IsCut};
ghost use Rattle.fwd_float.specs.Format.{format_of};
ghost use Rattle.fwd_float.specs.Shortest.{units, reads_as, has_decimal, digits_below, digits_nearest, digits_at, shortest_power, shortest_digits};

use crate::guess;
use crate::precision::Precision;
use crate::ratio::Ratio;
use crate::window::window;
use fast_float::nearest_bits;

/// A decimal: `digits * 10 ^ power / 10 ^ 400`.
#[derive(Clone, Copy)]
pub(crate) struct Decimal {
    pub(crate) digits: u64,
    pub(crate) power: u64,
}

/// The digits below a float at the power `before + 1`, the digit that was cut off last, and whether nothing
/// is left below that one.
#[derive(Clone, Copy)]
pub(crate) struct Cut {
    digits: u64,
    last: u64,
    exact: bool,
    before: u64,
}

/// The bits of the float nearest to `digits * 10 ^ (index - 342)`.
fn nearest_to(precision: Precision, digits: u64, index: u64) -> u64
    requires digits { 0 < digits }
    requires power { index < 651 }
    ensures { IsNearestBits (format_of precision) (digits * 10 ^ (index - 342)) (10 ^ (342 - index)) result }
{
    match precision {
        Precision::Single => nearest_bits::<f32>(digits, index),
        Precision::Double => nearest_bits::<f64>(digits, index),
    }
}

/// Whether the decimal reads as the float with these bits.
fn reads(precision: Precision, bits: u64, power: u64, digits: u64) -> bool
    requires bits { (0 < bits) × (bits < ones (format_of precision) * hid (format_of precision)) }
    requires power { 58 ≤ power }
    ensures { result ≡ reads_as (format_of precision) bits power digits }
{
    if digits == 0 {
        return false;
    }
    if power >= 709 {
        return false;
    }
    nearest_to(precision, digits, power - 58) == bits
}

/// Whether one of the decimals next to the float reads as it.
fn has_decimal(precision: Precision, bits: u64, power: u64, below: u64) -> bool
    requires bits { (0 < bits) × (bits < ones (format_of precision) * hid (format_of precision)) }
    requires power { 58 ≤ power }
    requires below { below ≡ digits_below (format_of precision) (units (format_of precision) bits) power }
    requires small { below < 2 ^ 64 - 1 }
    ensures { result ≡ has_decimal (format_of precision) bits power }
{
    reads(precision, bits, power, below) || reads(precision, bits, power, below + 1)
}

impl Cut {
    /// The next one, with one more digit cut off.
    fn next(self) -> Cut
        requires { self.before < 2000 }
        ensures before { result.before ≡ self.before + 1 }
        ensures digits { result.digits ≡ self.digits / 10 }
        ensures cut { (f : Format) → (size : ℕ) → IsCut f size self → IsCut f size result }
    {
        Cut {
            digits: self.digits / 10,
            last: self.digits % 10,
            exact: self.exact && self.last == 0,
            before: self.before + 1,
        }
    }

    /// The whole number nearest to the float over the power of ten, and of two that are as near the even one.
    fn nearest(self, precision: Precision, bits: u64) -> u64
        requires cut { IsCut (format_of precision) (units (format_of precision) bits) self }
        requires small { self.digits < 2 ^ 64 - 1 }
        ensures { result
            ≡ digits_nearest (format_of precision) (units (format_of precision) bits) (self.before + 1) }
    {
        if self.last < 5 {
            return self.digits;
        }
        if self.last == 5 && self.exact {
            return self.digits + self.digits % 2;
        }
        self.digits + 1
    }

    /// The digits that are written: the nearest if they read as the float, and otherwise the other neighbour.
    fn choose(self, precision: Precision, bits: u64) -> u64
        requires bits { (0 < bits) × (bits < ones (format_of precision) * hid (format_of precision)) }
        requires cut { IsCut (format_of precision) (units (format_of precision) bits) self }
        requires small { self.digits < 2 ^ 64 - 1 }
        requires power { (57 ≤ self.before) × (self.before ≤ 800) }
        ensures { result ≡ digits_at (format_of precision) bits (self.before + 1) }
    {
        let power = self.before + 1;
        let nearest = self.nearest(precision, bits);
        if reads(precision, bits, power, nearest) {
            return nearest;
        }
        if reads(precision, bits, power, self.digits) {
            return self.digits;
        }
        self.digits + 1
    }
}

/// The digits just below a float, with the last one cut off, at a power at which they still read as it.
fn first_cut(precision: Precision, bits: u64) -> Cut
    requires { (0 < bits) × (bits < ones (format_of precision) * hid (format_of precision)) }
    ensures cut { IsCut (format_of precision) (units (format_of precision) bits) result }
    ensures small { result.digits < 2 ^ 64 - 1 }
    ensures power { (57 ≤ result.before) × (result.before ≤ 800) }
    ensures reads { has_decimal (format_of precision) bits (result.before + 1) ≡ true }
{
    let size = precision.size(bits);
    let before = window(precision, size, guess::power(precision, size));
    let ratio = Ratio::new(precision, size, before);
    let digits = ratio.whole_part(guess::whole_part(precision, size, before));
    Cut {
        digits: digits / 10,
        last: digits % 10,
        exact: ratio.is_whole(digits),
        before,
    }
}

/// The shortest decimal that reads as the float, and the nearest of these.
pub(crate) fn shortest(precision: Precision, bits: u64) -> Decimal
    requires { (0 < bits) × (bits < ones (format_of precision) * hid (format_of precision)) }
    ensures power { result.power ≡ shortest_power (format_of precision) bits }
    ensures digits { result.digits ≡ shortest_digits (format_of precision) bits }
    ensures few { result.digits ≤ 10 * 2 ^ (prec (format_of precision) + 2) }
    ensures bound { result.power ≤ 801 }
{
    let mut cut = first_cut(precision, bits);
    'up: while has_decimal(precision, bits, cut.before + 2, cut.digits / 10) {
        cut = cut.next();
    }
    Decimal {
        digits: cut.choose(precision, bits),
        power: cut.before + 1,
    }
}
