//! Guesses at which the searches begin. No result depends on them.

ghost use Rattle.std.specs.Prelude.{◌+◌, ◌^◌, ◌<◌, ◌≤◌};
ghost use Rattle.std.specs.Float.Ieee.{low};
ghost use Rattle.fwd_float.specs.Format.{format_of};

use crate::precision::{Precision, Size};
use fast_float::power_of_ten;

const LOW_WORD: u128 = 0xffff_ffff_ffff_ffff;

/// A power of ten over which the float mostly has 61 to 64 bits. Over `2 ^ 20`, 315,653 is the logarithm of 2.
pub(crate) fn power(precision: Precision, size: Size) -> u64
    requires significand { (0 < size.significand) × (size.significand < 2 ^ 53) }
    requires exponent { size.exponent ≤ low (format_of precision) + 971 }
    ensures { result ≤ 800 }
{
    let digits = size.significand.ilog2() as u64 + size.exponent + 1074 - precision.lowest();
    ((digits * 315_653 + 61_479_898) >> 20).min(800)
}

/// The whole part of the float over that power of ten, by the 128 leading bits of the power.
pub(crate) fn whole_part(precision: Precision, size: Size, power: u64) -> u64
    requires exponent { size.exponent ≤ low (format_of precision) + 971 }
{
    if !(75..=742).contains(&power) {
        return 0;
    }
    let index = 742 - power;
    let zeros = size.significand.leading_zeros();
    let shifted = size.significand.wrapping_shl(zeros) as u128;
    let row = power_of_ten(index);
    let product = (row >> 64)
        .wrapping_mul(shifted)
        .wrapping_add((row & LOW_WORD).wrapping_mul(shifted) >> 64);
    let scale = (index * 217_706 + 58_980) / 65_536 + size.exponent;
    let down = (zeros as u64 + 1200 + precision.lowest()).saturating_sub(scale);
    if down > 127 {
        return 0;
    }
    ((product >> down) & LOW_WORD) as u64
}
