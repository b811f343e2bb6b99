//! Decimals as text.

ghost use Rattle.std.specs.Prelude.{◌≡◌, ◌+◌, ◌-◌, ◌*◌, ◌^◌, ◌<◌, ◌≤◌, ◌++◌, length, decimal};
ghost use Rattle.std.specs.Float.Ieee.{prec};
ghost use Rattle.fwd_float.specs.Format.{format_of};
ghost use Rattle.fwd_float.specs.Layout.{most_digits, most_zeros, point_of, with_whole_part, with_zeros, exponent_text, with_exponent, laid_out};

use crate::precision::Precision;
use crate::ratio::BIAS;
use crate::text::FloatText;
use itoa::Buffer;

/// Appends `12.5` or `12000.0`.
fn append_whole_part(out: &mut FloatText, digits: &[u8], power: u64)
    requires room { (length out.old ≤ 1) × (length digits.now ≤ 18) }
    requires point { (400 < power + length digits.now) × (power + length digits.now ≤ 416) }
    ensures { out.new ≡ out.old ++ with_whole_part digits.now power }
{
    if power >= BIAS {
        out.append(digits);
        out.append_zeros(power - BIAS);
        out.append(b".0");
        return;
    }
    let whole = (power + digits.len() as u64 - BIAS) as usize;
    out.append(&digits[..whole]);
    out.append(b".");
    out.append(&digits[whole..]);
}

/// Appends `e-7` or `e21`.
fn append_exponent(out: &mut FloatText, point: u64)
    requires room { length out.old ≤ 20 }
    requires point { point ≤ 1300 }
    ensures { out.new ≡ out.old ++ exponent_text point }
{
    let mut buffer = Buffer::new();
    if point > BIAS {
        out.append(b"e");
        out.append(buffer.format(point - BIAS - 1).as_bytes());
    } else {
        out.append(b"e-");
        out.append(buffer.format(BIAS + 1 - point).as_bytes());
    }
}

/// Appends `1.25e-7` or `1e21`.
fn append_with_exponent(out: &mut FloatText, digits: &[u8], power: u64)
    requires room { (length out.old ≤ 1) × (0 < length digits.now) × (length digits.now ≤ 18) }
    requires power { power ≤ 1200 }
    ensures { out.new ≡ out.old ++ with_exponent digits.now power }
{
    out.append(&digits[..1]);
    if digits.len() > 1 {
        out.append(b".");
        out.append(&digits[1..]);
    }
    append_exponent(out, power + digits.len() as u64);
}

/// Appends the decimal with those digits.
#[tactic(auto, unfolding(crate::specs::Layout::laid_out))]
pub(crate) fn append_decimal(out: &mut FloatText, precision: Precision, digits: &[u8], power: u64)
    requires room { (length out.old ≤ 1) × (0 < length digits.now)
        × (length digits.now + most_zeros (format_of precision) ≤ 22) }
    requires power { power ≤ 1200 }
    ensures { out.new ≡ out.old ++ laid_out (format_of precision) digits.now power }
{
    let point = power + digits.len() as u64;
    if point > BIAS && point <= BIAS + precision.most_digits() {
        append_whole_part(out, digits, power);
    } else if point <= BIAS && BIAS <= point + precision.most_zeros() {
        out.append(b"0.");
        out.append_zeros(BIAS - point);
        out.append(digits);
    } else {
        append_with_exponent(out, digits, power);
    }
}
