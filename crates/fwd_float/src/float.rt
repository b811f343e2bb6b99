//! The text of a float.

ghost use Rattle.std.specs.Prelude.{◌≡◌, ◌*◌, ◌<◌, ◌≤◌, ◌++◌, length};
ghost use Rattle.std.specs.Float.Ieee.{binary32, binary64, hid, ones};
ghost use Rattle.fwd_float.specs.FloatText.{size_text, float_text};
ghost use Rattle.fwd_float.specs.Format.{format_of};

use crate::layout::append_decimal;
use crate::precision::Precision;
use crate::shortest::shortest;
use crate::text::FloatText;
use itoa::Buffer;

/// Appends the text of a finite float without its sign.
#[tactic(auto, unfolding(crate::specs::FloatText::size_text))]
fn append_size(out: &mut FloatText, precision: Precision, bits: u64)
    requires room { length out.old ≤ 1 }
    requires bits { bits < ones (format_of precision) * hid (format_of precision) }
    ensures { out.new ≡ out.old ++ size_text (format_of precision) bits }
{
    if bits == 0 {
        out.append(b"0.0");
        return;
    }
    let decimal = shortest(precision, bits);
    let mut buffer = Buffer::new();
    let digits = buffer.format(decimal.digits).as_bytes();
    append_decimal(out, precision, digits, decimal.power);
}

#[tactic(auto, unfolding(crate::specs::FloatText::float_text))]
fn text_of(precision: Precision, bits: u64) -> FloatText
    ensures { result ≡ float_text (format_of precision) bits }
{
    let sign = precision.sign();
    let size = bits % sign;
    let mut out = FloatText::new();
    if size >= precision.infinity() {
        out.append(b"null");
        return out;
    }
    if bits >= sign {
        out.push(b'-');
    }
    append_size(&mut out, precision, size);
    out
}

/// Returns the JSON text of the `f64` with these bits: the shortest decimal that reads back as the float,
/// and `null` for an infinity or a NaN.
pub fn text64(bits: u64) -> FloatText
    ensures { result ≡ float_text binary64 bits }
{
    text_of(Precision::Double, bits)
}

/// Returns the JSON text of the `f32` with these bits: the shortest decimal that reads back as the float,
/// and `null` for an infinity or a NaN.
pub fn text32(bits: u32) -> FloatText
    ensures { result ≡ float_text binary32 bits }
{
    text_of(Precision::Single, bits as u64)
}
