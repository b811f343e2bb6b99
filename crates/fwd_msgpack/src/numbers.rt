//! Numbers and lengths at the start of bytes.

ghost use Rattle.std.specs.Prelude.{◌≡◌, ◌<◌, ◌^◌, Ok, IfSome};
ghost use Rattle.std.specs.Int.{cast_signed};
ghost use Rattle.fwd_msgpack.specs.Encodings.{width as width_of, IsWithin};
ghost use Rattle.fwd_msgpack.specs.Decoder.{number_at, count_at};

use crate::form::{ByteWidth, Count};
use crate::reading::number_of;

/// Returns the number of this width that the bytes start with, and the bytes after it; `None` if they are
/// fewer.
#[inline(always)]
pub fn number_at(bytes: &[u8], width: ByteWidth) -> Option<(u64, &[u8])>
    ensures read { IfSome result (λ x. number_at width bytes.now ≡ Ok (x.0, x.1.now)) }
    ensures fits { IfSome result (λ x. IsWithin width x.0) }
{
    match number_of(bytes, width) {
        Ok(found) => Some(found),
        Err(_) => None,
    }
}

/// Returns the length of this form that the bytes start with, and the bytes after it. `None` if the bytes are
/// fewer, and for a length from 2^32 on.
#[inline(always)]
#[tactic(auto, unfolding(crate::specs::Decoder::count_at))]
pub fn length_at(bytes: &[u8], count: Count) -> Option<(usize, &[u8])>
    ensures read { IfSome result (λ x. count_at count bytes.now ≡ Ok (x.0, x.1.now)) }
    ensures fits { IfSome result (λ x. x.0 < 2 ^ 32) }
{
    match count {
        Count::Known(n) => Some((n as usize, bytes)),
        Count::Sized(width) => {
            let (n, rest) = number_at(bytes, width)?;
            if n < 4_294_967_296 {
                Some((n as usize, rest))
            } else {
                None
            }
        }
    }
}

/// Returns the number that a number of this width stands for in two's complement.
#[inline(always)]
pub fn sign_extended(n: u64, width: ByteWidth) -> i64
    requires { IsWithin width n }
    ensures { result ≡ cast_signed (width_of width) n }
{
    match width {
        ByteWidth::One => (n as u8).cast_signed() as i64,
        ByteWidth::Two => (n as u16).cast_signed() as i64,
        ByteWidth::Four => (n as u32).cast_signed() as i64,
        ByteWidth::Eight => n.cast_signed(),
    }
}
