//! The recursive decoder. Each function returns what it decoded and the bytes after it.

ghost use Rattle.std.specs.Prelude.{◌≡◌, ◌≤◌, ℕ, List, [], length, map, pos, vec_capacity, Ok, IfOk};
ghost use Rattle.fwd_value.specs.View.{val_of, pair_of};
ghost use Rattle.std.specs.Int.{cast_signed};
ghost use Rattle.fwd_msgpack.specs.Encodings.{width, IsWithin};
ghost use Rattle.fwd_value.specs.Val.{whole};
ghost use Rattle.fwd_msgpack.specs.declared.form.Form.TheVariants as form;
ghost use Rattle.fwd_msgpack.specs.Decoder.{DecodesAs, number_at, bytes_at, byte_at, count_at, counted_at, many_at, entries_at, after, inner, value_at};

use crate::fault::{FormatErr, ReadErr};
use crate::form::{ByteWidth, Count, Form, form_of};
use crate::numbers::sign_extended;
use fwd_base::Bytes;
use fwd_value::{Below, Pairs, Value, Values};
use std::alloc::{AllocError, Global};

/// Returns the number of this width that the bytes start with.
#[inline(always)]
#[tactic(auto, unfolding(crate::specs::Decoder::number_at, crate::specs::Encodings::number, crate::specs::Encodings::size))]
pub fn number_of(bytes: &[u8], w: ByteWidth) -> Result<(u64, &[u8]), ReadErr>
    ensures read { DecodesAs (λ x. (x.0, x.1.now)) result (number_at w bytes.now) }
    ensures fits { IfOk result (λ x. IsWithin w x.0) }
{
    match w {
        ByteWidth::One => {
            if bytes.len() < 1 {
                return Err(ReadErr::Format(FormatErr::Short));
            }
            let (front, rest) = bytes.split_at(1);
            Ok((front[0] as u64, rest))
        }
        ByteWidth::Two => {
            if bytes.len() < 2 {
                return Err(ReadErr::Format(FormatErr::Short));
            }
            let (front, rest) = bytes.split_at(2);
            Ok((u16::from_be_bytes([front[0], front[1]]) as u64, rest))
        }
        ByteWidth::Four => {
            if bytes.len() < 4 {
                return Err(ReadErr::Format(FormatErr::Short));
            }
            let (front, rest) = bytes.split_at(4);
            Ok((
                u32::from_be_bytes([front[0], front[1], front[2], front[3]]) as u64,
                rest,
            ))
        }
        ByteWidth::Eight => {
            if bytes.len() < 8 {
                return Err(ReadErr::Format(FormatErr::Short));
            }
            let (front, rest) = bytes.split_at(8);
            Ok((
                u64::from_be_bytes([
                    front[0], front[1], front[2], front[3], front[4], front[5], front[6], front[7],
                ]),
                rest,
            ))
        }
    }
}

#[tactic(auto, unfolding(crate::specs::Decoder::count_at))]
fn count_of(bytes: &[u8], k: Count) -> Result<(u64, &[u8]), ReadErr>
    ensures { DecodesAs (λ x. (x.0, x.1.now)) result (count_at k bytes.now) }
{
    match k {
        Count::Known(n) => Ok((n as u64, bytes)),
        Count::Sized(w) => number_of(bytes, w),
    }
}

#[tactic(auto, unfolding(crate::specs::Decoder::byte_at))]
fn byte_of(bytes: &[u8]) -> Result<(u8, &[u8]), ReadErr>
    ensures { DecodesAs (λ x. (x.0, x.1.now)) result (byte_at bytes.now) }
{
    match bytes {
        [] => Err(ReadErr::Format(FormatErr::Short)),
        [c, rest @ ..] => Ok((*c, rest)),
    }
}

#[tactic(auto, unfolding(crate::specs::Decoder::bytes_at))]
fn bytes_of(alloc: Global, bytes: &[u8], n: u64) -> Result<(Bytes, &[u8]), ReadErr>
    ensures { DecodesAs (λ x. (x.0, x.1.now)) result (bytes_at n bytes.now) }
{
    if (bytes.len() as u64) < n {
        return Err(ReadErr::Format(FormatErr::Short));
    }
    let (text, rest) = bytes.split_at(n as usize);
    Ok((Bytes::from_slice(alloc, text)?, rest))
}

#[tactic(auto, unfolding(crate::specs::Decoder::counted_at))]
fn counted_of(alloc: Global, bytes: &[u8], k: Count) -> Result<(Bytes, &[u8]), ReadErr>
    ensures { DecodesAs (λ x. (x.0, x.1.now)) result (counted_at k bytes.now) }
{
    let (n, rest) = count_of(bytes, k)?;
    bytes_of(alloc, rest, n)
}

pub fn whole(n: i64) -> Value
    ensures { val_of result ≡ whole n }
{
    match Below::of(n) {
        Some(below) => Value::Neg(below),
        None => Value::Uint(n as u64),
    }
}

#[cycle(read)]
#[tactic(auto, unfolding(crate::specs::Decoder::value_by, crate::specs::Decoder::after))]
pub fn value_of(alloc: Global, bytes: &[u8], depth: u32) -> Result<(Value, &[u8]), ReadErr>
    ensures { DecodesAs (λ x. (val_of x.0, x.1.now)) result (value_at depth bytes.now) }
{
    match bytes {
        [] => Err(ReadErr::Format(FormatErr::Short)),
        [c, rest @ ..] => match form_of(*c) {
            Form::Unused => Err(ReadErr::Format(FormatErr::Unused(rest.len() + 1))),
            Form::Nil => Ok((Value::Nil, rest)),
            Form::Bool(t) => Ok((Value::Truth(t), rest)),
            Form::PositiveFixint(n) => Ok((Value::Uint(n as u64), rest)),
            Form::NegativeFixint(z) => Ok((whole(z as i64), rest)),
            Form::Uint(w) => {
                let (n, rest) = number_of(rest, w)?;
                Ok((Value::Uint(n), rest))
            }
            Form::Int(w) => {
                let (n, rest) = number_of(rest, w)?;
                Ok((whole(sign_extended(n, w)), rest))
            }
            Form::Float32 => {
                let (n, rest) = number_of(rest, ByteWidth::Four)?;
                Ok((Value::Float32(n as u32), rest))
            }
            Form::Float64 => {
                let (n, rest) = number_of(rest, ByteWidth::Eight)?;
                Ok((Value::Float64(n), rest))
            }
            Form::Str(k) => {
                let (s, rest) = counted_of(alloc, rest, k)?;
                Ok((Value::Text(s), rest))
            }
            Form::Bin(k) => {
                let (s, rest) = counted_of(alloc, rest, k)?;
                Ok((Value::Bin(s), rest))
            }
            Form::Ext(k) => {
                let (n, rest) = count_of(rest, k)?;
                let (t, rest) = byte_of(rest)?;
                let (s, rest) = bytes_of(alloc, rest, n)?;
                Ok((Value::Ext(t.cast_signed(), s), rest))
            }
            Form::Array(k) => list_of(alloc, rest, k, depth),
            Form::Map(k) => map_of(alloc, rest, k, depth),
        },
    }
}

#[cycle(read)]
#[tactic(auto, unfolding(crate::specs::Decoder::after))]
fn list_of(alloc: Global, bytes: &[u8], k: Count, depth: u32) -> Result<(Value, &[u8]), ReadErr>
    ensures { DecodesAs (λ x. (val_of x.0, x.1.now)) result (after (inner depth) (form.Array k) bytes.now) }
{
    if depth == 0 {
        return Err(ReadErr::Format(FormatErr::TooDeep(bytes.len() + 1)));
    }
    let (n, rest) = count_of(bytes, k)?;
    let (vs, rest) = values_of(alloc, rest, n, depth - 1)?;
    Ok((Value::List(vs), rest))
}

#[cycle(read)]
#[tactic(auto, unfolding(crate::specs::Decoder::after))]
fn map_of(alloc: Global, bytes: &[u8], k: Count, depth: u32) -> Result<(Value, &[u8]), ReadErr>
    ensures { DecodesAs (λ x. (val_of x.0, x.1.now)) result (after (inner depth) (form.Map k) bytes.now) }
{
    if depth == 0 {
        return Err(ReadErr::Format(FormatErr::TooDeep(bytes.len() + 1)));
    }
    let (n, rest) = count_of(bytes, k)?;
    let (es, rest) = pairs_of(alloc, rest, n, depth - 1)?;
    Ok((Value::Map(es), rest))
}

#[cycle(read)]
fn values_of(alloc: Global, bytes: &[u8], n: u64, depth: u32) -> Result<(Values, &[u8]), ReadErr>
    ensures { DecodesAs (λ x. (x.0, x.1.now)) result (many_at (value_at depth) n bytes.now) }
{
    let mut values = with_reserve(alloc, n, bytes)?;
    let mut rest = bytes;
    for _ in 0..n {
        let (v, after) = value_of(alloc, rest, depth)?;
        values.push(v)?;
        rest = after;
    }
    Ok((Values::from_vec(values), rest))
}

#[cycle(read)]
fn pairs_of(alloc: Global, bytes: &[u8], n: u64, depth: u32) -> Result<(Pairs, &[u8]), ReadErr>
    ensures { DecodesAs (λ x. (x.0, x.1.now)) result (entries_at (value_at depth) n bytes.now) }
{
    let mut pairs = with_reserve(alloc, n, bytes)?;
    let mut rest = bytes;
    for _ in 0..n {
        let (k, after) = value_of(alloc, rest, depth)?;
        let (v, after) = value_of(alloc, after, depth)?;
        pairs.push((k, v))?;
        rest = after;
    }
    Ok((Pairs::from_vec(pairs), rest))
}

/// The largest capacity to reserve before any item is decoded.
const MOST_RESERVED: usize = 16;

/// Returns an empty list with capacity for `n` items, but at most for `MOST_RESERVED` and for one per
/// remaining byte.
fn with_reserve<T>(alloc: Global, n: u64, bytes: &[u8]) -> Result<Vec<T>, AllocError>
    ensures empty { IfOk result (λ items. items.items ≡ []) }
    ensures filled { IfOk result (λ items. vec_capacity items ≤ length bytes.now) }
    ensures little { IfOk result (λ items. vec_capacity items ≤ MOST_RESERVED) }
{
    let said = n.min(MOST_RESERVED as u64) as usize;
    Vec::with_capacity(alloc, said.min(bytes.len()))
}
