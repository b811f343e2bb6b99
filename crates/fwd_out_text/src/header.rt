//! Headers of stored events, and their texts and numbers, read where they are.

ghost use Rattle.std.specs.Prelude.{pos, IfSome};
ghost use Rattle.fwd_value.specs.Val.{text, whole};
ghost use Rattle.fwd_msgpack.specs.Heads.{StartsWith, StartsWithText};
ghost use Rattle.fwd_out_text.specs.Headers.{StartsWithTime, StartsWithHeader};

use fwd_msgpack::{ByteWidth, map_head, number_at};

/// Returns the length of the text of fewer than 256 bytes that the bytes start with, and the bytes after its
/// header; `None` if they don't start with such a text in one of its two shortest forms.
#[inline(always)]
fn short_text_head(bytes: &[u8]) -> Option<(usize, &[u8])>
    ensures { IfSome result (λ x. StartsWithText x.0 x.1.now bytes.now) }
{
    let [first, rest @ ..] = bytes else {
        return None;
    };
    if *first >= 0xa0 && *first <= 0xbf {
        return Some(((*first - 0xa0) as usize, rest));
    }
    if *first != 0xd9 {
        return None;
    }
    let [length, behind @ ..] = rest else {
        return None;
    };
    Some((*length as usize, behind))
}

/// Returns the text that the bytes start with, and the bytes after it; `None` if they don't start with a
/// text. A text of fewer than 256 bytes is split off where this is called.
#[inline(always)]
pub fn split_text(bytes: &[u8]) -> Option<(&[u8], &[u8])>
    ensures { IfSome result (λ x. StartsWith (text x.0.now) x.1.now bytes.now) }
{
    let Some((length, rest)) = short_text_head(bytes) else {
        return fwd_msgpack::split_text(bytes);
    };
    if length > rest.len() {
        return None;
    }
    Some(rest.split_at(length))
}

/// Returns the number from 0 on that the bytes start with, and the bytes after it; `None` if they don't start
/// with such a number in an unsigned form.
#[inline(always)]
pub fn split_number(bytes: &[u8]) -> Option<(u64, &[u8])>
    ensures { IfSome result (λ x. StartsWith (whole (pos x.0)) x.1.now bytes.now) }
{
    let [first, rest @ ..] = bytes else {
        return None;
    };
    match *first {
        0x00..=0x7f => Some((*first as u64, rest)),
        0xcc => number_at(rest, ByteWidth::One),
        0xcd => number_at(rest, ByteWidth::Two),
        0xce => number_at(rest, ByteWidth::Four),
        0xcf => number_at(rest, ByteWidth::Eight),
        _ => None,
    }
}

/// Returns the header of the event that the bytes start with: its seconds, its nanoseconds, the number of
/// pairs of its record, and the bytes from these pairs on. `None` unless the event is in the encoding that
/// this program writes and has no metadata.
pub fn event_head(bytes: &[u8]) -> Option<(u32, u32, usize, &[u8])>
    ensures { IfSome result (λ x. StartsWithHeader x.0 x.1 x.2 x.3.now bytes.now) }
{
    let (sec, nsec, body) = split_time(bytes)?;
    let (count, pairs) = map_head(body)?;
    Some((sec, nsec, count, pairs))
}

/// Returns the time of the event that the bytes start with, and the bytes from its record on. `None` unless
/// the event is in the encoding that this program writes and has no metadata.
fn split_time(bytes: &[u8]) -> Option<(u32, u32, &[u8])>
    ensures { IfSome result (λ x. StartsWithTime x.0 x.1 x.2.now bytes.now) }
{
    let [0x92, 0x92, 0xd7, 0x00, parts @ ..] = bytes else {
        return None;
    };
    if parts.len() < 8 {
        return None;
    }
    let (time, maps) = parts.split_at(8);
    let [0x80, body @ ..] = maps else {
        return None;
    };
    let sec = u32::from_be_bytes([time[0], time[1], time[2], time[3]]);
    let nsec = u32::from_be_bytes([time[4], time[5], time[6], time[7]]);
    Some((sec, nsec, body))
}
