//! Headers of values at the start of bytes. They borrow the bytes and allocate nothing.

ghost use Rattle.std.specs.Prelude.{IfSome};
ghost use Rattle.fwd_value.specs.Val.{text};
ghost use Rattle.fwd_msgpack.specs.declared.form.ByteWidth.TheVariants.{One, Two, Four};
ghost use Rattle.fwd_msgpack.specs.declared.form.Count.TheVariants.{Sized};
ghost use Rattle.fwd_msgpack.specs.Heads.{StartsWith, StartsWithLength, StartsWithText, StartsWithBytes, StartsWithBytesHead, StartsWithList, StartsWithMap};

/// Returns the text that the bytes start with, and the bytes after it; `None` if they don't start with a
/// text.
pub fn split_text(bytes: &[u8]) -> Option<(&[u8], &[u8])>
    ensures { IfSome result (λ x. StartsWith (text x.0.now) x.1.now bytes.now) }
{
    let (length, rest) = text_head(bytes)?;
    if length > rest.len() {
        return None;
    }
    Some(rest.split_at(length))
}

/// Returns the length of the text that the bytes start with, and the bytes after its header.
fn text_head(bytes: &[u8]) -> Option<(usize, &[u8])>
    ensures { IfSome result (λ x. StartsWithText x.0 x.1.now bytes.now) }
{
    let [first, rest @ ..] = bytes else {
        return None;
    };
    match *first {
        0xa0..=0xbf => Some(((*first - 0xa0) as usize, rest)),
        0xd9 => length_of_one_byte(rest),
        0xda => length_of_two_bytes(rest),
        0xdb => length_of_four_bytes(rest),
        _ => None,
    }
}

/// Returns the content of the text or bin that the bytes start with, and the bytes after it; `None` if they
/// don't start with one.
pub fn split_bytes(bytes: &[u8]) -> Option<(&[u8], &[u8])>
    ensures { IfSome result (λ x. StartsWithBytes x.0.now x.1.now bytes.now) }
{
    let (length, rest) = bytes_head(bytes)?;
    if length > rest.len() {
        return None;
    }
    Some(rest.split_at(length))
}

/// Returns the length of the text or bin that the bytes start with, and the bytes after its header.
fn bytes_head(bytes: &[u8]) -> Option<(usize, &[u8])>
    ensures { IfSome result (λ x. StartsWithBytesHead x.0 x.1.now bytes.now) }
{
    match bytes {
        [0xc4, rest @ ..] => length_of_one_byte(rest),
        [0xc5, rest @ ..] => length_of_two_bytes(rest),
        [0xc6, rest @ ..] => length_of_four_bytes(rest),
        _ => text_head(bytes),
    }
}

/// Returns the number of values of the list that the bytes start with, and the bytes after its header;
/// `None` if they don't start with a list.
pub fn list_head(bytes: &[u8]) -> Option<(usize, &[u8])>
    ensures { IfSome result (λ x. StartsWithList x.0 x.1.now bytes.now) }
{
    let [first, rest @ ..] = bytes else {
        return None;
    };
    match *first {
        0x90..=0x9f => Some(((*first - 0x90) as usize, rest)),
        0xdc => length_of_two_bytes(rest),
        0xdd => length_of_four_bytes(rest),
        _ => None,
    }
}

/// Returns the number of pairs of the map that the bytes start with, and the bytes after its header; `None`
/// if they don't start with a map.
pub fn map_head(bytes: &[u8]) -> Option<(usize, &[u8])>
    ensures { IfSome result (λ x. StartsWithMap x.0 x.1.now bytes.now) }
{
    let [first, rest @ ..] = bytes else {
        return None;
    };
    match *first {
        0x80..=0x8f => Some(((*first - 0x80) as usize, rest)),
        0xde => length_of_two_bytes(rest),
        0xdf => length_of_four_bytes(rest),
        _ => None,
    }
}

/// Returns a length of one byte, and the bytes after it.
fn length_of_one_byte(bytes: &[u8]) -> Option<(usize, &[u8])>
    ensures { IfSome result (λ x. StartsWithLength (Sized One) x.0 x.1.now bytes.now) }
{
    let [a, rest @ ..] = bytes else {
        return None;
    };
    Some((*a as usize, rest))
}

/// Returns a length of two bytes, and the bytes after it.
fn length_of_two_bytes(bytes: &[u8]) -> Option<(usize, &[u8])>
    ensures { IfSome result (λ x. StartsWithLength (Sized Two) x.0 x.1.now bytes.now) }
{
    let [a, b, rest @ ..] = bytes else {
        return None;
    };
    Some((u16::from_be_bytes([*a, *b]) as usize, rest))
}

/// Returns a length of four bytes, and the bytes after it.
fn length_of_four_bytes(bytes: &[u8]) -> Option<(usize, &[u8])>
    ensures { IfSome result (λ x. StartsWithLength (Sized Four) x.0 x.1.now bytes.now) }
{
    let [a, b, c, d, rest @ ..] = bytes else {
        return None;
    };
    Some((u32::from_be_bytes([*a, *b, *c, *d]) as usize, rest))
}
