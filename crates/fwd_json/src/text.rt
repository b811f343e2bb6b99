//! JSON text of values. `json_text` builds it in a separate buffer and appends it in one copy, so that a
//! failed allocation leaves no partial text.

ghost use Rattle.std.specs.Prelude.{◌≡◌, ◌↔◌, ◌<◌, ◌≤◌, ◌^◌, ℕ, List, [], ◌∷◌, ◌++◌, true, codes, length, map, take, ◌+◌, IsTrue, OnOk, OnErr};
ghost use Rattle.std.specs.Bool.{OnTrue};
ghost use Rattle.std.specs.Fmt.{signed_decimal};
ghost use Rattle.json.specs.Written.{PlainBetween};
ghost use Rattle.hex.specs.Hex.{encode_lower};
ghost use Rattle.fwd_value.specs.Val.{vals_of, entries_of, mapping, text};
ghost use Rattle.fwd_value.specs.View.{val_of, pair_of};
ghost use Rattle.fwd_json.specs.Text.{escaped, escapes, quoted, tagged, string, key_text, pair_text, single, double, json, values_text, more_values, pairs_text, more_pairs};

use crate::Floats;
use fwd_base::{Bytes, Memory, is_utf8};
use fwd_float::{text32, text64};
use fwd_value::{Pairs, Value};
use itoa::{Buffer, Integer};
use std::alloc::Global;
use std::simd::prelude::*;

/// Appends two hex digits for each byte.
fn put_hex(alloc: Global, out: &mut Bytes, bytes: &[u8]) -> Result<(), Memory>
    ensures { OnOk result (out.new ≡ out.old ++ encode_lower bytes.now) }
{
    let digits = hex::encode(alloc, bytes)?;
    out.extend_from_slice(digits.as_bytes())
}

/// Appends the escape of a control character, with two hex digits.
fn put_control(out: &mut Bytes, byte: u8) -> Result<(), Memory>
    ensures { OnOk result (out.new ≡ out.old ++ (codes "\\u00" ++ encode_lower (byte ∷ []))) }
{
    let mut digits = [0u8; 2];
    let Ok(()) = hex::encode_to_slice([byte].as_slice(), digits.as_mut_slice()) else {
        unreachable!();
    };
    out.extend_from_slice(b"\\u00")?;
    out.extend_from_slice(digits.as_slice())
}

/// Appends a byte within quotes, escaped if necessary.
#[tactic(auto, unfolding(crate::specs::Text::escaped))]
fn put_escaped(out: &mut Bytes, byte: u8) -> Result<(), Memory>
    ensures { OnOk result (out.new ≡ out.old ++ escaped byte) }
{
    match byte {
        b'"' => out.extend_from_slice(b"\\\""),
        b'\\' => out.extend_from_slice(b"\\\\"),
        0x08 => out.extend_from_slice(b"\\b"),
        0x09 => out.extend_from_slice(b"\\t"),
        0x0a => out.extend_from_slice(b"\\n"),
        0x0c => out.extend_from_slice(b"\\f"),
        0x0d => out.extend_from_slice(b"\\r"),
        0x00..=0x1f => put_control(out, byte),
        _ => out.push(byte),
    }
}

/// Appends bytes within quotes.
fn put_quoted(out: &mut Bytes, bytes: &[u8]) -> Result<(), Memory>
    ensures { OnOk result (out.new ≡ out.old ++ quoted bytes.now) }
{
    out.push(b'"')?;
    put_escapes(out, bytes)?;
    out.push(b'"')
}

/// Returns whether a byte needs no escape within quotes.
#[tactic(auto, unfolding(crate::specs::Text::escaped))]
fn is_plain(byte: u8) -> bool
    ensures { result ≡ true → escaped byte ≡ byte ∷ [] }
{
    byte >= 0x20 && byte != b'"' && byte != b'\\'
}

/// The number of bytes that are looked at in one step.
const LANES: usize = 16;

/// Returns whether none of the 16 bytes from an index on needs an escape.
fn are_plain(bytes: &[u8], at: usize) -> bool
    requires { at + 16 ≤ length bytes.now }
    ensures { OnTrue result (PlainBetween bytes.now at (at + 16)) }
{
    let lanes = u8x16::from_slice(&bytes[at..]);
    (lanes.simd_eq(u8x16::splat(b'"'))
        | lanes.simd_eq(u8x16::splat(b'\\'))
        | lanes.simd_lt(u8x16::splat(0x20))).to_bitmask()
        == 0
}

/// Returns the number of leading bytes that need no escape.
fn plain_run(bytes: &[u8]) -> usize
    ensures plain { escapes (take result bytes.now) ≡ take result bytes.now }
    ensures within { result ≤ length bytes.now }
{
    let mut run = 0;
    'lanes: while bytes.len() - run >= LANES && are_plain(bytes, run) {
        run += LANES;
    }
    'bytes: while run < bytes.len() && is_plain(bytes[run]) {
        run += 1;
    }
    run
}

/// Appends bytes within quotes, escaped. Copies runs of bytes that need no escape.
fn put_escapes(out: &mut Bytes, bytes: &[u8]) -> Result<(), Memory>
    ensures { OnOk result (out.new ≡ out.old ++ escapes bytes.now) }
{
    let mut rest = bytes;
    'runs: loop {
        let (run, behind) = rest.split_at(plain_run(rest));
        out.extend_from_slice(run)?;
        let [first, more @ ..] = behind else {
            return Ok(());
        };
        put_escaped(out, *first)?;
        rest = more;
    }
}

/// Appends a tag and hex digits within quotes.
fn put_tagged(alloc: Global, out: &mut Bytes, tag: &[u8], bytes: &[u8]) -> Result<(), Memory>
    ensures { OnOk result (out.new ≡ out.old ++ tagged tag.now bytes.now) }
{
    out.push(b'"')?;
    out.extend_from_slice(tag)?;
    put_hex(alloc, out, bytes)?;
    out.push(b'"')
}

fn put_string(alloc: Global, out: &mut Bytes, bytes: &[u8]) -> Result<(), Memory>
    ensures { OnOk result (out.new ≡ out.old ++ string bytes.now) }
{
    if is_utf8(bytes) {
        put_quoted(out, bytes)
    } else {
        put_tagged(alloc, out, b"bin:", bytes)
    }
}

/// Appends a key that is a text.
fn put_key(alloc: Global, out: &mut Bytes, bytes: &[u8]) -> Result<(), Memory>
    ensures { OnOk result (out.new ≡ out.old ++ key_text (text bytes.now) (string bytes.now)) }
{
    if is_utf8(bytes) {
        put_quoted(out, bytes)
    } else {
        let mut shown = Bytes::new(alloc);
        put_tagged(alloc, &mut shown, b"bin:", bytes)?;
        put_quoted(out, shown.as_slice())
    }
}

/// Appends a whole number in decimal digits.
fn put_number<I: Integer>(out: &mut Bytes, n: I) -> Result<(), Memory>
    ensures { OnOk result (out.new ≡ out.old ++ I.text n) }
{
    let mut buffer = Buffer::new();
    out.extend_from_slice(buffer.format(n).as_bytes())
}

fn put_ext(alloc: Global, out: &mut Bytes, kind: i8, bytes: &[u8]) -> Result<(), Memory>
    ensures { OnOk result (out.new
        ≡ out.old ++ tagged (codes "ext:" ++ (signed_decimal kind ++ codes ":")) bytes.now) }
{
    out.extend_from_slice(b"\"ext:")?;
    put_number(out, kind as i64)?;
    out.push(b':')?;
    put_hex(alloc, out, bytes)?;
    out.push(b'"')
}

/// Appends a float of 32 bits.
fn put_single(alloc: Global, out: &mut Bytes, bits: u32, floats: Floats) -> Result<(), Memory>
    ensures { OnOk result (out.new ≡ out.old ++ single floats bits) }
{
    match floats {
        Floats::Tagged => put_tagged(alloc, out, b"f32:", bits.to_be_bytes().as_slice()),
        Floats::Numbers => out.extend_from_slice(text32(bits).as_bytes()),
    }
}

/// Appends a float of 64 bits.
fn put_double(alloc: Global, out: &mut Bytes, bits: u64, floats: Floats) -> Result<(), Memory>
    ensures { OnOk result (out.new ≡ out.old ++ double floats bits) }
{
    match floats {
        Floats::Tagged => put_tagged(alloc, out, b"f64:", bits.to_be_bytes().as_slice()),
        Floats::Numbers => out.extend_from_slice(text64(bits).as_bytes()),
    }
}

#[cycle(write)]
fn write_value(alloc: Global, value: &Value, floats: Floats, out: &mut Bytes) -> Result<(), Memory>
    ensures { OnOk result (out.new ≡ out.old ++ json floats (val_of value.now)) }
{
    match value {
        Value::Nil => out.extend_from_slice(b"null"),
        Value::Truth(true) => out.extend_from_slice(b"true"),
        Value::Truth(false) => out.extend_from_slice(b"false"),
        Value::Uint(n) => put_number(out, *n),
        Value::Neg(n) => put_number(out, n.get()),
        Value::Text(bytes) => put_string(alloc, out, bytes.as_slice()),
        Value::Bin(bytes) => put_tagged(alloc, out, b"bin:", bytes.as_slice()),
        Value::Float32(bits) => put_single(alloc, out, *bits, floats),
        Value::Float64(bits) => put_double(alloc, out, *bits, floats),
        Value::Ext(kind, bytes) => put_ext(alloc, out, *kind, bytes.as_slice()),
        Value::List(values) => {
            out.push(b'[')?;
            write_values(alloc, values.as_slice(), floats, out)?;
            out.push(b']')
        }
        Value::Map(pairs) => {
            out.push(b'{')?;
            write_pairs(alloc, pairs.as_slice(), floats, out)?;
            out.push(b'}')
        }
    }
}

/// Appends a key: UTF-8 text as it is, and any other key as its JSON text in quotes.
#[cycle(write)]
fn write_key(alloc: Global, key: &Value, floats: Floats, out: &mut Bytes) -> Result<(), Memory>
    ensures { OnOk result (out.new ≡ out.old ++ key_text (val_of key.now) (json floats (val_of key.now))) }
{
    match key {
        Value::Text(bytes) => put_key(alloc, out, bytes.as_slice()),
        _ => {
            let mut shown = Bytes::new(alloc);
            write_value(alloc, key, floats, &mut shown)?;
            put_quoted(out, shown.as_slice())
        }
    }
}

#[cycle(write)]
fn write_pair(
    alloc: Global,
    pair: &(Value, Value),
    floats: Floats,
    out: &mut Bytes,
) -> Result<(), Memory>
    ensures { OnOk result (out.new ≡ out.old ++ pair_text floats (pair_of pair.now)) }
{
    write_key(alloc, &pair.0, floats, out)?;
    out.push(b':')?;
    write_value(alloc, &pair.1, floats, out)
}

#[cycle(write)]
fn write_values(
    alloc: Global,
    values: &[Value],
    floats: Floats,
    out: &mut Bytes,
) -> Result<(), Memory>
    ensures { OnOk result (out.new ≡ out.old ++ values_text floats (vals_of (map val_of values.now))) }
{
    match values {
        [] => Ok(()),
        [first, rest @ ..] => {
            write_value(alloc, first, floats, out)?;
            write_more_values(alloc, rest, floats, out)
        }
    }
}

/// Appends values, a comma before each.
#[cycle(write)]
fn write_more_values(
    alloc: Global,
    values: &[Value],
    floats: Floats,
    out: &mut Bytes,
) -> Result<(), Memory>
    ensures { OnOk result (out.new ≡ out.old ++ more_values floats (vals_of (map val_of values.now))) }
{
    for value in values {
        out.push(b',')?;
        write_value(alloc, value, floats, out)?;
    }
    Ok(())
}

#[cycle(write)]
fn write_pairs(
    alloc: Global,
    pairs: &[(Value, Value)],
    floats: Floats,
    out: &mut Bytes,
) -> Result<(), Memory>
    ensures { OnOk result (out.new ≡ out.old ++ pairs_text floats (entries_of (map pair_of pairs.now))) }
{
    match pairs {
        [] => Ok(()),
        [first, rest @ ..] => {
            write_pair(alloc, first, floats, out)?;
            write_more_pairs(alloc, rest, floats, out)
        }
    }
}

/// Appends pairs, a comma before each.
#[cycle(write)]
fn write_more_pairs(
    alloc: Global,
    pairs: &[(Value, Value)],
    floats: Floats,
    out: &mut Bytes,
) -> Result<(), Memory>
    ensures { OnOk result (out.new ≡ out.old ++ more_pairs floats (entries_of (map pair_of pairs.now))) }
{
    for pair in pairs {
        out.push(b',')?;
        write_pair(alloc, pair, floats, out)?;
    }
    Ok(())
}

/// Appends the JSON text of a value, without blanks. Byte strings, extensions, text that isn't UTF-8, and
/// floats that aren't written as numbers become strings with a tag and hex digits; a key that isn't UTF-8
/// text becomes its JSON text in quotes. After `Err` the bytes are unchanged.
pub fn json_text(
    alloc: Global,
    value: &Value,
    floats: Floats,
    out: &mut Bytes,
) -> Result<(), Memory>
    ensures ok { OnOk result (out.new ≡ out.old ++ json floats (val_of value.now)) }
    ensures err { OnErr result (out.new ≡ out.old) }
{
    let mut text = Bytes::new(alloc);
    write_value(alloc, value, floats, &mut text)?;
    out.extend_from_slice(text.as_slice())
}

/// Appends the JSON text of a value, as `json_text` does, without a separate buffer. After `Err` a part of
/// it may have been appended.
pub fn value_text(
    alloc: Global,
    value: &Value,
    floats: Floats,
    out: &mut Bytes,
) -> Result<(), Memory>
    ensures { OnOk result (out.new ≡ out.old ++ json floats (val_of value.now)) }
{
    write_value(alloc, value, floats, out)
}

/// Appends the JSON text of a text, given by its bytes, as `json_text` does. After `Err` a part of it may
/// have been appended.
pub fn string_text(alloc: Global, bytes: &[u8], out: &mut Bytes) -> Result<(), Memory>
    ensures { OnOk result (out.new ≡ out.old ++ string bytes.now) }
{
    put_string(alloc, out, bytes)
}

/// Appends a text, given by its bytes, as a key of a JSON object. After `Err` a part of it may have been
/// appended.
pub fn key_text(alloc: Global, bytes: &[u8], out: &mut Bytes) -> Result<(), Memory>
    ensures { OnOk result (out.new ≡ out.old ++ key_text (text bytes.now) (string bytes.now)) }
{
    put_key(alloc, out, bytes)
}

/// Appends the JSON text of a map, given by its pairs, as `json_text` does. After `Err` a part of it may
/// have been appended.
pub fn map_text(alloc: Global, pairs: &Pairs, floats: Floats, out: &mut Bytes) -> Result<(), Memory>
    ensures { OnOk result (out.new ≡ out.old ++ json floats (mapping (entries_of pairs.now))) }
{
    out.push(b'{')?;
    write_pairs(alloc, pairs.as_slice(), floats, out)?;
    out.push(b'}')
}

/// Appends further pairs of a JSON object, with a comma before each. After `Err` some of them may have been
/// appended.
pub fn more_pairs_text(
    alloc: Global,
    pairs: &Pairs,
    floats: Floats,
    out: &mut Bytes,
) -> Result<(), Memory>
    ensures { OnOk result (out.new ≡ out.old ++ more_pairs floats (entries_of pairs.now)) }
{
    write_more_pairs(alloc, pairs.as_slice(), floats, out)
}
