//! Writes encoded values as JSON text. Texts are copied from the bytes, and the members of a list or map are
//! written one by one, so no tree of values is built. A number from 0 on is written from its bytes, and any other
//! value without members is decoded and written alone.
//!
//! Each function returns the bytes after what it wrote. It returns `None` if the bytes aren't encoded as its
//! comment says, if a list or map is nested deeper than `depth`, or if a key of a map isn't a text; `out` may
//! then end in an unfinished text.

ghost use Rattle.std.specs.Prelude.{◌≡◌, ◌≤◌, ◌++◌, List, length, IfOk, IfSome, OnOk};
ghost use Rattle.fwd_value.specs.Val.{Val, list, vals_of, mapping, entries_of};
ghost use Rattle.fwd_value.specs.Limits.{nesting};
ghost use Rattle.fwd_msgpack.specs.Heads.{StartsWith};
ghost use Rattle.fwd_msgpack.specs.KeptFront.{KeepsFront};
ghost use Rattle.fwd_json.specs.Text.{json, values_text, more_values, pair_text, pairs_text, more_pairs};
ghost use Rattle.fwd_out_text.specs.Headers.{StartsWithValues, StartsWithPair, StartsWithPairs};

use crate::header::{split_number, split_text};
use fwd_base::{Bytes, Memory};
use fwd_json::{Floats, key_text, string_text, value_text};
use fwd_msgpack::{decode, list_head, map_head};
use std::alloc::Global;

/// Appends the value that the bytes start with. A text or number is written where this is called.
#[cycle(write)]
#[inline(always)]
fn write_value<'b>(
    alloc: Global,
    bytes: &'b [u8],
    depth: u32,
    floats: Floats,
    out: &mut Bytes,
) -> Result<Option<&'b [u8]>, Memory>
    ensures given { IfOk result (λ found. IfSome found (λ rest. (v : Val) × StartsWith v rest.now bytes.now × (nesting v ≤ depth) × (out.new ≡ out.old ++ json floats v))) }
    ensures kept { OnOk result (KeepsFront out.old out.new) }
{
    if let Some((text, rest)) = split_text(bytes) {
        string_text(alloc, text, out)?;
        return Ok(Some(rest));
    }
    if let Some((number, rest)) = split_number(bytes) {
        out.push_decimal(number)?;
        return Ok(Some(rest));
    }
    write_other_value(alloc, bytes, depth, floats, out)
}

/// Appends the value that the bytes start with, as `write_value` does. It is for lists, maps and values that are
/// neither texts nor numbers from 0 on.
#[cycle(write)]
fn write_other_value<'b>(
    alloc: Global,
    bytes: &'b [u8],
    depth: u32,
    floats: Floats,
    out: &mut Bytes,
) -> Result<Option<&'b [u8]>, Memory>
    ensures given { IfOk result (λ found. IfSome found (λ rest. (v : Val) × StartsWith v rest.now bytes.now × (nesting v ≤ depth) × (out.new ≡ out.old ++ json floats v))) }
    ensures kept { OnOk result (KeepsFront out.old out.new) }
{
    if let Some((count, values)) = list_head(bytes) {
        if depth == 0 {
            return Ok(None);
        }
        return write_list(alloc, count, values, depth - 1, floats, out);
    }
    if let Some((count, pairs)) = map_head(bytes) {
        if depth == 0 {
            return Ok(None);
        }
        return write_map(alloc, count, pairs, depth - 1, floats, out);
    }
    write_scalar(alloc, bytes, floats, out)
}

/// Appends the values that the bytes start with as a list.
#[cycle(write)]
fn write_list<'b>(
    alloc: Global,
    count: usize,
    bytes: &'b [u8],
    depth: u32,
    floats: Floats,
    out: &mut Bytes,
) -> Result<Option<&'b [u8]>, Memory>
    ensures given { IfOk result (λ found. IfSome found (λ rest. (vs : List Val) × (length vs ≡ count) × StartsWithValues depth vs rest.now bytes.now × (out.new ≡ out.old ++ json floats (list (vals_of vs))))) }
    ensures kept { OnOk result (KeepsFront out.old out.new) }
{
    out.push(b'[')?;
    match write_values(alloc, count, bytes, depth, floats, out)? {
        Some(rest) => {
            out.push(b']')?;
            Ok(Some(rest))
        }
        None => Ok(None),
    }
}

/// Appends the values that the bytes start with, separated by commas.
#[cycle(write)]
fn write_values<'b>(
    alloc: Global,
    count: usize,
    bytes: &'b [u8],
    depth: u32,
    floats: Floats,
    out: &mut Bytes,
) -> Result<Option<&'b [u8]>, Memory>
    ensures given { IfOk result (λ found. IfSome found (λ rest. (vs : List Val) × (length vs ≡ count) × StartsWithValues depth vs rest.now bytes.now × (out.new ≡ out.old ++ values_text floats (vals_of vs)))) }
    ensures kept { OnOk result (KeepsFront out.old out.new) }
{
    if count == 0 {
        return Ok(Some(bytes));
    }
    match write_value(alloc, bytes, depth, floats, out)? {
        Some(rest) => write_more_values(alloc, count - 1, rest, depth, floats, out),
        None => Ok(None),
    }
}

/// Appends the values that the bytes start with, with a comma before each.
#[cycle(write)]
fn write_more_values<'b>(
    alloc: Global,
    count: usize,
    bytes: &'b [u8],
    depth: u32,
    floats: Floats,
    out: &mut Bytes,
) -> Result<Option<&'b [u8]>, Memory>
    ensures given { IfOk result (λ found. IfSome found (λ rest. (vs : List Val) × (length vs ≡ count) × StartsWithValues depth vs rest.now bytes.now × (out.new ≡ out.old ++ more_values floats (vals_of vs)))) }
    ensures kept { OnOk result (KeepsFront out.old out.new) }
{
    let mut rest = bytes;
    for _ in 0..count {
        out.push(b',')?;
        match write_value(alloc, rest, depth, floats, out)? {
            Some(behind) => rest = behind,
            None => return Ok(None),
        }
    }
    Ok(Some(rest))
}

/// Appends the pairs that the bytes start with as a map.
#[cycle(write)]
pub fn write_map<'b>(
    alloc: Global,
    count: usize,
    bytes: &'b [u8],
    depth: u32,
    floats: Floats,
    out: &mut Bytes,
) -> Result<Option<&'b [u8]>, Memory>
    ensures given { IfOk result (λ found. IfSome found (λ rest. (pairs : List (Val × Val)) × (length pairs ≡ count) × StartsWithPairs depth pairs rest.now bytes.now × (out.new ≡ out.old ++ json floats (mapping (entries_of pairs))))) }
    ensures kept { OnOk result (KeepsFront out.old out.new) }
{
    out.push(b'{')?;
    match write_pairs(alloc, count, bytes, depth, floats, out)? {
        Some(rest) => {
            out.push(b'}')?;
            Ok(Some(rest))
        }
        None => Ok(None),
    }
}

/// Appends the pairs that the bytes start with, separated by commas.
#[cycle(write)]
fn write_pairs<'b>(
    alloc: Global,
    count: usize,
    bytes: &'b [u8],
    depth: u32,
    floats: Floats,
    out: &mut Bytes,
) -> Result<Option<&'b [u8]>, Memory>
    ensures given { IfOk result (λ found. IfSome found (λ rest. (pairs : List (Val × Val)) × (length pairs ≡ count) × StartsWithPairs depth pairs rest.now bytes.now × (out.new ≡ out.old ++ pairs_text floats (entries_of pairs)))) }
    ensures kept { OnOk result (KeepsFront out.old out.new) }
{
    if count == 0 {
        return Ok(Some(bytes));
    }
    match write_pair(alloc, bytes, depth, floats, out)? {
        Some(rest) => write_more_pairs(alloc, count - 1, rest, depth, floats, out),
        None => Ok(None),
    }
}

/// Appends the pairs that the bytes start with, with a comma before each.
#[cycle(write)]
pub fn write_more_pairs<'b>(
    alloc: Global,
    count: usize,
    bytes: &'b [u8],
    depth: u32,
    floats: Floats,
    out: &mut Bytes,
) -> Result<Option<&'b [u8]>, Memory>
    ensures given { IfOk result (λ found. IfSome found (λ rest. (pairs : List (Val × Val)) × (length pairs ≡ count) × StartsWithPairs depth pairs rest.now bytes.now × (out.new ≡ out.old ++ more_pairs floats (entries_of pairs)))) }
    ensures kept { OnOk result (KeepsFront out.old out.new) }
{
    let mut rest = bytes;
    for _ in 0..count {
        out.push(b',')?;
        match write_pair(alloc, rest, depth, floats, out)? {
            Some(behind) => rest = behind,
            None => return Ok(None),
        }
    }
    Ok(Some(rest))
}

/// Appends the pair that the bytes start with.
#[cycle(write)]
#[inline(always)]
fn write_pair<'b>(
    alloc: Global,
    bytes: &'b [u8],
    depth: u32,
    floats: Floats,
    out: &mut Bytes,
) -> Result<Option<&'b [u8]>, Memory>
    ensures given { IfOk result (λ found. IfSome found (λ rest. (p : Val × Val) × StartsWithPair depth p rest.now bytes.now × (out.new ≡ out.old ++ pair_text floats p))) }
    ensures kept { OnOk result (KeepsFront out.old out.new) }
{
    match split_text(bytes) {
        Some((key, rest)) => {
            key_text(alloc, key, out)?;
            out.push(b':')?;
            write_value(alloc, rest, depth, floats, out)
        }
        None => Ok(None),
    }
}

/// Appends the value that the bytes start with, which it decodes first; `None` if it is a list or a map.
fn write_scalar<'b>(
    alloc: Global,
    bytes: &'b [u8],
    floats: Floats,
    out: &mut Bytes,
) -> Result<Option<&'b [u8]>, Memory>
    ensures given { IfOk result (λ found. IfSome found (λ rest. (v : Val) × StartsWith v rest.now bytes.now × (nesting v ≤ 0) × (out.new ≡ out.old ++ json floats v))) }
    ensures kept { OnOk result (KeepsFront out.old out.new) }
{
    let Ok((value, length)) = decode(alloc, bytes) else {
        return Ok(None);
    };
    if !value.nests_within(0) {
        return Ok(None);
    }
    value_text(alloc, &value, floats, out)?;
    let (_, rest) = bytes.split_at(length as usize);
    Ok(Some(rest))
}
