//! The encoder, and the canonical headers and numbers that it is made of.

ghost use Rattle.std.specs.Prelude.{◌≡◌, ◌↔◌, ◌<◌, ◌≤◌, ◌-◌, ◌^◌, ℕ, ℤ, List, [], ◌∷◌, ◌++◌, length, map, IsTrue, OnOk, OnErr};
ghost use Rattle.fwd_base.specs.Limits.{deepest};
ghost use Rattle.fwd_value.specs.Val.{vals_of, entries_of, truth, text, bin, float32, float64, ext, whole, mapping};
ghost use Rattle.fwd_value.specs.View.{val_of, pair_of};
ghost use Rattle.fwd_value.specs.Limits.{nesting, LengthsFit, AllLengthsFit, EntryLengthsFit, IsInRange, AreInRange, EntriesAreInRange};
ghost use Rattle.fwd_msgpack.specs.Canonical.{number_bytes, minus_bytes, whole_bytes, text_head, bin_head, ext_head, list_head, map_head, canonical, canonical_all, canonical_entries};
ghost use Rattle.fwd_msgpack.specs.KeptFront.{KeepsFront};

use fwd_base::{Bytes, Memory};
use fwd_value::{Below, Pairs, Value};

/// Appends a first byte, and the bytes after it.
#[inline(always)]
#[tactic(auto, using(crate::proofs::KeptFront::keeps_same, crate::proofs::KeptFront::keeps_added))]
fn put(out: &mut Bytes, first: u8, rest: &[u8]) -> Result<(), Memory>
    ensures ok { OnOk result (out.new ≡ out.old ++ first ∷ rest.now) }
    ensures err { OnErr result (KeepsFront out.old out.new) }
{
    out.push(first)?;
    out.extend_from_slice(rest)
}

/// Appends one byte.
#[inline(always)]
#[tactic(auto, using(crate::proofs::KeptFront::keeps_same))]
pub fn put_byte(out: &mut Bytes, byte: u8) -> Result<(), Memory>
    ensures ok { OnOk result (out.new ≡ out.old ++ byte ∷ []) }
    ensures err { OnErr result (KeepsFront out.old out.new) }
{
    out.push(byte)
}

/// Appends a number from 0 on.
#[tactic(auto, unfolding(crate::specs::Canonical::number_bytes))]
pub fn put_number(out: &mut Bytes, n: u64) -> Result<(), Memory>
    ensures ok { OnOk result (out.new ≡ out.old ++ number_bytes n) }
    ensures err { OnErr result (KeepsFront out.old out.new) }
{
    if n < 128 {
        put_byte(out, n as u8)
    } else if n < 256 {
        put(out, 0xcc, [n as u8].as_slice())
    } else if n < 65_536 {
        put(out, 0xcd, (n as u16).to_be_bytes().as_slice())
    } else if n < 4_294_967_296 {
        put(out, 0xce, (n as u32).to_be_bytes().as_slice())
    } else {
        put(out, 0xcf, n.to_be_bytes().as_slice())
    }
}

/// Appends the number -1 - n.
#[tactic(auto, unfolding(crate::specs::Canonical::minus_bytes))]
fn put_negative(out: &mut Bytes, n: u64) -> Result<(), Memory>
    requires { n < 2 ^ 63 }
    ensures ok { OnOk result (out.new ≡ out.old ++ minus_bytes n) }
    ensures err { OnErr result (KeepsFront out.old out.new) }
{
    if n < 32 {
        put_byte(out, (255 - n) as u8)
    } else if n < 128 {
        put(out, 0xd0, [(255 - n) as u8].as_slice())
    } else if n < 32_768 {
        put(out, 0xd1, ((65_535 - n) as u16).to_be_bytes().as_slice())
    } else if n < 2_147_483_648 {
        put(
            out,
            0xd2,
            ((4_294_967_295 - n) as u32).to_be_bytes().as_slice(),
        )
    } else {
        put(out, 0xd3, (u64::MAX - n).to_be_bytes().as_slice())
    }
}

/// Appends a truth value.
pub fn put_truth(out: &mut Bytes, value: bool) -> Result<(), Memory>
    ensures ok { OnOk result (out.new ≡ out.old ++ canonical (truth value)) }
    ensures err { OnErr result (KeepsFront out.old out.new) }
{
    put_byte(out, if value { 0xc3 } else { 0xc2 })
}

/// Appends a float of 32 bits, by its bits.
pub fn put_float32(out: &mut Bytes, bits: u32) -> Result<(), Memory>
    ensures ok { OnOk result (out.new ≡ out.old ++ canonical (float32 bits)) }
    ensures err { OnErr result (KeepsFront out.old out.new) }
{
    put(out, 0xca, bits.to_be_bytes().as_slice())
}

/// Appends a float of 64 bits, by its bits.
pub fn put_float64(out: &mut Bytes, bits: u64) -> Result<(), Memory>
    ensures ok { OnOk result (out.new ≡ out.old ++ canonical (float64 bits)) }
    ensures err { OnErr result (KeepsFront out.old out.new) }
{
    put(out, 0xcb, bits.to_be_bytes().as_slice())
}

/// Appends a whole number, in its shortest form.
pub fn put_whole(out: &mut Bytes, n: i64) -> Result<(), Memory>
    ensures ok { OnOk result (out.new ≡ out.old ++ whole_bytes n) }
    ensures err { OnErr result (KeepsFront out.old out.new) }
{
    if n < 0 {
        put_negative(out, (-1 - n) as u64)
    } else {
        put_number(out, n as u64)
    }
}

fn put_below_zero(out: &mut Bytes, below: &Below) -> Result<(), Memory>
    ensures ok { OnOk result (out.new ≡ out.old ++ whole_bytes below.now) }
    ensures in_range { IsInRange (whole below.now) }
    ensures err { OnErr result (KeepsFront out.old out.new) }
{
    let n = below.get();
    put_negative(out, (-1 - n) as u64)
}

/// Appends the header of a text of `n` bytes.
#[tactic(auto, unfolding(crate::specs::Canonical::text_head))]
pub fn put_text_head(out: &mut Bytes, n: usize) -> Result<(), Memory>
    requires { n < 2 ^ 32 }
    ensures ok { OnOk result (out.new ≡ out.old ++ text_head n) }
    ensures err { OnErr result (KeepsFront out.old out.new) }
{
    if n < 32 {
        return put_byte(out, 0xa0 + n as u8);
    }
    if n < 256 {
        return put_bytes(out, [0xd9, n as u8].as_slice());
    }
    if n < 65_536 {
        let [a, b] = (n as u16).to_be_bytes();
        return put_bytes(out, [0xda, a, b].as_slice());
    }
    let [a, b, c, d] = (n as u32).to_be_bytes();
    put_bytes(out, [0xdb, a, b, c, d].as_slice())
}

/// Appends the header of a bin of `n` bytes.
#[tactic(auto, unfolding(crate::specs::Canonical::bin_head))]
pub fn put_bin_head(out: &mut Bytes, n: usize) -> Result<(), Memory>
    requires { n < 2 ^ 32 }
    ensures ok { OnOk result (out.new ≡ out.old ++ bin_head n) }
    ensures err { OnErr result (KeepsFront out.old out.new) }
{
    if n < 256 {
        put(out, 0xc4, [n as u8].as_slice())
    } else if n < 65_536 {
        put(out, 0xc5, (n as u16).to_be_bytes().as_slice())
    } else {
        put(out, 0xc6, (n as u32).to_be_bytes().as_slice())
    }
}

/// Appends the header of an extension of `n` bytes, up to its type.
#[tactic(auto, unfolding(crate::specs::Canonical::ext_head))]
pub fn put_ext_head(out: &mut Bytes, n: usize) -> Result<(), Memory>
    requires { n < 2 ^ 32 }
    ensures ok { OnOk result (out.new ≡ out.old ++ ext_head n) }
    ensures err { OnErr result (KeepsFront out.old out.new) }
{
    if n == 1 {
        put_byte(out, 0xd4)
    } else if n == 2 {
        put_byte(out, 0xd5)
    } else if n == 4 {
        put_byte(out, 0xd6)
    } else if n == 8 {
        put_byte(out, 0xd7)
    } else if n == 16 {
        put_byte(out, 0xd8)
    } else if n < 256 {
        put(out, 0xc7, [n as u8].as_slice())
    } else if n < 65_536 {
        put(out, 0xc8, (n as u16).to_be_bytes().as_slice())
    } else {
        put(out, 0xc9, (n as u32).to_be_bytes().as_slice())
    }
}

/// Appends the header of a list of `n` values.
#[tactic(auto, unfolding(crate::specs::Canonical::list_head))]
pub fn put_list_head(out: &mut Bytes, n: usize) -> Result<(), Memory>
    requires { n < 2 ^ 32 }
    ensures ok { OnOk result (out.new ≡ out.old ++ list_head n) }
    ensures err { OnErr result (KeepsFront out.old out.new) }
{
    if n < 16 {
        put_byte(out, 0x90 + n as u8)
    } else if n < 65_536 {
        put(out, 0xdc, (n as u16).to_be_bytes().as_slice())
    } else {
        put(out, 0xdd, (n as u32).to_be_bytes().as_slice())
    }
}

/// Appends the header of a map of `n` pairs.
#[tactic(auto, unfolding(crate::specs::Canonical::map_head))]
pub fn put_map_head(out: &mut Bytes, n: usize) -> Result<(), Memory>
    requires { n < 2 ^ 32 }
    ensures ok { OnOk result (out.new ≡ out.old ++ map_head n) }
    ensures err { OnErr result (KeepsFront out.old out.new) }
{
    if n < 16 {
        put_byte(out, 0x80 + n as u8)
    } else if n < 65_536 {
        put(out, 0xde, (n as u16).to_be_bytes().as_slice())
    } else {
        put(out, 0xdf, (n as u32).to_be_bytes().as_slice())
    }
}

/// Appends a text.
#[tactic(auto, using(crate::proofs::KeptFront::keeps_behind))]
pub fn put_text(out: &mut Bytes, bytes: &[u8]) -> Result<(), Memory>
    requires { length bytes.now < 2 ^ 32 }
    ensures ok { OnOk result (out.new ≡ out.old ++ canonical (text bytes.now)) }
    ensures err { OnErr result (KeepsFront out.old out.new) }
{
    put_text_head(out, bytes.len())?;
    put_bytes(out, bytes)
}

#[tactic(auto, using(crate::proofs::KeptFront::keeps_behind))]
fn put_bin(out: &mut Bytes, bytes: &[u8]) -> Result<(), Memory>
    requires { length bytes.now < 2 ^ 32 }
    ensures ok { OnOk result (out.new ≡ out.old ++ canonical (bin bytes.now)) }
    ensures err { OnErr result (KeepsFront out.old out.new) }
{
    put_bin_head(out, bytes.len())?;
    put_bytes(out, bytes)
}

#[tactic(auto, using(crate::proofs::KeptFront::keeps_behind))]
fn put_ext(out: &mut Bytes, kind: i8, bytes: &[u8]) -> Result<(), Memory>
    requires { length bytes.now < 2 ^ 32 }
    ensures ok { OnOk result (out.new ≡ out.old ++ canonical (ext kind bytes.now)) }
    ensures in_range { IsInRange (ext kind bytes.now) }
    ensures err { OnErr result (KeepsFront out.old out.new) }
{
    put_ext_head(out, bytes.len())?;
    put(out, kind.cast_unsigned(), bytes)
}

/// Appends bytes.
#[inline(always)]
#[tactic(auto, using(crate::proofs::KeptFront::keeps_same))]
pub fn put_bytes(out: &mut Bytes, bytes: &[u8]) -> Result<(), Memory>
    ensures ok { OnOk result (out.new ≡ out.old ++ bytes.now) }
    ensures err { OnErr result (KeepsFront out.old out.new) }
{
    out.extend_from_slice(bytes)
}

#[cycle(write)]
fn write_value(value: &Value, out: &mut Bytes) -> Result<(), Memory>
    requires { LengthsFit (val_of value.now) }
    ensures ok { OnOk result (out.new ≡ out.old ++ canonical (val_of value.now)) }
    ensures in_range { OnOk result (IsInRange (val_of value.now)) }
    ensures err { OnErr result (KeepsFront out.old out.new) }
{
    match value {
        Value::Nil => put_byte(out, 0xc0),
        Value::Truth(truth) => put_truth(out, *truth),
        Value::Uint(n) => put_number(out, *n),
        Value::Neg(below) => put_below_zero(out, below),
        Value::Text(bytes) => put_text(out, bytes.as_slice()),
        Value::Bin(bytes) => put_bin(out, bytes.as_slice()),
        Value::Float32(bits) => put_float32(out, *bits),
        Value::Float64(bits) => put_float64(out, *bits),
        Value::Ext(kind, bytes) => put_ext(out, *kind, bytes.as_slice()),
        Value::List(values) => {
            put_list_head(out, values.len())?;
            write_values(values.as_slice(), out)
        }
        Value::Map(pairs) => {
            put_map_head(out, pairs.len())?;
            write_pairs(pairs.as_slice(), out)
        }
    }
}

#[cycle(write)]
fn write_values(values: &[Value], out: &mut Bytes) -> Result<(), Memory>
    requires { AllLengthsFit (vals_of (map val_of values.now)) }
    ensures ok { OnOk result (out.new ≡ out.old ++ canonical_all (vals_of (map val_of values.now))) }
    ensures in_range { OnOk result (AreInRange (vals_of (map val_of values.now))) }
    ensures err { OnErr result (KeepsFront out.old out.new) }
{
    for value in values {
        write_value(value, out)?;
    }
    Ok(())
}

#[cycle(write)]
fn write_pairs(pairs: &[(Value, Value)], out: &mut Bytes) -> Result<(), Memory>
    requires { EntryLengthsFit (entries_of (map pair_of pairs.now)) }
    ensures ok { OnOk result (out.new ≡ out.old ++ canonical_entries (entries_of (map pair_of pairs.now))) }
    ensures in_range { OnOk result (EntriesAreInRange (entries_of (map pair_of pairs.now))) }
    ensures err { OnErr result (KeepsFront out.old out.new) }
{
    for pair in pairs {
        write_value(&pair.0, out)?;
        write_value(&pair.1, out)?;
    }
    Ok(())
}

/// Appends the canonical encoding of a value: the shortest, with unsigned forms for numbers from 0 on. After
/// `Err` the bytes are unchanged.
pub fn encode(value: &Value, out: &mut Bytes) -> Result<(), Memory>
    requires nested { nesting (val_of value.now) ≤ deepest }
    requires lengths { LengthsFit (val_of value.now) }
    ensures ok { OnOk result (out.new ≡ out.old ++ canonical (val_of value.now)) }
    ensures in_range { OnOk result (IsInRange (val_of value.now)) }
    ensures err { OnErr result (out.new ≡ out.old) }
{
    let start = out.len();
    let written = write_value(value, out);
    if written.is_err() {
        out.truncate(start);
    }
    written
}

/// Appends the header of a map and its pairs.
fn write_map(pairs: &Pairs, out: &mut Bytes) -> Result<(), Memory>
    requires { LengthsFit (mapping (entries_of pairs.now)) }
    ensures ok { OnOk result (out.new ≡ out.old ++ canonical (mapping (entries_of pairs.now))) }
    ensures in_range { OnOk result (IsInRange (mapping (entries_of pairs.now))) }
    ensures err { OnErr result (KeepsFront out.old out.new) }
{
    put_map_head(out, pairs.len())?;
    write_pairs(pairs.as_slice(), out)
}

/// Appends the canonical encoding of a map, given by its pairs. After `Err` the bytes are unchanged.
pub fn encode_map(pairs: &Pairs, out: &mut Bytes) -> Result<(), Memory>
    requires nested { nesting (mapping (entries_of pairs.now)) ≤ deepest }
    requires lengths { LengthsFit (mapping (entries_of pairs.now)) }
    ensures ok { OnOk result (out.new ≡ out.old ++ canonical (mapping (entries_of pairs.now))) }
    ensures in_range { OnOk result (IsInRange (mapping (entries_of pairs.now))) }
    ensures err { OnErr result (out.new ≡ out.old) }
{
    let start = out.len();
    let written = write_map(pairs, out);
    if written.is_err() {
        out.truncate(start);
    }
    written
}
