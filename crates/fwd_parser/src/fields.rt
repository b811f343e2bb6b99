//! Typed fields of a record.

ghost use Rattle.std.specs.Prelude.{◌≡◌, ◌++◌, [], ◌∷◌, map, option_map, if◌then◌else◌, IfOk, OnOk};
ghost use Rattle.std.specs.Str.{bytes_eq};
ghost use Rattle.fwd_base.specs.Pattern.{captured};
ghost use Rattle.fwd_value.specs.Val.{whole, float64};
ghost use Rattle.fwd_value.specs.View.{val_of};
ghost use Rattle.fwd_parser.specs.Field.{below_zero, integer_of, hex_of, truth_of, float_of, float_in, read_as, typed, kind_of, fields_of};

use crate::digits::number;
use crate::parser::{FieldType, FieldTypes, TypeKind};
use fwd_base::{Bytes, Capture, Memory};
use fwd_event::{Below, Pairs, Value};
use fwd_json::Floats;
use std::alloc::Global;
use std::num::f64_to_bits_with_nan;

/// Returns the negated number, if it is at least -2^63.
fn negative(number: u64) -> Option<Value>
    ensures { option_map val_of result ≡ option_map whole (below_zero number) }
{
    let number = 0i64.checked_sub_unsigned(number)?;
    match Below::of(number) {
        Some(below) => Some(Value::Neg(below)),
        None => Some(Value::Uint(0)),
    }
}

/// Parses an optional minus and decimal digits.
#[tactic(auto, unfolding(crate::specs::Field::integer_of))]
fn integer(text: &[u8]) -> Option<Value>
    ensures { option_map val_of result ≡ option_map whole (integer_of text.now) }
{
    match text {
        [] => None,
        [b'-', digits @ ..] => negative(number(10, digits)?),
        _ => Some(Value::Uint(number(10, text)?)),
    }
}

/// Parses an optional `0x` and hexadecimal digits.
#[tactic(auto, unfolding(crate::specs::Field::hex_of))]
fn hex(text: &[u8]) -> Option<u64>
    ensures { result ≡ hex_of text.now }
{
    match text {
        [] => None,
        [b'0', b'x', digits @ ..] => number(16, digits),
        _ => number(16, text),
    }
}

#[tactic(auto, unfolding(crate::specs::Field::truth_of))]
fn truth(text: &[u8]) -> Option<bool>
    ensures { result ≡ truth_of text.now }
{
    if text == b"true".as_slice() {
        return Some(true);
    }
    if text == b"false".as_slice() {
        return Some(false);
    }
    None
}

/// Parses a decimal numeral, and returns the bits of the float of 64 bits nearest to it, if it is finite.
#[tactic(auto, unfolding(crate::specs::Field::float_of))]
fn float(text: &[u8]) -> Option<u64>
    ensures { result ≡ float_of text.now }
{
    let number: f64 = fast_float::parse(text).ok()?;
    if number.is_finite() {
        Some(f64_to_bits_with_nan(number))
    } else {
        None
    }
}

/// Parses a float, if floats are read.
fn float_in(floats: Floats, text: &[u8]) -> Option<u64>
    ensures { result ≡ float_in floats text.now }
{
    match floats {
        Floats::Tagged => None,
        Floats::Numbers => float(text),
    }
}

/// Parses the bytes of a field as a type.
#[tactic(auto, unfolding(crate::specs::Field::read_as))]
pub fn read_as(floats: Floats, kind: TypeKind, text: &[u8]) -> Option<Value>
    ensures { option_map val_of result ≡ read_as floats kind text.now }
{
    match kind {
        TypeKind::Integer => integer(text),
        TypeKind::Hex => Some(Value::Uint(hex(text)?)),
        TypeKind::Bool => Some(Value::Truth(truth(text)?)),
        TypeKind::Float => Some(Value::Float64(float_in(floats, text)?)),
        TypeKind::Text => None,
    }
}

/// Returns the value of a field. Bytes that don't have the form of the type are text.
#[tactic(auto, unfolding(crate::specs::Field::typed))]
fn value_of(alloc: Global, floats: Floats, kind: TypeKind, bytes: &[u8]) -> Result<Value, Memory>
    ensures { IfOk result (λ value. val_of value ≡ typed floats kind bytes.now) }
{
    match read_as(floats, kind, bytes) {
        Some(value) => Ok(value),
        None => Ok(Value::Text(Bytes::from_slice(alloc, bytes)?)),
    }
}

/// Returns the type of a key. If a key is given twice, the last type counts; a key that isn't given has
/// text.
#[tactic(auto, unfolding(crate::specs::Field::kind_of))]
pub fn kind_of(types: &FieldTypes, key: &[u8]) -> TypeKind
    ensures { result ≡ kind_of types.now key.now }
{
    let mut kind = TypeKind::Text;
    for given in types.as_slice() {
        kind = kind_after(given, key, kind);
    }
    kind
}

/// Returns the type of a key after one more given type.
fn kind_after(given: &FieldType, key: &[u8], former: TypeKind) -> TypeKind
    ensures { result ≡ (if bytes_eq given.now.key key.now then given.now.kind else former) }
{
    if given.key.as_slice() == key {
        given.kind
    } else {
        former
    }
}

/// Returns the fields of the groups that took part, in order.
#[tactic(auto, using(crate::proofs::Groups::fields_of_more))]
pub fn fields_of(
    alloc: Global,
    floats: Floats,
    types: &FieldTypes,
    skip_empty: bool,
    groups: &[Capture<'_, '_>],
) -> Result<Pairs, Memory>
    ensures { IfOk result (λ body. body ≡ fields_of floats types.now skip_empty (map captured groups.now)) }
{
    let mut body = Pairs::new(alloc);
    body.reserve(groups.len())?;
    for group in groups {
        push_field(alloc, &mut body, floats, types, skip_empty, group)?;
    }
    Ok(body)
}

/// Appends the field of a group, unless the group is empty and empty ones are skipped.
fn push_field(
    alloc: Global,
    body: &mut Pairs,
    floats: Floats,
    types: &FieldTypes,
    skip_empty: bool,
    group: &Capture<'_, '_>,
) -> Result<(), Memory>
    ensures { OnOk result (body.new ≡ body.old ++ fields_of floats types.now skip_empty (captured group.now ∷ [])) }
{
    if skip_empty && group.bytes.is_empty() {
        return Ok(());
    }
    let value = value_of(alloc, floats, kind_of(types, group.name), group.bytes)?;
    let key = Value::Text(Bytes::from_slice(alloc, group.name)?);
    body.push((key, value))
}
