//! The test whether a value can be encoded.

ghost use Rattle.std.specs.Prelude.{◌≡◌, ◌↔◌, ◌≤◌, ◌<◌, ◌^◌, map, IsTrue};
ghost use Rattle.fwd_value.specs.Val.{vals_of, entries_of, mapping};
ghost use Rattle.fwd_value.specs.View.{val_of, pair_of};
ghost use Rattle.fwd_value.specs.Limits.{entry_nestings, LengthsFit, AllLengthsFit, EntryLengthsFit};

use fwd_value::{Pairs, Value};

/// Returns whether a map of these pairs can be encoded: its keys and values are nested at most `depth` deep,
/// and every length is below 2^32.
pub fn can_encode_map(pairs: &Pairs, depth: u64) -> bool
    ensures { IsTrue result ↔ (entry_nestings (entries_of pairs.now) ≤ depth)
        × LengthsFit (mapping (entries_of pairs.now)) }
{
    pairs.nest_within(depth) && map_lengths_fit(pairs)
}

fn map_lengths_fit(pairs: &Pairs) -> bool
    ensures { IsTrue result ↔ LengthsFit (mapping (entries_of pairs.now)) }
{
    has_length_form(pairs.len()) && entry_lengths_fit(pairs.as_slice())
}

fn has_length_form(length: usize) -> bool
    ensures { IsTrue result ↔ (length < 2 ^ 32) }
{
    length < 4_294_967_296
}

#[cycle(lengths)]
fn lengths_fit(value: &Value) -> bool
    ensures { IsTrue result ↔ LengthsFit (val_of value.now) }
{
    match value {
        Value::Text(bytes) => has_length_form(bytes.len()),
        Value::Bin(bytes) => has_length_form(bytes.len()),
        Value::Ext(_, bytes) => has_length_form(bytes.len()),
        Value::List(values) => has_length_form(values.len()) && all_lengths_fit(values.as_slice()),
        Value::Map(pairs) => has_length_form(pairs.len()) && entry_lengths_fit(pairs.as_slice()),
        Value::Nil
        | Value::Truth(_)
        | Value::Uint(_)
        | Value::Neg(_)
        | Value::Float32(_)
        | Value::Float64(_) => true,
    }
}

#[cycle(lengths)]
fn all_lengths_fit(values: &[Value]) -> bool
    ensures { IsTrue result ↔ AllLengthsFit (vals_of (map val_of values.now)) }
{
    for value in values {
        if !lengths_fit(value) {
            return false;
        }
    }
    true
}

#[cycle(lengths)]
fn entry_lengths_fit(pairs: &[(Value, Value)]) -> bool
    ensures { IsTrue result ↔ EntryLengthsFit (entries_of (map pair_of pairs.now)) }
{
    for pair in pairs {
        if !lengths_fit(&pair.0) || !lengths_fit(&pair.1) {
            return false;
        }
    }
    true
}
