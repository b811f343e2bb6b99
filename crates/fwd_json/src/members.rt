//! The members of an object as pairs in the byte order of their keys.

ghost use Rattle.std.specs.Prelude.{◌≡◌, ◌↔◌, ◌<◌, length, IsTrue, OnOk};
ghost use Rattle.std.specs.Ordering.{nat_cmp};
ghost use Rattle.std.specs.Cmp.Lexicographic.{slice_cmp};
ghost use Rattle.fwd_value.specs.View.{val_of};
ghost use Rattle.fwd_json.specs.PutPair.{text_of, key_at, Rises, IsPlace, put_pair};

use fwd_base::{Bytes, Memory};
use fwd_value::{Pairs, Value};
use std::alloc::Global;
use std::cmp::Ordering;

/// Puts a value at a key: in the place of the value that is there, or as a new pair in the order of the keys.
pub(crate) fn put(alloc: Global, pairs: &mut Pairs, key: &[u8], value: Value) -> Result<(), Memory>
    requires { Rises pairs.old }
    ensures { OnOk result (pairs.new ≡ put_pair key.now (val_of value) pairs.old) }
{
    let place = place_of(pairs, key);
    if has_key_at(pairs, place, key) {
        pairs.set_value(place, value);
        return Ok(());
    }
    let key = Value::Text(Bytes::from_slice(alloc, key)?);
    pairs.insert(place, (key, value))
}

/// Returns the index of the first key that isn't below this one. Keys mostly come in their order, so it looks
/// at the last one first, and searches by halves if that isn't below.
fn place_of(pairs: &Pairs, key: &[u8]) -> usize
    requires { Rises pairs.now }
    ensures { IsPlace pairs.now key.now result }
{
    let mut low = 0;
    let mut high = pairs.len();
    if high > 0 && is_above(pairs, high - 1, key) {
        return high;
    }
    'halves: while low < high {
        let middle = low + (high - low) / 2;
        if is_above(pairs, middle, key) {
            low = middle + 1;
        } else {
            high = middle;
        }
    }
    low
}

/// Returns whether the pair at an index, if there is one, has the key.
fn has_key_at(pairs: &Pairs, index: usize, key: &[u8]) -> bool
    ensures { IsTrue result ↔ ((index < length pairs.now)
        × (slice_cmp nat_cmp key.now (key_at pairs.now index) ≡ Ordering.Equal)) }
{
    index < pairs.len() && matches!(order_at(pairs, index, key), Ordering::Equal)
}

/// Returns whether the key is above that at an index.
fn is_above(pairs: &Pairs, index: usize, key: &[u8]) -> bool
    requires { index < length pairs.now }
    ensures { IsTrue result ↔ (slice_cmp nat_cmp key.now (key_at pairs.now index) ≡ Ordering.Greater) }
{
    matches!(order_at(pairs, index, key), Ordering::Greater)
}

/// Compares the key with that at an index.
fn order_at(pairs: &Pairs, index: usize, key: &[u8]) -> Ordering
    requires { index < length pairs.now }
    ensures { result ≡ slice_cmp nat_cmp key.now (key_at pairs.now index) }
{
    key.cmp(text_of(&pairs.as_slice()[index].0))
}

/// Returns the bytes of a text key.
fn text_of(key: &Value) -> &[u8]
    ensures { result.now ≡ text_of (val_of key.now) }
{
    let Value::Text(bytes) = key else {
        return &[];
    };
    bytes.as_slice()
}
