//! Upper bounds on the encoded size of events.

ghost use Rattle.std.specs.Prelude.{◌≤◌, ◌<◌, ◌-◌, ◌^◌, min, map, length, All, IsTrue};
ghost use Rattle.fwd_value.specs.Val.{vals_of, entries_of, mapping};
ghost use Rattle.fwd_value.specs.View.{val_of, pair_of};
ghost use Rattle.fwd_msgpack.specs.Canonical.{canonical, canonical_all, canonical_entries};
ghost use Rattle.fwd_event.specs.Event.{event_val, EventFits};
ghost use Rattle.fwd_model.specs.Chunks.{encoded};

use fwd_event::{Event, Events, can_write};
use fwd_value::Value;

/// The longest encoding of a number.
const NUMBER: u64 = 9;

/// The longest header of a text, bytes, a list or a map.
const HEAD: u64 = 6;

/// The bytes of an event beside its metadata and its record.
const FRAME: u64 = 12;

/// Returns an upper bound on the encoded size of a value. It saturates.
#[cycle(sizes)]
fn size_of(value: &Value) -> u64
    ensures { min (length (canonical (val_of value.now))) (2 ^ 64 - 1) ≤ result }
{
    match value {
        Value::Nil => NUMBER,
        Value::Truth(_) => NUMBER,
        Value::Uint(_) => NUMBER,
        Value::Neg(_) => NUMBER,
        Value::Text(bytes) => (bytes.len() as u64).saturating_add(HEAD),
        Value::Bin(bytes) => (bytes.len() as u64).saturating_add(HEAD),
        Value::Float32(_) => NUMBER,
        Value::Float64(_) => NUMBER,
        Value::Ext(_, bytes) => (bytes.len() as u64).saturating_add(HEAD),
        Value::List(values) => sizes_of(values.as_slice()).saturating_add(HEAD),
        Value::Map(pairs) => pair_sizes(pairs.as_slice()).saturating_add(HEAD),
    }
}

#[cycle(sizes)]
fn sizes_of(values: &[Value]) -> u64
    ensures { min (length (canonical_all (vals_of (map val_of values.now)))) (2 ^ 64 - 1) ≤ result }
{
    let mut total: u64 = 0;
    for value in values {
        total = total.saturating_add(size_of(value));
    }
    total
}

#[cycle(sizes)]
fn pair_sizes(pairs: &[(Value, Value)]) -> u64
    ensures { min (length (canonical_entries (entries_of (map pair_of pairs.now)))) (2 ^ 64 - 1) ≤ result }
{
    let mut total: u64 = 0;
    for pair in pairs {
        total = total.saturating_add(size_of(&pair.0).saturating_add(size_of(&pair.1)));
    }
    total
}

/// Returns an upper bound on the encoded size of an event.
fn event_size(event: &Event) -> u64
    ensures { min (length (canonical (event_val event.now))) (2 ^ 64 - 1) ≤ result }
{
    let meta = pair_sizes(event.meta.as_slice()).saturating_add(HEAD);
    let body = pair_sizes(event.body.as_slice()).saturating_add(HEAD);
    meta.saturating_add(body).saturating_add(FRAME)
}

/// Returns whether events may be sent to every output: each can be encoded, and together they have less
/// than 2^32 bytes. Numbers and lengths count with their longest encoding, so this may be false for
/// somewhat fewer bytes.
pub fn fits_every_output(events: &Events) -> bool
    ensures fits { IsTrue result → All EventFits events.now }
    ensures size { IsTrue result → length (encoded events.now) < 2 ^ 32 }
{
    let mut total: u64 = 0;
    for event in events.as_slice() {
        if !can_write(event) {
            return false;
        }
        total = total.saturating_add(event_size(event));
    }
    total <= u64::from(u32::MAX)
}
