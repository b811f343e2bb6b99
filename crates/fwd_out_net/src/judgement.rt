//! Judges a reply by its first value.

ghost use Rattle.std.specs.Prelude.{◌≡◌, ◌&&◌, map, IfOk};
ghost use Rattle.fwd_value.specs.Val.{mapping, entries_of};
ghost use Rattle.fwd_value.specs.View.{val_of, pair_of};
ghost use Rattle.fwd_value.specs.Keys.{is_text};
ghost use Rattle.fwd_wire.specs.Encode.{ack_key};
ghost use Rattle.fwd_out_net.specs.Judgement.{is_ack, value_judgement, short_judgement, ack_judgement};
ghost use Rattle.fwd_out_net.specs.Undecodable.{JudgedWithout};

use fwd_base::limits::LONGEST_REPLY;
use fwd_base::{Bytes, Memory};
use fwd_flush::Judged;
use fwd_msgpack::{DecodeErr, Pairs, Value, decode};
use fwd_value::is_text;
use std::alloc::Global;

/// Returns whether a pair is the key and the id, both as texts.
fn is_ack_pair(pair: &(Value, Value), key: &Bytes, id: &Bytes) -> bool
    ensures { result ≡ (is_text key.now (val_of pair.now.0) && is_text id.now (val_of pair.now.1)) }
{
    is_text(&pair.0, key) && is_text(&pair.1, id)
}

/// Returns whether that pair is the only one.
fn are_ack(pairs: &[(Value, Value)], key: &Bytes, id: &Bytes) -> bool
    requires { key.now ≡ ack_key }
    ensures { result ≡ is_ack id.now (mapping (entries_of (map pair_of pairs.now))) }
{
    match pairs {
        [] => false,
        [pair] => is_ack_pair(pair, key, id),
        [_, _, ..] => false,
    }
}

/// Returns whether a map is `ack` with the id.
fn is_ack_map(alloc: Global, pairs: &Pairs, id: &Bytes) -> Result<bool, Memory>
    ensures { IfOk result (λ is. is ≡ is_ack id.now (mapping (entries_of pairs.now))) }
{
    let key = Bytes::from_slice(alloc, b"ack")?;
    Ok(are_ack(pairs.as_slice(), &key, id))
}

/// Returns whether a value is the map of `ack` with the id.
fn is_ack(alloc: Global, value: &Value, id: &Bytes) -> Result<bool, Memory>
    ensures { IfOk result (λ is. is ≡ is_ack id.now (val_of value.now)) }
{
    match value {
        Value::Map(pairs) => is_ack_map(alloc, pairs, id),
        _ => Ok(false),
    }
}

/// Judges a reply by its first value.
fn value_judgement(alloc: Global, value: &Value, id: &Bytes) -> Result<Judged, Memory>
    ensures { IfOk result (λ judgement. judgement ≡ value_judgement id.now (val_of value.now)) }
{
    if is_ack(alloc, value, id)? {
        Ok(Judged::Right)
    } else {
        Ok(Judged::Wrong)
    }
}

/// Judges a reply of so many bytes that ends inside its first value.
fn short(length: usize) -> Judged
    ensures { result ≡ short_judgement length }
{
    if length <= LONGEST_REPLY {
        Judged::More
    } else {
        Judged::Wrong
    }
}

/// Judges a reply of so many bytes without a first value.
fn judge_undecodable(error: DecodeErr, length: usize) -> Result<Judged, Memory>
    ensures { JudgedWithout error length result }
{
    match error {
        DecodeErr::Short => Ok(short(length)),
        DecodeErr::Unused { .. } | DecodeErr::TooDeep { .. } => Ok(Judged::Wrong),
        DecodeErr::Memory => Err(Memory),
    }
}

/// Judges a reply that has to acknowledge an id.
pub fn judgement_of(alloc: Global, id: &Bytes, reply: &[u8]) -> Result<Judged, Memory>
    ensures { IfOk result (λ judgement. judgement ≡ ack_judgement id.now reply.now) }
{
    match decode(alloc, reply) {
        Ok((value, _)) => value_judgement(alloc, &value, id),
        Err(error) => judge_undecodable(error, reply.len()),
    }
}
