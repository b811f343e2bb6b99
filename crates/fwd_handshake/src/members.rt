//! The members of the messages of the handshake.

ghost use Rattle.std.specs.Prelude.{◌≡◌, ◌&&◌, if◌then◌else◌, map, Some, None, IfOk};
ghost use Rattle.fwd_value.specs.Val.{list, mapping, vals_of, entries_of};
ghost use Rattle.fwd_value.specs.View.{val_of};
ghost use Rattle.fwd_handshake.specs.Messages.{pong_word};
ghost use Rattle.fwd_handshake.specs.Members.{bytes_of, is_bytes, is_true, is_digest, bytes_read, nonce_in, nonce_of, ping_digest, salt_of, pong_digest, host_of};

use crate::Ring;
use crate::digest::key_digest;
use fwd_base::{Bytes, Memory};
use fwd_msgpack::{Pairs, Value};
use fwd_value::value_of;
use std::alloc::Global;

/// Returns the bytes of a text or a bin, which are taken alike.
fn bytes_of(value: &Value) -> Option<&[u8]>
    ensures { bytes_read result ≡ bytes_of (val_of value.now) }
{
    match value {
        Value::Text(bytes) => Some(bytes.as_slice()),
        Value::Bin(bytes) => Some(bytes.as_slice()),
        _ => None,
    }
}

/// Returns whether a value is a text or a bin of these bytes.
fn is_bytes(wanted: &[u8], value: &Value) -> bool
    ensures { result ≡ is_bytes wanted.now (val_of value.now) }
{
    match value {
        Value::Text(bytes) => bytes.as_slice() == wanted,
        Value::Bin(bytes) => bytes.as_slice() == wanted,
        _ => false,
    }
}

/// Returns whether a value is true.
fn is_true(value: &Value) -> bool
    ensures { result ≡ is_true (val_of value.now) }
{
    match value {
        Value::Truth(truth) => *truth,
        _ => false,
    }
}

/// Returns whether a value is the wanted digest, if there is one.
fn is_digest(wanted: &Option<Bytes>, value: &Value) -> bool
    ensures { result ≡ is_digest wanted.now (val_of value.now) }
{
    match wanted {
        Some(digest) => is_bytes(digest.as_slice(), value),
        None => false,
    }
}

/// Returns a copy of the bytes of a text or a bin.
fn copied_bytes(alloc: Global, value: &Value) -> Result<Option<Bytes>, Memory>
    ensures { IfOk result (λ copy. copy ≡ bytes_of (val_of value.now)) }
{
    match bytes_of(value) {
        Some(bytes) => Ok(Some(Bytes::from_slice(alloc, bytes)?)),
        None => Ok(None),
    }
}

/// Returns whether a message begins with its word and has the wanted digest.
fn is_shown(wanted_word: &[u8], word: &Value, wanted: &Option<Bytes>, digest: &Value) -> bool
    ensures { result ≡ (is_bytes wanted_word.now (val_of word.now)
        && is_digest wanted.now (val_of digest.now)) }
{
    is_bytes(wanted_word, word) && is_digest(wanted, digest)
}

/// Returns a copy of the bytes of a text or a bin, if they are wanted.
fn copied_if(alloc: Global, is_wanted: bool, value: &Value) -> Result<Option<Bytes>, Memory>
    ensures { IfOk result (λ copy. copy ≡ (if is_wanted then bytes_of (val_of value.now) else None)) }
{
    if is_wanted {
        copied_bytes(alloc, value)
    } else {
        Ok(None)
    }
}

/// Returns the nonce of the options of a HELO.
fn nonce_in_pairs(alloc: Global, options: &Pairs) -> Result<Option<Bytes>, Memory>
    ensures { IfOk result (λ nonce. nonce ≡ nonce_in (mapping (entries_of options.now))) }
{
    let key = Bytes::from_slice(alloc, b"nonce")?;
    match value_of(options, &key) {
        Some(nonce) => copied_bytes(alloc, nonce),
        None => Ok(None),
    }
}

/// Returns the nonce, if a value is a map with one.
fn nonce_in(alloc: Global, options: &Value) -> Result<Option<Bytes>, Memory>
    ensures { IfOk result (λ nonce. nonce ≡ nonce_in (val_of options.now)) }
{
    match options {
        Value::Map(pairs) => nonce_in_pairs(alloc, pairs),
        _ => Ok(None),
    }
}

/// Returns the nonce, if these are the members of a HELO.
#[tactic(auto, using(crate::proofs::RightMessages::not_two))]
pub fn nonce_of(alloc: Global, members: &[Value]) -> Result<Option<Bytes>, Memory>
    ensures { IfOk result (λ nonce. nonce ≡ nonce_of (list (vals_of (map val_of members.now)))) }
{
    let [word, options] = members else {
        return Ok(None);
    };
    if is_bytes(b"HELO", word) {
        nonce_in(alloc, options)
    } else {
        Ok(None)
    }
}

/// Returns the digest that a PING has to have, if its host and its salt are texts or bins.
fn ping_digest(
    alloc: Global,
    ring: &Ring,
    nonce: &[u8],
    host: &Value,
    salt: &Value,
) -> Result<Option<Bytes>, Memory>
    ensures { IfOk result (λ digest. digest
        ≡ ping_digest ring.now nonce.now (bytes_of (val_of host.now)) (bytes_of (val_of salt.now))) }
{
    let Some(host) = bytes_of(host) else {
        return Ok(None);
    };
    match bytes_of(salt) {
        Some(salt) => Ok(Some(key_digest(alloc, ring, salt, host, nonce)?)),
        None => Ok(None),
    }
}

/// Returns the salt, if these are the members of a PING that shows the key.
#[tactic(auto, using(crate::proofs::RightMessages::not_six))]
pub fn salt_of(
    alloc: Global,
    ring: &Ring,
    nonce: &[u8],
    members: &[Value],
) -> Result<Option<Bytes>, Memory>
    ensures { IfOk result (λ salt. salt
        ≡ salt_of ring.now nonce.now (list (vals_of (map val_of members.now)))) }
{
    let [word, host, salt, digest, _, _] = members else {
        return Ok(None);
    };
    let wanted = ping_digest(alloc, ring, nonce, host, salt)?;
    copied_if(alloc, is_shown(b"PING", word, &wanted, digest), salt)
}

/// Returns the digest that a PONG of a host has to have, unless it is the own host.
fn other_digest(
    alloc: Global,
    ring: &Ring,
    salt: &[u8],
    nonce: &[u8],
    host: &[u8],
) -> Result<Option<Bytes>, Memory>
    ensures { IfOk result (λ digest. digest ≡ pong_digest ring.now salt.now nonce.now (Some host.now)) }
{
    if host == ring.host.as_slice() {
        return Ok(None);
    }
    Ok(Some(key_digest(alloc, ring, salt, host, nonce)?))
}

/// Returns the digest that a PONG has to have, if its host is a text or a bin and not the own host.
fn pong_digest(
    alloc: Global,
    ring: &Ring,
    salt: &[u8],
    nonce: &[u8],
    host: &Value,
) -> Result<Option<Bytes>, Memory>
    ensures { IfOk result (λ digest. digest
        ≡ pong_digest ring.now salt.now nonce.now (bytes_of (val_of host.now))) }
{
    match bytes_of(host) {
        Some(host) => other_digest(alloc, ring, salt, nonce, host),
        None => Ok(None),
    }
}

/// Returns whether a PONG begins with its word, accepts and has the wanted digest.
fn is_accepted(word: &Value, accepted: &Value, wanted: &Option<Bytes>, digest: &Value) -> bool
    ensures { result ≡ (is_true (val_of accepted.now)
        && (is_bytes pong_word (val_of word.now) && is_digest wanted.now (val_of digest.now))) }
{
    is_true(accepted) && is_shown(b"PONG", word, wanted, digest)
}

/// Returns the host, if these are the members of a PONG that accepts and shows the key.
#[tactic(auto, using(crate::proofs::RightMessages::not_five))]
pub fn host_of(
    alloc: Global,
    ring: &Ring,
    salt: &[u8],
    nonce: &[u8],
    members: &[Value],
) -> Result<Option<Bytes>, Memory>
    ensures { IfOk result (λ host. host
        ≡ host_of ring.now salt.now nonce.now (list (vals_of (map val_of members.now)))) }
{
    let [word, accepted, _, host, digest] = members else {
        return Ok(None);
    };
    let wanted = pong_digest(alloc, ring, salt, nonce, host)?;
    copied_if(alloc, is_accepted(word, accepted, &wanted, digest), host)
}
