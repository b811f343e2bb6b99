//! Reads the message of the handshake at the start of a stream.

ghost use Rattle.std.specs.Prelude.{◌≡◌, IfOk};
ghost use Rattle.fwd_value.specs.View.{val_of};
ghost use Rattle.fwd_handshake.specs.Members.{nonce_of, salt_of, host_of};
ghost use Rattle.fwd_handshake.specs.Judgement.{helo_received, ping_received, pong_received};
ghost use Rattle.fwd_handshake.specs.Undecodable.{ReceivedWithout};

use crate::{Received, Ring, members};
use fwd_base::{Bytes, Memory};
use fwd_msgpack::{DecodeErr, Value, decode};
use std::alloc::Global;

/// Judges a stream of this many bytes in which the decoder finds no value.
fn received_without(error: DecodeErr, length: usize) -> Result<Received, Memory>
    ensures { ReceivedWithout error length result }
{
    match error {
        DecodeErr::Short => Ok(Received::short(length)),
        DecodeErr::Unused { .. } | DecodeErr::TooDeep { .. } => Ok(Received::Wrong),
        DecodeErr::Memory => Err(Memory),
    }
}

/// Returns the nonce, if a value is a HELO.
fn nonce_of(alloc: Global, value: &Value) -> Result<Option<Bytes>, Memory>
    ensures { IfOk result (λ nonce. nonce ≡ nonce_of (val_of value.now)) }
{
    match value {
        Value::List(values) => members::nonce_of(alloc, values.as_slice()),
        _ => Ok(None),
    }
}

/// Returns the salt, if a value is a PING that shows the key.
fn salt_of(alloc: Global, ring: &Ring, nonce: &[u8], value: &Value) -> Result<Option<Bytes>, Memory>
    ensures { IfOk result (λ salt. salt ≡ salt_of ring.now nonce.now (val_of value.now)) }
{
    match value {
        Value::List(values) => members::salt_of(alloc, ring, nonce, values.as_slice()),
        _ => Ok(None),
    }
}

/// Returns the host, if a value is a PONG that accepts and shows the key.
fn host_of(
    alloc: Global,
    ring: &Ring,
    salt: &[u8],
    nonce: &[u8],
    value: &Value,
) -> Result<Option<Bytes>, Memory>
    ensures { IfOk result (λ host. host ≡ host_of ring.now salt.now nonce.now (val_of value.now)) }
{
    match value {
        Value::List(values) => members::host_of(alloc, ring, salt, nonce, values.as_slice()),
        _ => Ok(None),
    }
}

/// Reads the HELO at the start of a stream. A right one has a nonce, which may be empty.
pub fn read_helo(alloc: Global, stream: &[u8]) -> Result<Received, Memory>
    ensures { IfOk result (λ received. received ≡ helo_received stream.now) }
{
    match decode(alloc, stream) {
        Ok((value, len)) => {
            let content = nonce_of(alloc, &value)?;
            Ok(Received::of_content(len, content))
        }
        Err(error) => received_without(error, stream.len()),
    }
}

/// Reads the PING at the start of a stream. A right one has the digest of its salt, of the host that it names
/// and of this nonce.
pub fn read_ping(
    alloc: Global,
    ring: &Ring,
    nonce: &[u8],
    stream: &[u8],
) -> Result<Received, Memory>
    ensures { IfOk result (λ received. received ≡ ping_received ring.now nonce.now stream.now) }
{
    match decode(alloc, stream) {
        Ok((value, len)) => {
            let content = salt_of(alloc, ring, nonce, &value)?;
            Ok(Received::of_content(len, content))
        }
        Err(error) => received_without(error, stream.len()),
    }
}

/// Reads the PONG at the start of a stream. A right one accepts, names another host than the own, and has the
/// digest of that host, of this salt and of this nonce.
pub fn read_pong(
    alloc: Global,
    ring: &Ring,
    salt: &[u8],
    nonce: &[u8],
    stream: &[u8],
) -> Result<Received, Memory>
    ensures { IfOk result (λ received. received ≡ pong_received ring.now salt.now nonce.now stream.now) }
{
    match decode(alloc, stream) {
        Ok((value, len)) => {
            let content = host_of(alloc, ring, salt, nonce, &value)?;
            Ok(Received::of_content(len, content))
        }
        Err(error) => received_without(error, stream.len()),
    }
}
