//! Writes the messages of the handshake.

ghost use Rattle.std.specs.Prelude.{◌≡◌, ◌<◌, ◌^◌, ◌++◌, length, IfOk, OnOk};
ghost use Rattle.fwd_value.specs.Val.{text, bin};
ghost use Rattle.fwd_msgpack.specs.Canonical.{canonical};
ghost use Rattle.fwd_handshake.specs.Messages.{helo, ping, pong, ping_with, pong_with};

use crate::Ring;
use crate::digest::key_digest;
use fwd_base::{Bytes, Memory};
use fwd_msgpack::{Value, encode};
use std::alloc::Global;

/// Appends a text.
fn put_text(alloc: Global, bytes: &[u8], out: &mut Bytes) -> Result<(), Memory>
    requires { length bytes.now < 2 ^ 32 }
    ensures { OnOk result (out.new ≡ out.old ++ canonical (text bytes.now)) }
{
    encode(&Value::Text(Bytes::from_slice(alloc, bytes)?), out)
}

/// Appends a bin.
fn put_bin(alloc: Global, bytes: &[u8], out: &mut Bytes) -> Result<(), Memory>
    requires { length bytes.now < 2 ^ 32 }
    ensures { OnOk result (out.new ≡ out.old ++ canonical (bin bytes.now)) }
{
    encode(&Value::Bin(Bytes::from_slice(alloc, bytes)?), out)
}

/// Returns the HELO with a nonce.
pub fn helo(alloc: Global, nonce: &[u8]) -> Result<Bytes, Memory>
    requires { length nonce.now < 2 ^ 32 }
    ensures { IfOk result (λ bytes. bytes ≡ helo nonce.now) }
{
    let mut out = Bytes::from_slice(alloc, b"\x92\xa4HELO\x83\xa5nonce")?;
    put_bin(alloc, nonce, &mut out)?;
    out.extend_from_slice(b"\xa4auth\xc4\x00\xa9keepalive\xc3")?;
    Ok(out)
}

/// Returns the PING of a host with this digest.
fn ping_with(alloc: Global, host: &[u8], salt: &[u8], digest: &[u8]) -> Result<Bytes, Memory>
    requires host { length host.now < 2 ^ 32 }
    requires salt { length salt.now < 2 ^ 32 }
    requires digest { length digest.now < 2 ^ 32 }
    ensures { IfOk result (λ bytes. bytes ≡ ping_with host.now salt.now digest.now) }
{
    let mut out = Bytes::from_slice(alloc, b"\x96\xa4PING")?;
    put_text(alloc, host, &mut out)?;
    put_bin(alloc, salt, &mut out)?;
    put_text(alloc, digest, &mut out)?;
    out.extend_from_slice(b"\xa0\xa0")?;
    Ok(out)
}

/// Returns the PING with a salt, in answer to a HELO with this nonce.
pub fn ping(alloc: Global, ring: &Ring, salt: &[u8], nonce: &[u8]) -> Result<Bytes, Memory>
    requires host { length ring.now.host < 2 ^ 32 }
    requires salt { length salt.now < 2 ^ 32 }
    requires nonce { length nonce.now < 2 ^ 32 }
    ensures { IfOk result (λ bytes. bytes ≡ ping ring.now salt.now nonce.now) }
{
    let host = ring.host.as_slice();
    let digest = key_digest(alloc, ring, salt, host, nonce)?;
    let digest_text = digest.as_slice();
    ping_with(alloc, host, salt, digest_text)
}

/// Returns the PONG of a host with this digest.
fn pong_with(alloc: Global, host: &[u8], digest: &[u8]) -> Result<Bytes, Memory>
    requires host { length host.now < 2 ^ 32 }
    requires digest { length digest.now < 2 ^ 32 }
    ensures { IfOk result (λ bytes. bytes ≡ pong_with host.now digest.now) }
{
    let mut out = Bytes::from_slice(alloc, b"\x95\xa4PONG\xc3\xa0")?;
    put_text(alloc, host, &mut out)?;
    put_text(alloc, digest, &mut out)?;
    Ok(out)
}

/// Returns the PONG in answer to a PING with this salt, after a HELO with this nonce.
pub fn pong(alloc: Global, ring: &Ring, salt: &[u8], nonce: &[u8]) -> Result<Bytes, Memory>
    requires host { length ring.now.host < 2 ^ 32 }
    requires salt { length salt.now < 2 ^ 32 }
    requires nonce { length nonce.now < 2 ^ 32 }
    ensures { IfOk result (λ bytes. bytes ≡ pong ring.now salt.now nonce.now) }
{
    let host = ring.host.as_slice();
    let digest = key_digest(alloc, ring, salt, host, nonce)?;
    let digest_text = digest.as_slice();
    pong_with(alloc, host, digest_text)
}
