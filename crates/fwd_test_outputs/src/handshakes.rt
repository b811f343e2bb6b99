//! Messages of the handshake.

use fwd_base::{Bytes, Memory};
use fwd_handshake::{Received, Ring, helo, ping, pong, read_helo, read_ping, read_pong};
use fwd_test_rows::{argument, put_bytes};
use std::alloc::Global;

/// The most bytes of a host, a salt or a nonce.
const LONGEST: usize = 0xffff_ffff;

fn ring_of(alloc: Global, key: &[u8], host: &[u8]) -> Result<Ring, Memory> {
    let key = Bytes::from_slice(alloc, key)?;
    let host = Bytes::from_slice(alloc, host)?;
    Ok(Ring { key, host })
}

/// Appends the HELO with a nonce.
pub fn put_helo(alloc: Global, out: &mut String, nonce: &[u8]) -> Result<(), Memory> {
    if nonce.len() > LONGEST {
        return Ok(());
    }
    let message = helo(alloc, nonce)?;
    put_bytes(out, message.as_slice())
}

fn new_ping(alloc: Global, ring: &Ring, salt: &[u8], nonce: &[u8]) -> Result<Bytes, Memory> {
    if ring.host.len() > LONGEST || salt.len() > LONGEST || nonce.len() > LONGEST {
        return Ok(Bytes::new(alloc));
    }
    ping(alloc, ring, salt, nonce)
}

fn new_pong(alloc: Global, ring: &Ring, salt: &[u8], nonce: &[u8]) -> Result<Bytes, Memory> {
    if ring.host.len() > LONGEST || salt.len() > LONGEST || nonce.len() > LONGEST {
        return Ok(Bytes::new(alloc));
    }
    pong(alloc, ring, salt, nonce)
}

/// `ping|KEY|HOST|SALT|NONCE`: appends the PING.
pub fn put_ping(alloc: Global, out: &mut String, row: &[Bytes]) -> Result<(), Memory> {
    let ring = ring_of(alloc, argument(row, 1), argument(row, 2))?;
    let message = new_ping(alloc, &ring, argument(row, 3), argument(row, 4))?;
    put_bytes(out, message.as_slice())
}

/// `pong|KEY|HOST|SALT|NONCE`: appends the PONG.
pub fn put_pong(alloc: Global, out: &mut String, row: &[Bytes]) -> Result<(), Memory> {
    let ring = ring_of(alloc, argument(row, 1), argument(row, 2))?;
    let message = new_pong(alloc, &ring, argument(row, 3), argument(row, 4))?;
    put_bytes(out, message.as_slice())
}

fn put_received(out: &mut String, received: &Received) -> Result<(), Memory> {
    match received {
        Received::More => Ok(out.push_str("more")?),
        Received::Right { len, content } => {
            write!(out, "right {len} ")?;
            put_bytes(out, content.as_slice())
        }
        Received::Wrong => Ok(out.push_str("wrong")?),
    }
}

/// Appends how a stream is read as a HELO.
pub fn put_read_helo(alloc: Global, out: &mut String, stream: &[u8]) -> Result<(), Memory> {
    let received = read_helo(alloc, stream)?;
    put_received(out, &received)
}

/// `read_ping|KEY|NONCE|STREAM`: appends how a stream is read as a PING.
pub fn put_read_ping(alloc: Global, out: &mut String, row: &[Bytes]) -> Result<(), Memory> {
    let ring = ring_of(alloc, argument(row, 1), b"")?;
    let received = read_ping(alloc, &ring, argument(row, 2), argument(row, 3))?;
    put_received(out, &received)
}

/// `read_pong|KEY|HOST|SALT|NONCE|STREAM`: appends how a stream is read as a PONG.
pub fn put_read_pong(alloc: Global, out: &mut String, row: &[Bytes]) -> Result<(), Memory> {
    let ring = ring_of(alloc, argument(row, 1), argument(row, 2))?;
    let received = read_pong(
        alloc,
        &ring,
        argument(row, 3),
        argument(row, 4),
        argument(row, 5),
    )?;
    put_received(out, &received)
}
