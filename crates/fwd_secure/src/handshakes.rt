//! Handshakes under way, and bytes that were kept.

ghost use Rattle.std.specs.Prelude.{◌≡◌, IfOk};
ghost use Rattle.fwd_secure.specs.RandomBytes.{random_bytes};
ghost use Rattle.fwd_secure.specs.Kept.{is_given, is_of_conn, is_of_link, event_of};

use fwd_base::{Bytes, ConnId, InputId, LinkId, Memory, OutputId, is_set};
use fwd_outside::Happening;
use std::alloc::Global;

/// Sixteen random bytes, as the two words that they were drawn in.
#[derive(Clone, Copy)]
pub struct RandomBytes {
    pub first: u64,
    pub second: u64,
}

impl RandomBytes {
    /// Returns the bytes, each word in big-endian order.
    pub fn to_bytes(self, alloc: Global) -> Result<Bytes, Memory>
        ensures { IfOk result (λ bytes. bytes ≡ random_bytes self) }
    {
        let mut bytes = Bytes::from_slice(alloc, self.first.to_be_bytes().as_slice())?;
        bytes.extend_from_slice(self.second.to_be_bytes().as_slice())?;
        Ok(bytes)
    }
}

/// A connection of a keyed input that got a HELO. Its bytes are held until its PING is complete.
#[derive(Drop)]
pub struct HeldConn {
    pub input: InputId,
    /// The nonce of the HELO.
    pub nonce: RandomBytes,
    /// What came over the connection since.
    pub received: Bytes,
}

/// The next step of the handshake of a link.
#[derive(Drop)]
pub enum Step {
    /// The server is to send a HELO.
    AwaitsHelo,
    /// The link is to take the rest of the PING.
    SendsPing { rest: Bytes },
    /// The server is to send a PONG.
    AwaitsPong,
}

/// The handshake of a link of a keyed output.
#[derive(Drop)]
pub struct LinkHandshake {
    pub output: OutputId,
    /// The salt of the PING.
    pub salt: RandomBytes,
    /// The nonce of the HELO; empty before it.
    pub nonce: Bytes,
    /// What came back over the link and isn't read yet.
    pub received: Bytes,
    pub step: Step,
}

/// Bytes that came after a PING or a PONG. A later `wait` gives them.
#[derive(Drop)]
pub enum KeptBytes {
    OfConn {
        input: InputId,
        conn: ConnId,
        bytes: Bytes,
    },
    OfLink {
        link: LinkId,
        bytes: Bytes,
    },
}

impl KeptBytes {
    /// Returns whether a `wait` with this mask of paused inputs may give the bytes.
    pub fn is_given(&self, paused: u64) -> bool
        ensures { result ≡ is_given paused self.now }
    {
        match self {
            KeptBytes::OfConn { input, .. } => !is_set(paused, input.0),
            KeptBytes::OfLink { .. } => true,
        }
    }

    /// Returns whether the bytes came over this connection.
    pub fn is_of_conn(&self, conn: ConnId) -> bool
        ensures { result ≡ is_of_conn conn.0 self.now }
    {
        match self {
            KeptBytes::OfConn { conn: other, .. } => other.0 == conn.0,
            KeptBytes::OfLink { .. } => false,
        }
    }

    /// Returns whether the bytes came back over this link.
    pub fn is_of_link(&self, link: LinkId) -> bool
        ensures { result ≡ is_of_link link.0 self.now }
    {
        match self {
            KeptBytes::OfConn { .. } => false,
            KeptBytes::OfLink { link: other, .. } => other.0 == link.0,
        }
    }

    /// Returns the event that gives the bytes.
    pub fn into_event(self) -> Happening
        ensures { result ≡ event_of self }
    {
        match self {
            KeptBytes::OfConn { input, conn, bytes } => Happening::Piece { input, conn, bytes },
            KeptBytes::OfLink { link, bytes } => Happening::Back { link, bytes },
        }
    }
}
