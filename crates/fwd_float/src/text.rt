//! A short text of its own room.

ghost use Rattle.std.specs.Prelude.{◌≡◌, ◌+◌, ◌<◌, ◌≤◌, List, ℕ, [], ◌∷◌, ◌++◌, length, take, replicate};

use std::marker::Model;

const ROOM: usize = 25;

/// The text of a float, of at most 25 bytes.
#[derive(Drop)]
pub struct FloatText {
    bytes: [u8; ROOM],
    len: usize,
}

impl Model for FloatText {
    ghost Value = { List ℕ };

    ghost view = { λ t. take t.len t.bytes };

    ghost invariant = { λ t. t.len ≤ 25 };
}

impl FloatText {
    pub(crate) fn new() -> FloatText
        ensures { result ≡ [] }
    {
        FloatText {
            bytes: [0; ROOM],
            len: 0,
        }
    }

    /// The text's bytes.
    pub fn as_bytes(&self) -> &[u8]
        ensures text { result.now ≡ self.now }
        ensures short { length result.now ≤ 25 }
    {
        &self.bytes[..self.len]
    }

    pub(crate) fn push(&mut self, byte: u8)
        requires { length self.old < 25 }
        ensures { self.new ≡ self.old ++ byte ∷ [] }
    {
        self.bytes[self.len] = byte;
        self.len += 1;
    }

    pub(crate) fn append(&mut self, bytes: &[u8])
        requires { length self.old + length bytes.now ≤ 25 }
        ensures { self.new ≡ self.old ++ bytes.now }
    {
        for byte in bytes {
            self.push(*byte);
        }
    }

    pub(crate) fn append_zeros(&mut self, count: u64)
        requires { length self.old + count ≤ 25 }
        ensures { self.new ≡ self.old ++ replicate count 48 }
    {
        for _ in 0..count {
            self.push(b'0');
        }
    }
}
