ghost use Rattle.std.specs.Prelude.{◌≡◌, [], IfOk, OnOk, OnErr};
ghost use Rattle.fwd_outside.specs.File.{overwritten};

use fwd_outside::Memory;
use std::alloc::Global;
use std::marker::Model;

/// The bytes of a file, which writes change in place.
#[derive(Drop)]
pub struct Content {
    bytes: Vec<u8>,
}

impl Model for Content {
    ghost use Rattle.std.specs.Prelude.{List, ℕ};

    ghost Value = { List ℕ };

    ghost view = { λ c. c.bytes.items };
}

impl Content {
    pub fn new(alloc: Global) -> Self
        ensures { result ≡ [] }
    {
        Content {
            bytes: Vec::new(alloc),
        }
    }

    pub fn from_slice(alloc: Global, bytes: &[u8]) -> Result<Self, Memory>
        ensures { IfOk result (λ copy. copy ≡ bytes.now) }
    {
        Ok(Content {
            bytes: Vec::from_slice(alloc, bytes)?,
        })
    }

    pub fn as_slice(&self) -> &[u8]
        ensures { result.now ≡ self.now }
    {
        self.bytes.as_slice()
    }

    /// Overwrites the bytes from an offset, and appends the rest; an offset above the end counts as the end.
    /// `Err` leaves the bytes unchanged.
    pub fn write(&mut self, at: usize, bytes: &[u8]) -> Result<(), Memory>
        ensures ok { OnOk result (self.new ≡ overwritten self.old at bytes.now) }
        ensures err { OnErr result (self.new ≡ self.old) }
    {
        let at = at.min(self.bytes.len());
        let inside = bytes.len().min(self.bytes.len() - at);
        self.bytes.extend_from_slice(&bytes[inside..])?;
        self.bytes[at..at + inside].copy_from_slice(&bytes[..inside]);
        Ok(())
    }
}
