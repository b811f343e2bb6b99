//! The open connections.

ghost use Rattle.std.specs.Prelude.{◌≡◌, ◌==◌, ℕ, Some, None, OnOk, OnErr, if◌then◌else◌};
ghost use Rattle.fwd_frames.specs.Streams.{conn_input};

use fwd_base::Memory;
use std::alloc::Global;
use std::collections::BTreeMap;

/// The open connections, with the input of each.
#[derive(Debug, Drop)]
pub struct Connections {
    inputs: BTreeMap<u64, u32>,
}

impl Connections {
    /// Creates a set without connections.
    pub fn new(alloc: Global) -> Self
        ensures { (conn : ℕ) → conn_input result conn ≡ None }
    {
        Connections {
            inputs: BTreeMap::new(alloc),
        }
    }

    /// Returns the input of a connection, or `None` if the connection isn't open.
    pub fn input(&self, conn: u64) -> Option<u32>
        ensures { result ≡ conn_input self.now conn }
    {
        self.inputs.get(&conn).copied()
    }

    /// Adds a connection to an input. The others are unchanged; after `Memory` all are.
    pub fn join(&mut self, conn: u64, input: u32) -> Result<(), Memory>
        ensures ok { OnOk result ((c : ℕ) → conn_input self.new c
            ≡ (if conn == c then Some input else conn_input self.old c)) }
        ensures err { OnErr result ((c : ℕ) → conn_input self.new c ≡ conn_input self.old c) }
    {
        self.inputs.insert(conn, input)?;
        Ok(())
    }

    /// Removes a connection. The others are unchanged.
    pub fn leave(&mut self, conn: u64)
        ensures { (c : ℕ) → conn_input self.new c ≡ (if conn == c then None else conn_input self.old c) }
    {
        self.inputs.remove(&conn);
    }
}
