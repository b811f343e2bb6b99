//! Endpoints: where inputs get their bytes from, and where outputs send theirs.

ghost use Rattle.std.specs.Prelude.{◌≡◌, IfOk};

use fwd_base::{Bytes, Items, Memory, clone_optional};
use std::alloc::Global;

/// The endpoint of an input.
#[derive(Debug, Drop, PartialEq, Eq)]
pub enum InEnd {
    /// A port that peers connect to.
    Listen { host: Bytes, port: u16 },
    Stdin,
    /// No endpoint: the loop brings nothing for this input.
    Quiet,
}

impl InEnd {
    /// Returns a copy of the endpoint.
    pub fn try_clone(&self, alloc: Global) -> Result<InEnd, Memory>
        ensures { IfOk result (λ copy. copy ≡ self.now) }
    {
        Ok(match self {
            InEnd::Listen { host, port } => InEnd::Listen {
                host: host.try_clone(alloc)?,
                port: *port,
            },
            InEnd::Stdin => InEnd::Stdin,
            InEnd::Quiet => InEnd::Quiet,
        })
    }
}

/// The endpoint of an output.
#[derive(Debug, Drop, PartialEq, Eq)]
pub enum OutEnd {
    Stdout,
    /// A file in a folder. Without a name, the tag is its name.
    Folder { path: Bytes, file: Option<Bytes> },
    /// A peer to connect to.
    Peer { host: Bytes, port: u16 },
}

impl OutEnd {
    /// Returns a copy of the endpoint.
    pub fn try_clone(&self, alloc: Global) -> Result<OutEnd, Memory>
        ensures { IfOk result (λ copy. copy ≡ self.now) }
    {
        Ok(match self {
            OutEnd::Stdout => OutEnd::Stdout,
            OutEnd::Folder { path, file } => OutEnd::Folder {
                path: path.try_clone(alloc)?,
                file: clone_optional(alloc, file)?,
            },
            OutEnd::Peer { host, port } => OutEnd::Peer {
                host: host.try_clone(alloc)?,
                port: *port,
            },
        })
    }
}

/// The endpoints of the inputs, in the order of the configuration.
pub type InEnds = Items<InEnd>;

/// The endpoints of the outputs, in the order of the configuration.
pub type OutEnds = Items<OutEnd>;

/// The endpoints of all inputs and outputs.
#[derive(Debug, Drop, PartialEq, Eq)]
pub struct Ends {
    pub inputs: InEnds,
    pub outputs: OutEnds,
}
