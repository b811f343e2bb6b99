//! Events of the loop.

ghost use Rattle.std.specs.Prelude.{◌≡◌, IfOk};

use fwd_base::{Bytes, ConnId, InputId, LinkId, Memory};
use std::alloc::Global;

/// An event of the loop. Nothing else changes the engine.
#[derive(Debug, Drop, PartialEq, Eq)]
pub enum Happening {
    /// The clock reads `now`, in milliseconds.
    Tick {
        now: u64,
    },
    /// A peer has connected to an input.
    Joined {
        input: InputId,
        conn: ConnId,
    },
    /// Bytes came over a connection: one to `LONGEST_PIECE` of them.
    Piece {
        input: InputId,
        conn: ConnId,
        bytes: Bytes,
    },
    /// The connection of a peer has ended.
    Gone {
        input: InputId,
        conn: ConnId,
    },
    /// A link accepts bytes again.
    Room {
        link: LinkId,
    },
    /// Bytes came back over a link.
    Back {
        link: LinkId,
        bytes: Bytes,
    },
    /// A link broke.
    Broken {
        link: LinkId,
    },
    /// An input has reached its end.
    InputEnd {
        input: InputId,
    },
    /// The engine accepts no further input, and ends once nothing is pending.
    Stop,
    /// No further event comes.
    End,
    /// The loop can't continue.
    Failed,
}

impl Happening {
    /// Returns a copy. Fails only if memory is out.
    pub fn try_clone(&self, alloc: Global) -> Result<Happening, Memory>
        ensures { IfOk result (λ copy. copy ≡ self.now) }
    {
        Ok(match self {
            Happening::Tick { now } => Happening::Tick { now: *now },
            Happening::Joined { input, conn } => Happening::Joined {
                input: *input,
                conn: *conn,
            },
            Happening::Piece { input, conn, bytes } => Happening::Piece {
                input: *input,
                conn: *conn,
                bytes: bytes.try_clone(alloc)?,
            },
            Happening::Gone { input, conn } => Happening::Gone {
                input: *input,
                conn: *conn,
            },
            Happening::Room { link } => Happening::Room { link: *link },
            Happening::Back { link, bytes } => Happening::Back {
                link: *link,
                bytes: bytes.try_clone(alloc)?,
            },
            Happening::Broken { link } => Happening::Broken { link: *link },
            Happening::InputEnd { input } => Happening::InputEnd { input: *input },
            Happening::Stop => Happening::Stop,
            Happening::End => Happening::End,
            Happening::Failed => Happening::Failed,
        })
    }
}
