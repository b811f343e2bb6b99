//! The record of a script's calls.

use fwd_outside::{Bytes, ConnId, Ends, Happening, LinkId, OutputId};
use fwd_script::PushWord;

/// A call of a script with its answer.
#[derive(Debug, Drop)]
pub enum LoopNote {
    /// A start that was ready.
    Start {
        ends: Ends,
    },
    /// A wait and its event.
    Wait {
        until: u64,
        paused: u64,
        brought: Happening,
    },
    /// A dial. `None` if it was refused.
    Dial {
        output: OutputId,
        tag: Bytes,
        link: Option<u64>,
    },
    /// A push. For `Took` it has the number of bytes that were written.
    Push {
        link: LinkId,
        bytes: Bytes,
        answer: PushWord,
    },
    Close {
        link: LinkId,
    },
    /// A reply, which was written or not.
    Reply {
        conn: ConnId,
        bytes: Bytes,
        taken: bool,
    },
    DropConn {
        conn: ConnId,
    },
    Word {
        word: u64,
    },
}
