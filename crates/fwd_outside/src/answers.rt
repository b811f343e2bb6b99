//! Answers of a loop. Each has a case for memory that is out.

use fwd_base::LinkId;

/// The answer to `Loop::start`.
#[derive(Clone, Copy, Debug, PartialEq, Eq)]
pub enum Begun {
    Ready,
    /// An endpoint isn't available.
    Failed,
    Memory,
}

/// The answer to `Loop::dial`.
#[derive(Clone, Copy, Debug, PartialEq, Eq)]
pub enum Dialed {
    /// The link to the endpoint of the output. Its number is greater than all before.
    Link(LinkId),
    Refused,
    Memory,
}

/// The answer to `Loop::push`.
#[derive(Clone, Copy, Debug, PartialEq, Eq)]
pub enum Pushed {
    /// The link accepted this many bytes from the beginning of the buffer.
    Took(u64),
    /// The link accepts nothing now. A `Room` event follows when it does.
    Again,
    Broken,
    Memory,
}

/// The answer to `Loop::reply`.
#[derive(Clone, Copy, Debug, PartialEq, Eq)]
pub enum Replied {
    /// The connection accepted the whole reply.
    Taken,
    Broken,
    Memory,
}
