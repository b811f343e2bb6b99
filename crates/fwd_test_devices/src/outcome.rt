//! The end of a run with one failing call.

/// How a library call, or a run, ended.
#[derive(Clone, Copy, Debug, PartialEq, Eq)]
pub enum Ended {
    /// It did everything.
    Done,
    /// It ran out of memory.
    Memory,
    Otherwise,
}

/// The result of a run in which one device call had to fail.
#[derive(Clone, Copy, Debug, PartialEq, Eq)]
pub enum Came {
    /// The call failed: the run ended out of memory, and made no call after it.
    Refused,
    /// The call that had to fail wasn't made, and the run did everything.
    Unharmed,
    /// Neither: so many calls were made, the failing one among them.
    Wrong { asked: u64 },
}
