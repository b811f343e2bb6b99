//! The poll of a live run, with its clock: which sockets may have something, what each of them gives, and
//! when the next tick comes.
//!
//! `Machine` is the system's part of an event loop. Each event that it returns may occur, and comes of no
//! paused input (`MayOccur`). Errors that no answer reports are counted. A link breaks if its peer is silent
//! for too long, sends for too long without taking anything, or sends too much without taking its payload.
//! Standard output that isn't read makes its links wait. SIGINT and SIGTERM become an event of the loop if
//! the process blocks them. A connection that the journal asks to be dropped becomes a peer that has left.
#![tactic(auto)]

mod clock;
mod machine;
mod mask;
mod signals;
mod sources;

pub use machine::Machine;
