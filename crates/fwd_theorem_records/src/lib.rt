//! What flushes hand to outputs: the records of their chunks.
//!
//! A chunk in a file has bytes, and a flush sends the events in them. Here these are the events that were
//! accepted into the chunk, in order: each is read back as it was, since its numbers, its nesting and its
//! lengths are as an event in a file may have them, by `fwd_theorem_depth`.
//!
//! The premise `WaitsBringBytes`: the reference model doesn't bound the numbers that stand for the bytes of a
//! connection. A forward message of greater ones could have a whole number of more than 64 bits. It holds of
//! each run, since a keyed loop is around its loop (`fwd_secure::SecureLoop`).
#![tactic(auto)]

mod records;

pub use records::{
    chunks_hold_their_records, flushes_send_their_records, stored_events_are_writable,
};
