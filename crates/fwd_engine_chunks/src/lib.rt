//! Accepts batches, closes chunks, resolves routes, and enforces the limits on what is pending. On every
//! disk, the calls are those of the reference model's actions.
//!
//! A batch goes into the open chunk of its input and tag, begins a new chunk, or is refused.
//!
//! A chunk that closes waits for its outputs. If it is kept in a file, each of them that has a limit evicts
//! what has no room beside it: chunks that wait for the same output, the lowest number first, or the new
//! chunk alone.
//!
//! A route is resolved once its output has acknowledged or rejected the chunk, no retry is left, or a limit
//! evicts it. If no other output is pending, the engine drops the chunk. Otherwise it marks the route done in
//! the chunk's file, so that a crash doesn't bring it back.
#![tactic(auto)]

mod acceptance;
mod closing;
mod encoding;
mod eviction;
mod insertion;
mod resolution;

pub use acceptance::{accept, accept_encoded};
pub use closing::{close, close_all};
pub use encoding::{EncodedBatch, encode};
pub use fwd_engine_settings::RunSettings;
pub use resolution::settle;
