//! What outputs get of chunks in files.
//!
//! A flush reads its chunk's content from the file. What it reads is what was accepted into the chunk, or
//! recovered, whether or not appends are fsynced: a failed write or sync leaves the content that was there,
//! and the batch that it was for is refused.
#![tactic(auto)]

mod flushes;

pub use flushes::flushes_send_their_chunks;
