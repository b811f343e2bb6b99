//! Copies of encoded values and events in their stored encoding. A peer may send any encoding of a value; the
//! store keeps the canonical one. The functions of this crate write it straight from the bytes, and build no
//! value.
#![tactic(auto)]

mod event;
mod value;

pub use event::{transcode_entries, transcode_packed, transcode_single};
