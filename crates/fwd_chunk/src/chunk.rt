use crate::ChunkKind;
use fwd_base::{Bytes, Names, crosses};

/// A chunk as its file has it. Lengths are in bytes.
#[derive(Debug, Drop)]
pub struct Chunk {
    /// The length of the metadata.
    pub meta: u64,
    pub tag: Bytes,
    /// Whole encoded events, one after another.
    pub content: Bytes,
    /// The number of events in the content.
    pub events: u64,
    /// The number of bytes after the content.
    pub torn: u64,
    /// 0 for a plain file, 1 or 2 for one with a committed length.
    pub mark: u8,
    /// The outputs that a file of mark 2 names, in order.
    pub outputs: Names,
    /// The outputs with a recorded outcome, in order.
    pub done: Names,
}

/// A chunk with the length of its content in place of the content.
#[derive(Debug, Drop)]
pub struct Brief {
    pub meta: u64,
    pub tag: Bytes,
    pub size: u64,
    pub events: u64,
    pub torn: u64,
    pub mark: u8,
    pub outputs: Names,
    pub done: Names,
}

/// The result of checking a file: a chunk with events, a chunk without events, or the reason of a refusal.
#[derive(Debug, Drop)]
pub enum Seen {
    Whole(Brief),
    Empty(Brief),
    Refused(ChunkKind),
}

/// A recovered file: its folder, its name, and the result of its check.
#[derive(Debug, Drop)]
pub struct Found {
    pub stream: Bytes,
    pub name: Bytes,
    pub seen: Seen,
}

/// Shows that threads may share chunks and pass them on.
pub fn chunks_cross(chunk: &Chunk) {
    crosses(chunk)
}

/// Shows that threads may share descriptions of chunks and pass them on.
pub fn briefs_cross(brief: &Brief) {
    crosses(brief)
}

/// Shows that threads may share recovered files and pass them on.
pub fn found_cross(found: &Found) {
    crosses(found)
}
