//! The line reader. A log comes as a stream of bytes, in reads that have nothing to do with lines: a line
//! may come in three of them, and one may contain a hundred lines. A `Frames` is fed one read after another,
//! and returns the lines that end in each. They are the lines of the whole stream, however it was split. A
//! line of more than `LONGEST_LINE` (32,768) bytes is cut to its first bytes and flagged, so the memory of a
//! reader is bounded.
//!
//! Line readers for several streams side by side, by number: connections, and the standard input of inputs.
//! `Readers` has a line reader for each stream, and `Connections` the input of each connection, which its
//! lines belong to.
//!
//! A stream that ended or was left starts anew.
#![tactic(auto)]

mod connections;
mod frames;
mod line;
mod line_steps;
mod readers;
mod theorems;

pub use connections::Connections;
pub use frames::Frames;
pub use line::{Line, Lines};
pub use readers::Readers;
pub use theorems::parts_of_a_stream;
