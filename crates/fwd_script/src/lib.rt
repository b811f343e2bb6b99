//! The schedule of a simulated run: the events of the loop, the answers of the platform, and the calls that
//! fail. This crate has the text of a schedule with its reader and writer.
//!
//! `read_schedule` returns the schedule of a text, or the first refusal with its line, and reads back what
//! `write_schedule` writes. The files and the sink in memory that a simulated run uses are those of
//! `fwd_files_mem`.
#![tactic(auto)]

mod keywords;
mod meaning;
mod reader;
mod refusal;
mod schedule;
mod words;
mod writer;

pub use fwd_base::{Bytes, Items, Memory};
pub use fwd_files_mem::{FileChange, FileChanges, FilesNote, MemFiles, MemSink, SinkNote};
pub use reader::read_schedule;
pub use refusal::{ScheduleKind, ScheduleRefused};
pub use schedule::{
    Calls, Cut, Given, GivenList, Life, Lives, Plan, Planned, PushWord, Schedule, Stored,
    StoredList,
};
pub use writer::write_schedule;
