//! Offsets kept across runs: theorems on followed files with a database.
//!
//! A kept offset has nothing lost before it. When a run puts an offset, each line before it that this run
//! read was accepted, or refused and counted, or dropped by a filter. What was read of the file since is
//! all that stands after the offset. The next run resumes reading at the offset that its keeper gives.
#![tactic(auto)]

mod kept_offsets;
mod resumed_files;

pub use kept_offsets::{kept_offsets_split_files, put_offsets_are_passed, read_lines_came_in};
pub use resumed_files::runs_resume_at_kept_offsets;
