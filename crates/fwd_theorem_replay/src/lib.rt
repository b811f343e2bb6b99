//! Theorems on the runs of a schedule.
//!
//! A schedule determines the text of its replay, unless memory runs out. A run with more turns than events
//! never ends because its turns ran out (with shared keys: than twice the events). If appends are fsynced, no
//! crash between two runs loses an acknowledged, pending chunk: the next run recovers each one that is kept
//! in a file, whole and pending for the same outputs. Each flush sends the records of its chunk.
#![tactic(auto)]

mod crashes;
mod sent_records;
mod text;
mod turns;

pub use crashes::{no_crash_loses_a_chunk, only_first_run_has_files};
pub use sent_records::replays_send_their_records;
pub use text::schedules_determine_text;
pub use turns::enough_turns_end_a_run;
