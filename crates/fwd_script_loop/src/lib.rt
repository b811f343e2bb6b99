//! A run of a schedule as a loop in memory: it has the events of the run, and answers as the run says.
//!
//! Each call of `Script` is answered as the run says at its place (`is_played`). No event comes of a paused
//! input, links are numbered from 1, a push writes no more than its length, changes of files come out in
//! order up to the line of the next event, a crash is known before its event, and `handed` returns the bytes
//! that links of the outputs received.
#![tactic(auto)]

mod answer_queues;
mod answers;
mod call_record;
mod copies;
mod lines_left;
mod link_bytes;
mod masks;
mod queue;
mod run_events;
mod script;

pub use call_record::LoopNote;
pub use lines_left::is_last;
pub use script::Script;
