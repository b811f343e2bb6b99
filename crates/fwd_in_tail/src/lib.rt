//! Follows a log file that grows, and that its program may truncate to begin anew. A `Tail` polls the file:
//! each poll asks for its length, reads from the position reached before, and returns the lines that end
//! there. If the file has become shorter than the position, it is read from its beginning, and what was
//! read of a line before is dropped. A file that is truncated and grows past the position between two polls
//! can't be told from one that grew.
//!
//! Over any files, each poll returns the lines that the definition of followed files gives (`Followed`).
//! After an `Err` the tail is unchanged.
#![tactic(auto)]

mod rest_length;
mod tail;
mod theorems;

pub use tail::{Tail, TailErr};
pub use theorems::polls_follow_one_another;
