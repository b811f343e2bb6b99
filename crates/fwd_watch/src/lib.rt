//! The watcher of a live run, which makes its log lines and its pages.
//!
//! The engine knows the consequences of what happens and the devices know the reasons. Both write into one
//! journal: a device where an error comes that no answer has room for, and the watcher where a counter rose.
//! A run calls its watcher when the configuration is read, when the chunks are loaded, after each reading of
//! the clock, and at its end, and lends it what the engine shows anyway. So lines on the way cost nothing,
//! and no contract speaks of a watcher: whatever it does, the run keeps what it promises.
//!
//! If the unfinished messages of all connections together exceed `forward.mem_limit`, the watcher asks the
//! poll, through the journal, to drop the connection with the largest one. To the engine that is a peer that
//! has left.
#![tactic(auto)]

mod changes;
mod choices;
mod counts;
mod log_keys;
mod pages;
mod refusal;
mod watch;
mod watcher;

pub use refusal::refusal_text;
pub use watch::{Snapshot, Unwatched, Watch};
pub use watcher::Watcher;
