//! The log of a live run: its lines, how often they may come, and the journal that writes them.
//!
//! A line is written as Fluent Bit writes its own, with the time in UTC: `line_of` returns exactly `IsLine`.
//! A `Limiter` is a pure function of its state and the clock: the first line of a series is written, and later
//! ones at most once in a while that doubles up to a minute; what is written and what is passed over add up
//! (`limiter_adds_up`). A `Journal` is lent to all that write. No contract speaks of what it has or writes,
//! and a write that fails is passed over.
#![tactic(auto)]

mod board;
mod destination;
mod journal;
mod level;
mod limiter;
mod line;
mod series;
mod source;
mod texts;
mod words;

pub use board::{Address, Pages};
pub use journal::Journal;
pub use level::Level;
pub use limiter::{
    Limiter, limit, limiter_adds_up, limiter_writes_each_minute, limiter_writes_first,
};
pub use line::line_of;
pub use series::Topic;
pub use source::{Names as SourceNames, Source};
pub use words::words_for;
