//! The server of a run's pages, as a source of the event loop's poll.
//!
//! At most `MOST_ASKERS` connections are open at once. Each sends one request, whose head has at most
//! `LONGEST_HEAD` bytes (`fwd_base::limits`), gets one reply, and is closed; it is closed without one after
//! `PATIENCE`. A page is asked for on the board of the journal, and sent when the run has put it there. One
//! look at a connection reads or writes once, so askers can't hold back the lines of inputs. No contract
//! speaks of a page or of when it comes.
#![tactic(auto)]

mod asker;
mod reply;
mod request;
mod server;

pub use asker::PATIENCE;
pub use server::{Again, MOST_ASKERS, Server, token_of};
