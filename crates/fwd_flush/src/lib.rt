//! One attempt to send a payload to an output over a link.
//!
//! A push takes a part, or finds the link full or broken, and some peers acknowledge with a reply. A flush
//! sends one payload: it dials, pushes the rest whenever there is room, keeps the reply, and ends once with
//! an outcome. It resumes where it stopped, and closes its link when it ends.
//!
//! A flush makes exactly the calls of its model. Its outcome is that of its events in whatever order
//! they come; it is ERROR only if the whole payload was taken and a wanted reply is fatal. What it sent is
//! a prefix of the payload, and the whole payload if the outcome is OK or ERROR.
#![tactic(auto)]

mod flush;
mod judgement;
mod poll;
mod reader;
mod rest;
mod stage;
mod theorems;

pub use flush::Flush;
pub use fwd_base::{Bytes, LinkId, Memory, OutputId};
pub use fwd_table::Answer;
pub use judgement::Judged;
pub use poll::Poll;
pub use reader::{NoReply, ReplyReader};
pub use stage::Stage;
pub use theorems::{ended_has_closed, goes_on_as_outcome, outcome_of_flush, starts_as_outcome};
