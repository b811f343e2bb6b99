//! Recovery: the start of a run, which loads the chunks that earlier runs left on the disk. They are
//! pending again for the matching outputs whose outcome isn't recorded.
//!
//! `load` makes the calls of the reference model's loading action. Each file gets the next number. A chunk
//! with events goes into the store, pending for the matching outputs whose outcome isn't recorded.
#![tactic(auto)]

mod adoption;
mod empty_parts;
mod followed_inputs;
mod pending_outputs;
mod recovery;
mod strangers;

pub use fwd_backlog::LoadErr;
pub use recovery::load;
pub use strangers::strangers_of;
