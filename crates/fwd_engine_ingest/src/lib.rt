//! Input events: peers that connect and leave, bytes of lines and of messages, the end of standard input,
//! and polls of followed files.
//!
//! A message is acknowledged only after its batch was accepted, and a refused one ends its connection. Over
//! every loop, disk and files, the calls are those of the reference model's actions.
#![tactic(auto)]

mod batches;
mod followed_files;
mod input_streams;
mod message_events;
mod messages;

pub use followed_files::poll_inputs;
pub use input_streams::{end_input, join, receive_bytes, remove_peer};
