//! Forward peers: what flushes send them, which of their replies count, and which of their messages are
//! answered.
//!
//! These theorems are on definitions of the reference model, and so on every run.
#![tactic(auto)]

mod forward;

pub use forward::{
    broken_streams_are_malformed, forward_flushes_send_messages, messages_ask_for_their_chunk,
};
