//! Messages of the Forward Protocol v1: MessagePack values in one of three modes, one after another on a
//! connection. This crate reads a message with its tag, its events and the chunk that it asks to
//! acknowledge, and refuses every other value with a reason. It writes the messages of outputs, and
//! acknowledgements.
//!
//! `read_message` returns the message at the start of bytes, or the error with its position. `ack_bytes`
//! and `write_forward` write exactly the bytes of their definitions. The messages of a stream are a
//! function of its bytes.
#![tactic(auto)]

mod ack;
mod errors;
mod events;
mod fault;
mod message;
mod parts;
mod reader;
mod theorems;
mod writer;

pub use ack::ack_bytes;
pub use errors::WireErr;
pub use fault::ConnFault;
pub use fwd_event::{Bytes, Event, Events, Memory, Pairs, Value};
pub use message::Message;
pub use parts::{chunk_of, is_plain, is_tag};
pub use reader::read_message;
pub use theorems::{answers_are_read, messages_fit, streams_are_read};
pub use writer::write_forward;
