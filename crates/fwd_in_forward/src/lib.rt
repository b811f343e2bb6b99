//! Cuts the bytes of a forward peer into messages. A `ForwardConn` takes one buffer after another and
//! returns the messages that end in each: together they are those of the whole stream, however it was cut.
//! A message of many megabytes may come in buffers of a few bytes: each byte is looked at once when it
//! comes and once when the message is whole.
//!
//! `feed` returns events as values. `receive` returns the same messages, and copies the events of a batch
//! from their bytes straight into the encoding that is stored, where it can. A message whose events can't be
//! copied so is read a second time, as `feed` reads it.
//!
//! After a fault it returns no message and the same fault forever. If an allocation fails, it is unchanged.
#![tactic(auto)]

mod conn;
mod encoded_message;
mod encoded_parts;
mod message_reader;
mod next_message;
mod read_message;
mod received;

pub use conn::{Arrivals, Fed, ForwardConn, Messages};
pub use encoded_message::EncodedMessage;
pub use fwd_wire::{Bytes, ConnFault, Event, Events, Memory, Message, Pairs, Value};
pub use received::Received;
