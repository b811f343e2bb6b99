//! Log events: a time, metadata and a record. They are stored and sent as MessagePack values, one after
//! another, in two formats; a file may end within one.
//!
//! `read_events`, `whole_prefix` and `write_event` decode and encode exactly the events of the definition.
//! The events at the beginning of bytes are also a function of the bytes (`events_in`), with theorems about
//! it.
#![tactic(auto)]

mod errors;
mod event;
mod reading;
mod theorems;
mod writing;

pub use errors::EventErr;
pub use event::{Event, Events, events_are_send_sync};
pub use fwd_base::{Bytes, Memory};
pub use fwd_msgpack::{Below, Pairs, Value, Values};
pub use reading::{event_of, event_of_two, read_events, whole_prefix};
pub use theorems::{all_bytes_are_events, encodings_are_events, events_are_the_whole_prefix};
pub use writing::{can_write, write_event};
