//! Payloads of text and MessagePack for outputs.
//!
//! The events of a chunk become one payload: lines of JSON with the time as `date`, lines of tag, time and
//! record, or the events as they are stored. Each format writes the events in their order. In text, a float is
//! a number or a string with a tag.
//!
//! `payload_text` writes decoded events. `payload_of_content` writes encoded ones, without a list of them.
#![tactic(auto)]

mod content;
mod encoded_value;
mod header;
mod payload;
mod record_text;
mod transcode;

pub use content::payload_of_content;
pub use fwd_base::{Bytes, Form, Memory};
pub use fwd_event::{Event, Events};
pub use fwd_json::{Floats, PayloadForm};
pub use payload::payload_text;
