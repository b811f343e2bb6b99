//! Payloads and reply readers by kind of output.
//!
//! Each kind of output gets the events of a chunk in its own format: text or events as they are stored, a
//! forward message, an HTTP request. Some acknowledge with a reply. `deliver` makes the flush with the
//! payload and the reader that the output needs.
#![tactic(auto)]

mod content;
mod parcel;
mod reader;
mod sizes;

pub use content::Content;
pub use fwd_flush::Flush;
pub use parcel::deliver;
pub use reader::Reader;
