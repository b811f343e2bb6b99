//! Output over HTTP: the request with a payload, and the meaning of the server's reply.
//!
//! The events of a chunk are the body of one request, and its head has the length of the body. The server
//! replies with a head, maybe after interim ones. Its status says whether the records are delivered, have
//! to be retried, or are rejected for good.
//!
//! `payload_http` and `request_of` write one request whose head is read back with its method, URI, fields
//! and length (`request_is_read_back`); `request_of` may add further fields. A reply is judged by the status
//! of its first head that isn't interim, within 8,192 bytes and with at most 64 fields a head
//! (`head_decides_judgement`). A reader may name further statuses that are retried.
#![tactic(auto)]

mod reply;
mod request;
mod theorems;

pub use fwd_base::{Bytes, Form, Memory};
pub use fwd_event::{Event, Events};
pub use fwd_flush::{Judged, ReplyReader};
pub use fwd_http::{HeaderField, HeaderFields, StatusRange, StatusRanges};
pub use reply::HttpReader;
pub use request::{payload_http, request_of};
pub use theorems::{head_decides_judgement, request_is_read_back};
