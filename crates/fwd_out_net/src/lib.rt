//! Acknowledgements of the forward protocol: the id of a chunk, and the judgement of a peer's reply.
//!
//! `EndReader` judges a reply as right exactly if it is the awaited acknowledgement.
#![tactic(auto)]

mod id;
mod judgement;
mod reader;
mod theorems;

pub use fwd_base::{Bytes, ChunkId, Memory, OutputId};
pub use fwd_flush::{Judged, ReplyReader};
pub use id::chunk_id;
pub use reader::EndReader;
pub use theorems::{entries_are_short, more_is_a_prefix, none_is_fatal, right_is_the_ack};
