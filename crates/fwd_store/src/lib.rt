//! The chunks that a forwarder holds, and the batches that it appends to them.
//!
//! An accepted batch is pending until it is delivered. It is in a chunk: in a file on the disk, which
//! survives a crash, or in memory. Batches of one input and tag go into one chunk until the chunk is closed.
//! The first batch creates the chunk's file, and the others are appended to it.
//!
//! `accept`, `content`, `bytes`, `settle` and `drop_chunk` make exactly the calls of their definitions, and
//! each contract gives the store after each answer. `accept` refuses a batch of more than 16,777,216 bytes
//! and a missing number, and each refusal has exactly its reason. A number whose file creation failed isn't
//! used again, and a chunk whose append failed takes no more batches.
//!
//! At every point of an `accept` under full sync, each post-crash state of the open chunk's file has the old
//! content, or that and the batch, and a new file is complete or absent; after Ok the file has the batch.
//! During a removal a file is unchanged or absent. Neither changes a file of another name, no read changes
//! anything, and names determine the numbers of chunks. `content` returns `Damaged` exactly if the bytes
//! that were read aren't whole events of the recorded length.
#![tactic(auto)]

mod answer;
mod chunk_map;
mod open_chunks;
mod store;
mod theorems;

pub use answer::{Accepted, StoreRefusal};
#[doc(hidden)]
pub use chunk_map::ChunkMap;
pub use fwd_chunk::{Kept, PartErr};
pub use fwd_outside::{ChunkId, Home, InputId, Memory};
#[doc(hidden)]
pub use open_chunks::{OpenChunks, Source};
pub use store::Store;
pub use theorems::{
    append_keeps_old_or_new, content_is_unchanged, first_batch_is_atomic, names_determine_numbers,
    recovered_content_is_read,
};
