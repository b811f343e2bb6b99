//! Answers and refusals of a store.

ghost use Rattle.std.specs.Prelude.{◌≡◌};
ghost use Rattle.fwd_store.specs.declared.answer.StoreRefusal.TheVariants as store_refusal;

use fwd_outside::{ChunkId, Memory};
use thiserror::Error;

/// An accepted batch.
#[derive(Clone, Copy, Debug, PartialEq, Eq)]
pub struct Accepted {
    pub chunk: ChunkId,
    /// The length of the chunk's content with the batch, in bytes.
    pub size: u64,
    /// Whether the batch is the first of its chunk.
    pub fresh: bool,
}

/// Why a batch wasn't accepted.
#[derive(Clone, Copy, Debug, PartialEq, Eq, Error)]
pub enum StoreRefusal {
    /// A disk call failed. If it belonged to an append, `sealed` is the chunk: it keeps its content, and
    /// takes no more batches.
    #[error("the disk has failed")]
    DiskFailed { sealed: Option<ChunkId> },
    /// The batch has more than 16,777,216 bytes (`LARGEST_BATCH`).
    #[error("the batch is too large")]
    BatchTooLarge,
    #[error("out of memory")]
    Memory,
    /// The batch needs a new chunk, and no number is left.
    #[error("no number is left for a new chunk")]
    NoNumber,
}

impl From<Memory> for StoreRefusal {
    ghost from_gives = { λ _ e. e ≡ store_refusal.Memory };

    fn from(_: Memory) -> Self {
        StoreRefusal::Memory
    }
}
