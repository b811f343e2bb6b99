ghost use Rattle.std.specs.Prelude.{◌≡◌};
ghost use Rattle.fwd_chunk.specs.declared.refusal.NotAChunk.TheVariants as not_a_chunk;

use fwd_base::Memory;
use thiserror::Error;

/// Why bytes aren't a chunk file.
#[derive(Clone, Copy, Debug, PartialEq, Eq, Error)]
pub enum NotAChunk {
    /// The bytes end within the header or the metadata.
    #[error("the file ends within its header")]
    TooShort,
    /// The bytes don't begin with c1 00, or the mark is unknown.
    #[error("the file has no chunk's id")]
    BadId,
    /// The bytes end within the committed content.
    #[error("the file is shorter than its committed length")]
    BadLength,
    /// The metadata say that the chunk has no logs.
    #[error("the chunk isn't one of logs")]
    NotLogs,
    /// The metadata of a file of mark 2 don't have its form.
    #[error("the metadata don't name outputs")]
    BadOutputs,
    #[error("the tag isn't UTF-8")]
    NotUtf8Tag,
    /// The committed content isn't a list of whole events.
    #[error("the committed content isn't a list of events")]
    BadEvents,
    #[error("out of memory")]
    Memory,
    /// The file has more than 67,108,864 bytes (`LONGEST_FILE`).
    #[error("the file is too long")]
    TooLong,
}

impl From<Memory> for NotAChunk {
    ghost from_gives = { λ _ e. e ≡ not_a_chunk.Memory };

    fn from(_: Memory) -> Self {
        NotAChunk::Memory
    }
}

/// Why a recovered file is refused: the variants of `NotAChunk` without `Memory`.
#[derive(Clone, Copy, Debug, PartialEq, Eq)]
pub enum ChunkKind {
    TooShort,
    BadId,
    BadLength,
    NotLogs,
    BadOutputs,
    NotUtf8Tag,
    BadEvents,
    TooLong,
}
