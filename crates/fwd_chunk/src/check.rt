//! Checking of a recovered file without keeping its content.

ghost use Rattle.std.specs.Prelude.{◌≡◌, ◌≤◌, ◌<◌, ◌^◌, IfOk, MatchOption};
ghost use Rattle.fwd_chunk.specs.declared.refusal.NotAChunk.TheVariants as not_a_chunk;
ghost use Rattle.fwd_chunk.specs.Check.{brief_of, refusal_of, IsCheckResult, IfWhole};

use crate::{Brief, Chunk, ChunkKind, NotAChunk, Seen, read_chunk};
use fwd_base::Memory;
use std::alloc::Global;

/// Returns the description of a chunk.
fn brief_of(chunk: Chunk) -> Brief
    ensures { result ≡ brief_of chunk }
{
    Brief {
        meta: chunk.meta,
        size: chunk.content.len() as u64,
        events: chunk.events,
        torn: chunk.torn,
        mark: chunk.mark,
        tag: chunk.tag,
        outputs: chunk.outputs,
        done: chunk.done,
    }
}

/// Returns the kind of a refusal; `None` if memory ran out.
fn kind_of(refusal: NotAChunk) -> Option<ChunkKind>
    ensures { MatchOption result (refusal ≡ not_a_chunk.Memory) (λ kind. refusal ≡ refusal_of kind) }
{
    match refusal {
        NotAChunk::TooShort => Some(ChunkKind::TooShort),
        NotAChunk::BadId => Some(ChunkKind::BadId),
        NotAChunk::BadLength => Some(ChunkKind::BadLength),
        NotAChunk::NotLogs => Some(ChunkKind::NotLogs),
        NotAChunk::BadOutputs => Some(ChunkKind::BadOutputs),
        NotAChunk::NotUtf8Tag => Some(ChunkKind::NotUtf8Tag),
        NotAChunk::BadEvents => Some(ChunkKind::BadEvents),
        NotAChunk::TooLong => Some(ChunkKind::TooLong),
        NotAChunk::Memory => None,
    }
}

/// Checks the bytes of a recovered file. Returns a description, without the content.
pub fn check_file(alloc: Global, bytes: &[u8]) -> Result<Seen, Memory>
    ensures seen { IfOk result (IsCheckResult bytes.now) }
    // The length of the metadata has two bytes.
    ensures meta { IfOk result (IfWhole (λ brief. brief.meta < 2 ^ 16)) }
{
    match read_chunk(alloc, bytes) {
        Ok(chunk) => {
            if chunk.events == 0 {
                Ok(Seen::Empty(brief_of(chunk)))
            } else {
                Ok(Seen::Whole(brief_of(chunk)))
            }
        }
        Err(refusal) => match kind_of(refusal) {
            Some(kind) => Ok(Seen::Refused(kind)),
            None => Err(Memory),
        },
    }
}
