//! The id by which an output acknowledges a chunk.

ghost use Rattle.std.specs.Prelude.{◌≡◌, IfOk};
ghost use Rattle.fwd_out_net.specs.Id.{chunk_id};

use base64::engine::general_purpose::STANDARD;
use fwd_base::{Bytes, ChunkId, Memory, OutputId};
use std::alloc::Global;

/// Returns base64 of the chunk's number in 8 bytes, the output's in 4 and 4 zeros.
pub fn chunk_id(alloc: Global, chunk: ChunkId, output: OutputId) -> Result<Bytes, Memory>
    ensures { IfOk result (λ id. id ≡ chunk_id chunk.0 output.0) }
{
    let [a, b, c, d, e, f, g, h] = chunk.0.to_be_bytes();
    let [i, j, k, l] = output.0.to_be_bytes();
    let bytes = [a, b, c, d, e, f, g, h, i, j, k, l, 0, 0, 0, 0];
    let text = STANDARD.encode(alloc, bytes.as_slice())?;
    Ok(Bytes::from_vec(text.into_bytes()))
}
