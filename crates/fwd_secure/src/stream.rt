//! What is read at the start of a stream, and what is left after it.

ghost use Rattle.std.specs.Prelude.{◌≡◌, ℕ, ◌<◌, drop, slice_index, IfOk};
ghost use Rattle.fwd_outside.specs.LoopAnswers.{IsOfBytes};
ghost use Rattle.fwd_handshake.specs.Judgement.{helo_received, ping_received};
ghost use Rattle.fwd_secure.specs.Readable.{HasShortContent};

use fwd_base::{Bytes, Memory};
use fwd_handshake::{Received, Ring};
use fwd_outside::Happening;
use std::alloc::Global;

/// States that each number is below 256. It does nothing.
fn are_below_256(bytes: &[u8])
    ensures { (i : ℕ) → slice_index bytes.now i < 256 }
{
    let _ = bytes;
}

/// States that what comes over a connection are bytes. It does nothing.
pub fn are_bytes(brought: &Happening)
    ensures { IsOfBytes brought.now }
{
    match brought {
        Happening::Piece { bytes, .. } => are_below_256(bytes.as_slice()),
        Happening::Tick { .. }
        | Happening::Joined { .. }
        | Happening::Gone { .. }
        | Happening::Room { .. }
        | Happening::Back { .. }
        | Happening::Broken { .. }
        | Happening::InputEnd { .. }
        | Happening::Stop
        | Happening::End
        | Happening::Failed => {}
    }
}

/// Returns a copy of the bytes after the first `len`.
pub fn bytes_after(alloc: Global, bytes: &[u8], len: u64) -> Result<Bytes, Memory>
    ensures { IfOk result (λ rest. rest ≡ drop len bytes.now) }
{
    match bytes.get(len as usize..) {
        Some(rest) => Bytes::from_slice(alloc, rest),
        None => Ok(Bytes::new(alloc)),
    }
}

/// Reads the PING at the start of a stream. Its salt is short enough to be answered.
pub fn read_ping(
    alloc: Global,
    ring: &Ring,
    nonce: &[u8],
    stream: &[u8],
) -> Result<Received, Memory>
    ensures received { IfOk result (λ received. received ≡ ping_received ring.now nonce.now stream.now) }
    ensures short { IfOk result HasShortContent }
{
    fwd_handshake::read_ping(alloc, ring, nonce, stream)
}

/// Reads the HELO at the start of a stream. Its nonce is short enough to be answered.
pub fn read_helo(alloc: Global, stream: &[u8]) -> Result<Received, Memory>
    ensures received { IfOk result (λ received. received ≡ helo_received stream.now) }
    ensures short { IfOk result HasShortContent }
{
    fwd_handshake::read_helo(alloc, stream)
}
