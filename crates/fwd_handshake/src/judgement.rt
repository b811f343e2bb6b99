//! Judges how a stream begins.

ghost use Rattle.std.specs.Prelude.{◌≡◌, IfOk};
ghost use Rattle.fwd_handshake.specs.Judgement.{helo_judged, ping_judged, pong_judged};

use crate::{Greeted, Ring, read_helo, read_ping, read_pong};
use fwd_base::Memory;
use std::alloc::Global;

/// Returns whether a stream begins with a HELO that has a nonce.
#[tactic(auto, unfolding(crate::specs::Judgement::judged))]
pub fn judge_helo(alloc: Global, stream: &[u8]) -> Result<Greeted, Memory>
    ensures { IfOk result (λ greeted. greeted ≡ helo_judged stream.now) }
{
    Ok(read_helo(alloc, stream)?.greeted())
}

/// Returns whether a stream begins with a PING that shows the key, in answer to a HELO with this nonce.
#[tactic(auto, unfolding(crate::specs::Judgement::judged))]
pub fn judge_ping(
    alloc: Global,
    ring: &Ring,
    nonce: &[u8],
    stream: &[u8],
) -> Result<Greeted, Memory>
    ensures { IfOk result (λ greeted. greeted ≡ ping_judged ring.now nonce.now stream.now) }
{
    Ok(read_ping(alloc, ring, nonce, stream)?.greeted())
}

/// Returns whether a stream begins with a PONG that accepts and shows the key, in answer to a PING with this
/// salt.
#[tactic(auto, unfolding(crate::specs::Judgement::judged))]
pub fn judge_pong(
    alloc: Global,
    ring: &Ring,
    salt: &[u8],
    nonce: &[u8],
    stream: &[u8],
) -> Result<Greeted, Memory>
    ensures { IfOk result (λ greeted. greeted ≡ pong_judged ring.now salt.now nonce.now stream.now) }
{
    Ok(read_pong(alloc, ring, salt, nonce, stream)?.greeted())
}
