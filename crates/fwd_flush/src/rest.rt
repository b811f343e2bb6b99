//! Pushes of the rest of a payload.

ghost use Rattle.std.specs.Prelude.{◌≡◌, ◌+◌, ◌≤◌, ℕ, length};
ghost use Rattle.fwd_flush.specs.FlushProgram.{Delivery, Progress, pushes};
ghost use Rattle.fwd_flush.specs.Pushes.{PushesOn};

use fwd_base::LinkId;
use fwd_outside::{Loop, Memory, Pushed};

/// How the pushes of the rest ended.
#[derive(Clone, Copy, Debug, PartialEq, Eq)]
pub enum Rest {
    /// The link took all of it.
    Taken,
    /// The link is full.
    Waits,
    /// The link took nothing, or broke.
    Fails,
}

/// Pushes the rest of the payload after the bytes already taken, until the link took all of it, is full, or
/// fails. `taken` counts what the link took, also if memory runs out.
pub fn push_rest<L: Loop>(
    outside: &mut L,
    link: LinkId,
    payload: &[u8],
    taken: &mut u64,
) -> Result<Rest, Memory>
    ensures calls { (d : Delivery) (p : Progress) → d.payload ≡ payload.now → p.taken ≡ taken.old
        → PushesOn (L.call_log outside.old) (L.call_log outside.new) d link p (record p { taken = taken.new }) result }
    ensures later { L.faults outside.old ≤ L.faults outside.new }
    ensures same { L.counts outside.new ≡ L.counts outside.old }
{
    'pushing: while *taken < payload.len() as u64 {
        match outside.push(link, &payload[*taken as usize..]) {
            Pushed::Took(0) => return Ok(Rest::Fails),
            Pushed::Took(more) => *taken += more,
            Pushed::Again => return Ok(Rest::Waits),
            Pushed::Broken => return Ok(Rest::Fails),
            Pushed::Memory => return Err(Memory),
        }
    }
    Ok(Rest::Taken)
}
