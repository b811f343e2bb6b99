ghost use Rattle.std.specs.Prelude.{◌≡◌, ◌≤◌, List, length, true, IfSome};
ghost use Rattle.fwd_base.specs.Limits.{largest_batch, longest_tag};
ghost use Rattle.fwd_event.specs.declared.event.Event.{Event};
ghost use Rattle.fwd_theorem_depth.specs.Shallow.{are_shallow};
ghost use Rattle.fwd_model.specs.Acceptance.{accepts};
ghost use Rattle.fwd_engine_state.specs.RefinesAction.{with_disk, RefinesAccepting};
ghost use Rattle.fwd_engine_chunks.specs.BatchOutcome.{HoldsEvents};

use crate::encoding::{EncodedBatch, encode};
use crate::insertion::store;
use fwd_base::{InputId, Memory};
use fwd_engine_settings::RunSettings;
use fwd_engine_state::Parts;
use fwd_event::Events;
use fwd_outside::Disk;

/// Puts a batch of an input and a tag into their open chunk, or into a new one, and returns whether the
/// batch was accepted, as `accept_encoded` does.
pub fn accept<D: Disk>(
    run: &RunSettings,
    parts: &mut Parts,
    disk: &mut D,
    input: InputId,
    tag: &[u8],
    events: &Events,
) -> Result<bool, Memory>
    requires tag { length tag.now ≤ longest_tag }
    requires shallow { are_shallow events.now ≡ true }
    ensures acts { RefinesAccepting run.now (with_disk (D.call_log disk.old)) (with_disk (D.call_log disk.new)) parts.old parts.new (λ h. accepts run.now (record { input = input.0; tag = tag.now; events = events.now }) h) result }
    ensures later { D.faults disk.old ≤ D.faults disk.new }
{
    let batch = encode(parts.state.alloc(), events)?;
    accept_encoded(run, parts, disk, input, tag, &batch)
}

/// Puts an encoded batch of an input and a tag into their open chunk, or into a new one, and returns whether
/// the batch was accepted. A batch without events is accepted, and so is one that matches no output. A batch
/// is refused if it is too large, if no chunk number is left, or if the disk failed. A chunk that is full
/// closes.
pub fn accept_encoded<D: Disk>(
    run: &RunSettings,
    parts: &mut Parts,
    disk: &mut D,
    input: InputId,
    tag: &[u8],
    batch: &EncodedBatch,
) -> Result<bool, Memory>
    requires tag { length tag.now ≤ longest_tag }
    requires short { IfSome batch.now.bytes (λ bytes. length bytes ≤ largest_batch) }
    ensures acts { (events : List Event) → HoldsEvents events batch.now
        → RefinesAccepting run.now (with_disk (D.call_log disk.old)) (with_disk (D.call_log disk.new)) parts.old parts.new (λ h. accepts run.now (record { input = input.0; tag = tag.now; events = events }) h) result }
    ensures later { D.faults disk.old ≤ D.faults disk.new }
{
    if batch.count == 0 {
        return Ok(true);
    }
    let routes = run.routes_for(tag);
    if routes == 0 {
        parts.state.accept_unrouted(input, batch.count);
        return Ok(true);
    }
    match &batch.bytes {
        Some(bytes) => store(
            run,
            parts,
            disk,
            input,
            tag,
            routes,
            batch.count,
            bytes.as_slice(),
        ),
        None => {
            parts.state.count_refused(input);
            Ok(false)
        }
    }
}
