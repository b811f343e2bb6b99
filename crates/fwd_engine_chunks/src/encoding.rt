ghost use Rattle.std.specs.Prelude.{◌≡◌, List, true, length, IfOk};
ghost use Rattle.fwd_engine_chunks.specs.BatchOutcome.{HoldsEvents, IsEncodingOf};
ghost use Rattle.fwd_event.specs.declared.event.Event.{Event};
ghost use Rattle.fwd_event.specs.Event.{AreEvents};
ghost use Rattle.fwd_theorem_depth.specs.Shallow.{are_shallow};
ghost use Rattle.fwd_model.specs.Chunks.{encoded};

use fwd_base::limits::LARGEST_BATCH;
use fwd_base::{Bytes, Memory};
use fwd_event::{Events, can_write, write_event};
use fwd_theorem_depth::lemma_encoded_length_decides;
use std::alloc::Global;

/// A batch of events in their encoding.
#[derive(Debug, Drop)]
pub struct EncodedBatch {
    /// How many events the batch has.
    pub count: usize,
    /// The encodings of the events, one after another, or `None` if they are too large to be stored.
    pub bytes: Option<Bytes>,
}

impl EncodedBatch {
    /// Returns the batch of events that are encoded already: `bytes` are the encodings of `count` events, one
    /// after another.
    pub fn of_encodings(count: usize, bytes: Bytes) -> EncodedBatch
        ensures { (events : List Event) → length events ≡ count → bytes ≡ encoded events → AreEvents events bytes → HoldsEvents events result }
    {
        let are_storable = bytes.len() as u64 <= LARGEST_BATCH;
        EncodedBatch {
            count,
            bytes: if are_storable { Some(bytes) } else { None },
        }
    }
}

/// Encodes the events of a batch.
pub fn encode(alloc: Global, events: &Events) -> Result<EncodedBatch, Memory>
    requires shallow { are_shallow events.now ≡ true }
    ensures { IfOk result (HoldsEvents events.now) }
{
    let bytes = encoding(alloc, events)?;
    Ok(EncodedBatch {
        count: events.len(),
        bytes,
    })
}

/// Returns the encodings of the events of a batch, one after another, or `None` if they are too large to be
/// stored.
fn encoding(alloc: Global, events: &Events) -> Result<Option<Bytes>, Memory>
    requires shallow { are_shallow events.now ≡ true }
    ensures { IfOk result (IsEncodingOf events.now) }
{
    lemma_encoded_length_decides();
    let mut bytes = Bytes::new(alloc);
    for event in events.as_slice() {
        if !can_write(event) {
            return Ok(None);
        }
        write_event(event, &mut bytes)?;
        if bytes.len() as u64 > LARGEST_BATCH {
            return Ok(None);
        }
    }
    Ok(Some(bytes))
}
