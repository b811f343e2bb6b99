//! The batch of a message's events.

ghost use Rattle.std.specs.Prelude.{◌≡◌, List, true, IfOk};
ghost use Rattle.fwd_event.specs.declared.event.Event.{Event};
ghost use Rattle.fwd_event.specs.Event.{AreEvents};
ghost use Rattle.fwd_filters.specs.FilterFunction.{filtered};
ghost use Rattle.fwd_theorem_depth.specs.Shallow.{are_shallow};
ghost use Rattle.fwd_engine_chunks.specs.BatchOutcome.{HoldsEvents};
ghost use Rattle.fwd_engine_ingest.specs.MessageEvents.{AreReadBack, message_events};

use fwd_base::{Bytes, Memory};
use fwd_engine_chunks::{EncodedBatch, RunSettings, encode};
use fwd_event::{Events, all_bytes_are_events, encodings_are_events, whole_prefix};
use fwd_filters::{are_idle, filter};
use std::alloc::Global;
use std::thread::Threads;

/// The events of a message, as they were read.
#[derive(Drop)]
pub enum MessageEvents {
    Values(Events),
    /// Their stored encodings, one after another.
    Encoded { count: usize, bytes: Bytes },
}

/// Filters and encodes events that were read as values.
fn filtered_batch(
    rt: &(impl Threads + Sync),
    run: &RunSettings,
    alloc: Global,
    tag: &[u8],
    events: Events,
) -> Result<EncodedBatch, Memory>
    requires { are_shallow events ≡ true }
    ensures { IfOk result (HoldsEvents (filtered run.now.filters tag.now events)) }
{
    let left = filter(rt, alloc, run.filters(), tag, events)?;
    encode(alloc, &left)
}

/// Decodes events.
fn decode(alloc: Global, bytes: &[u8]) -> Result<Events, Memory>
    ensures { (events : List Event) → AreEvents events bytes.now → IfOk result (λ read. read ≡ events) }
{
    all_bytes_are_events();
    let (events, _) = whole_prefix(alloc, bytes)?;
    Ok(events)
}

/// Filters and encodes the events of a message. If no filter's glob matches the tag, encoded events stay as
/// they are.
pub fn batch_of(
    rt: &(impl Threads + Sync),
    run: &RunSettings,
    alloc: Global,
    tag: &[u8],
    events: MessageEvents,
) -> Result<EncodedBatch, Memory>
    requires { AreReadBack events }
    ensures { IfOk result (HoldsEvents (filtered run.now.filters tag.now (message_events events))) }
{
    encodings_are_events();
    all_bytes_are_events();
    match events {
        MessageEvents::Values(events) => filtered_batch(rt, run, alloc, tag, events),
        MessageEvents::Encoded { count, bytes } => {
            if are_idle(run.filters().as_slice(), tag) {
                return Ok(EncodedBatch::of_encodings(count, bytes));
            }
            let events = decode(alloc, bytes.as_slice())?;
            filtered_batch(rt, run, alloc, tag, events)
        }
    }
}
