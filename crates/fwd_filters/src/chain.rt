//! The filters of a configuration, one after another.

ghost use Rattle.std.specs.Prelude.{◌≡◌, ◌↔◌, [], IfOk, IsTrue};
ghost use Rattle.fwd_filters.specs.FilterRelation.{AreMatching, IsFiltered};
ghost use Rattle.fwd_filters.specs.FilterFunction.{filtered};

use crate::parallel::in_runs;
use crate::prepared_filter::Filters;
use crate::sieve::filter_events;
use crate::{FilterStep, FilterSteps};
use fwd_base::Memory;
use fwd_event::Events;
use fwd_outside::{Gate, Open};
use fwd_route::matches;
use std::alloc::Global;
use std::thread::Threads;

/// From this many events on, several threads may be worth it.
const PARALLEL_EVENTS: usize = 2_048;

/// Returns the events after each filter whose glob matches the tag, in order; the remaining events keep
/// their order. From 2,048 events on (`PARALLEL_EVENTS`), as many threads filter as the work is worth. If no
/// glob matches, nothing is done.
pub fn filter(
    rt: &(impl Threads + Sync),
    alloc: Global,
    steps: &FilterSteps,
    tag: &[u8],
    events: Events,
) -> Result<Events, Memory>
    ensures { IfOk result (IsFiltered steps.now tag.now events) }
{
    filter_gated(rt, alloc, steps, tag, events, &Open)
}

/// Filters as `filter` does. From 2,048 events on, each event passes the gate right before it is filtered,
/// with its index in the list. The result doesn't depend on the gate. The program uses it only with `Open`,
/// by `filter`: another gate shows a test which threads filter.
pub fn filter_gated<G: Gate>(
    rt: &(impl Threads + Sync),
    alloc: Global,
    steps: &FilterSteps,
    tag: &[u8],
    events: Events,
    gate: &G,
) -> Result<Events, Memory>
    ensures { IfOk result (IsFiltered steps.now tag.now events) }
{
    if are_idle(steps.as_slice(), tag) {
        return Ok(events);
    }
    if events.len() < PARALLEL_EVENTS {
        filter_on_this_thread(alloc, steps, tag, events)
    } else {
        in_runs(rt, alloc, steps, tag, events, gate)
    }
}

/// Returns the remaining events, in order, filtered by this thread.
fn filter_on_this_thread(
    alloc: Global,
    steps: &FilterSteps,
    tag: &[u8],
    events: Events,
) -> Result<Events, Memory>
    ensures { IfOk result (λ left. left ≡ filtered steps.now tag.now events) }
{
    let mut ready = steps.ready(alloc, tag)?;
    filter_events(alloc, &mut ready, events, &Open)
}

/// Returns whether no filter's glob matches the tag: `filter` then returns the events as they are.
pub fn are_idle(steps: &[FilterStep], tag: &[u8]) -> bool
    ensures { IsTrue result ↔ AreMatching tag.now steps.now [] }
{
    for step in steps {
        if matches(step.glob.as_slice(), tag) {
            return false;
        }
    }
    true
}
