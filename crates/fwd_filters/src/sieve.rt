//! Filtering by one thread: of a whole list, or of a run.

ghost use Rattle.std.specs.Prelude.{◌≡◌, map, IfOk};
ghost use Rattle.std.specs.List.{filter_map};
ghost use Rattle.fwd_filters.specs.Step.{through};
ghost use Rattle.fwd_filters.specs.Prepared.{kind_of};

use crate::prepared_filter::{FilterOutcome, PreparedFilter, apply_all};
use crate::runs::{FilteredRun, Run};
use fwd_base::Memory;
use fwd_event::Events;
use fwd_outside::Gate;
use std::alloc::Global;

/// Returns the events that the filters leave, in order. Right before each event the gate is passed, with
/// the event's index.
pub fn filter_events<G: Gate>(
    alloc: Global,
    filters: &mut Vec<PreparedFilter<'_>>,
    events: Events,
    gate: &G,
) -> Result<Events, Memory>
    ensures { IfOk result (λ left. left ≡ filter_map (through (map kind_of filters.old.items)) events) }
{
    let mut place = 0u64;
    let mut left = Events::new(alloc);
    left.reserve(events.len())?;
    for event in events.into_vec() {
        gate.pass(place);
        place = place.wrapping_add(1);
        if let FilterOutcome::Left(event) = apply_all(alloc, filters, event)? {
            left.push(event)?;
        }
    }
    Ok(left)
}

/// Applies the filters to a run. Right before each event the gate is passed, with the event's index in the
/// list.
pub fn filter_run<G: Gate>(
    alloc: Global,
    filters: &mut Vec<PreparedFilter<'_>>,
    run: Run,
    gate: &G,
) -> Result<FilteredRun, Memory>
    ensures { IfOk result (λ part. part.left
        ≡ filter_map (through (map kind_of filters.old.items)) run.events) }
{
    let Run { first, events } = run;
    let mut place = first;
    let mut left = Events::new(alloc);
    left.reserve(events.len())?;
    let mut dropped = Events::new(alloc);
    for event in events.into_vec() {
        gate.pass(place);
        place = place.wrapping_add(1);
        match apply_all(alloc, filters, event)? {
            FilterOutcome::Left(event) => left.push(event)?,
            FilterOutcome::Dropped(event) => dropped.push(event)?,
        }
    }
    Ok(FilteredRun { left, dropped })
}
