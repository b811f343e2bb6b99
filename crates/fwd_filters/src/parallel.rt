//! Filtering of long lists of events by several threads.

ghost use Rattle.std.specs.Prelude.{◌≡◌, IfOk};
ghost use Rattle.std.specs.List.{filter_map};
ghost use Rattle.fwd_filters.specs.Step.{through};

use crate::prepared_filter::Filters;
use crate::runs::{FilteredRun, Run, join_parts, split_runs};
use crate::sieve::{filter_events, filter_run};
use crate::work::worth_threads;
use fwd_base::Memory;
use fwd_event::Events;
use fwd_outside::Gate;
use rayon::current_num_threads;
use rayon::prelude::*;
use std::alloc::Global;
use std::thread::Threads;

/// Returns the remaining events, in order. A list that is worth several threads is cut into runs, at most
/// one for each processor.
pub fn in_runs<F: Filters + Sync, G: Gate>(
    rt: &(impl Threads + Sync),
    alloc: Global,
    filters: &F,
    tag: &[u8],
    events: Events,
    gate: &G,
) -> Result<Events, Memory>
    ensures { IfOk result (λ left. left ≡ filter_map (through (F.kinds filters.now tag.now)) events) }
{
    let worth = worth_threads(&events, filters.only_drop(tag));
    if worth < 2 {
        return in_one_run(alloc, filters, tag, events, gate);
    }
    let runs = worth.min(current_num_threads(rt)).max(1);
    let length = events.len().div_ceil(runs);
    in_parallel(rt, alloc, filters, tag, events, length, gate)
}

/// Returns the remaining events, in order, filtered by this thread.
fn in_one_run<F: Filters, G: Gate>(
    alloc: Global,
    filters: &F,
    tag: &[u8],
    events: Events,
    gate: &G,
) -> Result<Events, Memory>
    ensures { IfOk result (λ left. left ≡ filter_map (through (F.kinds filters.now tag.now)) events) }
{
    let mut ready = filters.ready(alloc, tag)?;
    filter_events(alloc, &mut ready, events, gate)
}

/// Returns the remaining events, in order. The list is cut into runs of `length` events, each of which one
/// thread filters.
fn in_parallel<F: Filters + Sync, G: Gate>(
    rt: &(impl Threads + Sync),
    alloc: Global,
    filters: &F,
    tag: &[u8],
    events: Events,
    length: usize,
    gate: &G,
) -> Result<Events, Memory>
    ensures { IfOk result (λ left. left ≡ filter_map (through (F.kinds filters.now tag.now)) events) }
{
    let parts = split_runs(alloc, events, length)?
        .into_par_iter()
        .with_min_len(1)
        .map(
            |run: Run| -> Result<FilteredRun, Memory>
                ensures { IfOk result (λ part. part.left
                    ≡ filter_map (through (F.kinds filters.entry.now tag.entry.now)) run.events) }
            {
                let mut ready = filters.ready(alloc, tag)?;
                filter_run(alloc, &mut ready, run, gate)
            },
        )
        .collect::<Result<Vec<FilteredRun>, Memory>>(rt, alloc)??;
    join_parts(alloc, parts)
}
