//! Runs of a list of events, and joining of what remains of them.

ghost use Rattle.std.specs.Prelude.{◌≡◌, [], IfOk};
ghost use Rattle.std.specs.List.{flat_map};

use fwd_base::Memory;
use fwd_event::Events;
use std::alloc::Global;

/// Adjacent events of a list, and the index of the first of them.
#[derive(Debug, Drop)]
pub struct Run {
    pub first: u64,
    pub events: Events,
}

/// The remaining events of a run, in order, and the dropped ones. Dropped events are freed by the thread
/// that allocated them: threads that free memory of another thread wait for each other.
#[derive(Debug, Drop)]
pub struct FilteredRun {
    pub left: Events,
    pub dropped: Events,
}

impl Run {
    /// Returns an empty run with room for `length` events.
    fn new(alloc: Global, first: u64, length: usize) -> Result<Self, Memory>
        ensures { IfOk result (λ run. run.events ≡ []) }
    {
        let mut events = Events::new(alloc);
        events.reserve(length)?;
        Ok(Run { first, events })
    }
}

/// Returns the events in runs of `length`, in order; the last run may be shorter.
pub fn split_runs(alloc: Global, events: Events, length: usize) -> Result<Vec<Run>, Memory>
    ensures { IfOk result (λ runs. flat_map (λ run. run.events) runs.items ≡ events) }
{
    let mut runs = Vec::new(alloc);
    let mut run = Run::new(alloc, 0, length)?;
    for event in events.into_vec() {
        if run.events.len() >= length {
            let next = run.first.wrapping_add(run.events.len() as u64);
            runs.push(run)?;
            run = Run::new(alloc, next, length)?;
        }
        run.events.push(event)?;
    }
    runs.push(run)?;
    Ok(runs)
}

/// Returns the remaining events of all parts, in order.
pub fn join_parts(alloc: Global, parts: Vec<FilteredRun>) -> Result<Events, Memory>
    ensures { IfOk result (λ all. all ≡ flat_map (λ part. part.left) parts.items) }
{
    let mut all = Vec::new(alloc);
    for part in parts {
        let mut left = part.left.into_vec();
        all.append(&mut left)?;
    }
    Ok(Events::from_vec(all))
}
