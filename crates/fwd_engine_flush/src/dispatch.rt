//! Starts due routes, and handles events of connections.

ghost use Rattle.std.specs.Prelude.{◌≤◌, ◌<◌, ◌^◌};
ghost use Rattle.fwd_model.specs.FlushActions.{starts_if_allowed, walk, at_room, at_reply, at_break};
ghost use Rattle.fwd_engine_state.specs.Views.{route_of};
ghost use Rattle.fwd_engine_state.specs.RefinesAction.{with_both, RefinesAction};
ghost use Rattle.fwd_engine_state.specs.LoopCounters.{NoEventTaken};

use crate::free_places::free_outputs;
use crate::outcome::record_progress;
use crate::start::begin;
use fwd_base::{LinkId, Memory};
use fwd_engine_chunks::RunSettings;
use fwd_engine_state::{InFlightLimits, Parts, RouteId};
use fwd_outside::{Disk, Loop};
use fwd_payload::Content;
use fwd_retry::Timer;

/// Starts a flush of a route if it may start.
fn start_if_allowed<L: Loop, D: Disk>(
    run: &RunSettings,
    parts: &mut Parts,
    outside: &mut L,
    disk: &mut D,
    route: RouteId,
    content: &mut Content,
) -> Result<(), Memory>
    ensures acts { RefinesAction run.now (with_both (L.call_log outside.old) (D.call_log disk.old)) (with_both (L.call_log outside.new) (D.call_log disk.new)) parts.old parts.new (λ h. starts_if_allowed run.now (route_of route) h) result }
    ensures unheard { NoEventTaken (L.counts outside.old) (L.counts outside.new) }
    ensures later { L.faults outside.old ≤ L.faults outside.new }
    ensures damaged { parts.old.state.damaged ≤ parts.new.state.damaged }
    ensures disk_later { D.faults disk.old ≤ D.faults disk.new }
{
    let limits = InFlightLimits {
        max_up: run.max_up(),
        backlog_limit: run.backlog_limit(),
    };
    if parts
        .state
        .may_start(route, run.places(route.output), limits)
    {
        begin(run, parts, outside, disk, route, content)
    } else {
        Ok(())
    }
}

/// The numbers of a timer fit their types.
fn lemma_numbers_fit(timer: Timer)
    ensures { (timer.due < 2 ^ 64) × (timer.chunk.0 < 2 ^ 64) × (timer.output.0 < 2 ^ 32) }
{}

/// Starts the routes that are idle and due, by due time, then chunk, then output, each if it may still start
/// when its turn comes. Routes to an output without a free place start none, so they are passed over. Routes
/// of one chunk with equal due times follow one another and share their encoded text.
pub fn walk<L: Loop, D: Disk>(
    run: &RunSettings,
    parts: &mut Parts,
    outside: &mut L,
    disk: &mut D,
) -> Result<(), Memory>
    ensures acts { RefinesAction run.now (with_both (L.call_log outside.old) (D.call_log disk.old)) (with_both (L.call_log outside.new) (D.call_log disk.new)) parts.old parts.new (λ h. walk run.now h) result }
    ensures unheard { NoEventTaken (L.counts outside.old) (L.counts outside.new) }
    ensures later { L.faults outside.old ≤ L.faults outside.new }
    ensures damaged { parts.old.state.damaged ≤ parts.new.state.damaged }
    ensures disk_later { D.faults disk.old ≤ D.faults disk.new }
{
    run.lemma_settings_are_sound();
    let mut content = Content::new(parts.state.alloc());
    let mut last = None;
    'dispatch: loop {
        let free = free_outputs(run, &parts.state);
        let Some(timer) = parts.state.next_due_to(free, last)? else {
            return Ok(());
        };
        lemma_numbers_fit(timer);
        let route = RouteId {
            chunk: timer.chunk,
            output: timer.output,
        };
        start_if_allowed(run, parts, outside, disk, route, &mut content)?;
        last = Some(timer);
    }
}

/// Handles a connection that can take more bytes: its flush attempt continues.
pub fn room<L: Loop, D: Disk>(
    run: &RunSettings,
    parts: &mut Parts,
    outside: &mut L,
    disk: &mut D,
    link: LinkId,
) -> Result<(), Memory>
    ensures acts { RefinesAction run.now (with_both (L.call_log outside.old) (D.call_log disk.old)) (with_both (L.call_log outside.new) (D.call_log disk.new)) parts.old parts.new (λ h. at_room run.now link.0 h) result }
    ensures unheard { NoEventTaken (L.counts outside.old) (L.counts outside.new) }
    ensures later { L.faults outside.old ≤ L.faults outside.new }
    ensures damaged { parts.old.state.damaged ≤ parts.new.state.damaged }
    ensures disk_later { D.faults disk.old ≤ D.faults disk.new }
{
    let Some(mut flight) = parts.state.take(link) else {
        return Ok(());
    };
    let before = flight.flush.taken();
    let poll = flight.flush.poll(parts.state.alloc(), outside)?;
    record_progress(run, parts, outside, disk, flight, before, poll)
}

/// Handles bytes that came back over a connection.
pub fn back<L: Loop, D: Disk>(
    run: &RunSettings,
    parts: &mut Parts,
    outside: &mut L,
    disk: &mut D,
    link: LinkId,
    bytes: &[u8],
) -> Result<(), Memory>
    ensures acts { RefinesAction run.now (with_both (L.call_log outside.old) (D.call_log disk.old)) (with_both (L.call_log outside.new) (D.call_log disk.new)) parts.old parts.new (λ h. at_reply run.now link.0 bytes.now h) result }
    ensures unheard { NoEventTaken (L.counts outside.old) (L.counts outside.new) }
    ensures later { L.faults outside.old ≤ L.faults outside.new }
    ensures damaged { parts.old.state.damaged ≤ parts.new.state.damaged }
    ensures disk_later { D.faults disk.old ≤ D.faults disk.new }
{
    let Some(mut flight) = parts.state.take(link) else {
        return Ok(());
    };
    let before = flight.flush.taken();
    let poll = flight.flush.back(parts.state.alloc(), outside, bytes)?;
    record_progress(run, parts, outside, disk, flight, before, poll)
}

/// Handles a broken connection.
pub fn broken<L: Loop, D: Disk>(
    run: &RunSettings,
    parts: &mut Parts,
    outside: &mut L,
    disk: &mut D,
    link: LinkId,
) -> Result<(), Memory>
    ensures acts { RefinesAction run.now (with_both (L.call_log outside.old) (D.call_log disk.old)) (with_both (L.call_log outside.new) (D.call_log disk.new)) parts.old parts.new (λ h. at_break run.now link.0 h) result }
    ensures unheard { NoEventTaken (L.counts outside.old) (L.counts outside.new) }
    ensures later { L.faults outside.old ≤ L.faults outside.new }
    ensures damaged { parts.old.state.damaged ≤ parts.new.state.damaged }
    ensures disk_later { D.faults disk.old ≤ D.faults disk.new }
{
    let Some(mut flight) = parts.state.take(link) else {
        return Ok(());
    };
    let before = flight.flush.taken();
    let poll = flight.flush.broken(outside)?;
    record_progress(run, parts, outside, disk, flight, before, poll)
}
