//! Outcomes of flush attempts: acknowledged, rejected, to be retried, or still in flight.

ghost use Rattle.std.specs.Prelude.{◌≡◌, ◌≤◌, true};
ghost use Rattle.fwd_flush.specs.FlushProgram.{poll_in};
ghost use Rattle.fwd_table.specs.Outcomes.{may_retry};
ghost use Rattle.fwd_model.specs.Settings.{output_at, retries_at};
ghost use Rattle.fwd_model.specs.Routes.{tries as tries_of};
ghost use Rattle.fwd_model.specs.FlushActions.{retries, applies_answer, stands, notes_calls};
ghost use Rattle.fwd_engine_state.specs.Views.{route_of};
ghost use Rattle.fwd_engine_state.specs.StateRepresents.{IsClosedRoute, IsPending, IsFlightOf};
ghost use Rattle.fwd_engine_state.specs.RefinesAction.{with_both, RefinesOutcomeWhere};
ghost use Rattle.fwd_engine_state.specs.LoopCounters.{NoEventTaken};
ghost use Rattle.fwd_engine_flush.specs.LoopWorld.{with_loop};

use fwd_base::Memory;
use fwd_engine_chunks::{RunSettings, settle};
use fwd_engine_state::{FlushAttempt, Parts, RouteId};
use fwd_flush::{Answer, Poll};
use fwd_outside::{Disk, Loop};
use fwd_retry::wait_of;

/// The wait in seconds of a route that is resolved, and not retried.
const NO_WAIT: u64 = 0;

/// Schedules a retry of a route, which has one left, after a random wait.
fn wait_to_retry<L: Loop>(
    run: &RunSettings,
    parts: &mut Parts,
    outside: &mut L,
    route: RouteId,
) -> Result<(), Memory>
    ensures acts { RefinesOutcomeWhere run.now (with_loop (L.call_log outside.old)) (with_loop (L.call_log outside.new)) parts.old parts.new (route_of route)
        (λ h. IsClosedRoute h (route_of route) × IsPending run.now h (route_of route) × (may_retry (retries_at (output_at run.now route.output.0)) (tries_of h (route_of route)) ≡ true)) (λ h. retries run.now (route_of route) h) result }
    ensures unheard { NoEventTaken (L.counts outside.old) (L.counts outside.new) }
    ensures later { L.faults outside.old ≤ L.faults outside.new }
    ensures damaged { parts.new.state.damaged ≡ parts.old.state.damaged }
{
    let tries = parts.state.tries(route);
    let word = outside.word()?;
    let wait_s = wait_of(tries.saturating_add(1), run.base(), run.cap(), word);
    let limit = run.retries(route.output);
    parts
        .state
        .apply_answer(route, Answer::Retry, limit, wait_s);
    Ok(())
}

/// Handles a failed flush: schedules a retry after a random wait, or resolves the route if no retry is left.
fn retry<L: Loop, D: Disk>(
    run: &RunSettings,
    parts: &mut Parts,
    outside: &mut L,
    disk: &mut D,
    route: RouteId,
) -> Result<(), Memory>
    ensures acts { RefinesOutcomeWhere run.now (with_both (L.call_log outside.old) (D.call_log disk.old)) (with_both (L.call_log outside.new) (D.call_log disk.new)) parts.old parts.new (route_of route)
        (λ h. IsClosedRoute h (route_of route) × IsPending run.now h (route_of route)) (λ h. retries run.now (route_of route) h) result }
    ensures unheard { NoEventTaken (L.counts outside.old) (L.counts outside.new) }
    ensures later { L.faults outside.old ≤ L.faults outside.new }
    ensures damaged { parts.new.state.damaged ≡ parts.old.state.damaged }
    ensures disk_later { D.faults disk.old ≤ D.faults disk.new }
{
    let limit = run.retries(route.output);
    if parts.state.may_retry(route, limit) {
        wait_to_retry(run, parts, outside, route)
    } else {
        parts
            .state
            .apply_answer(route, Answer::Retry, limit, NO_WAIT);
        settle(run, parts, disk, route)
    }
}

/// Handles the answer of an output.
fn apply_answer<L: Loop, D: Disk>(
    run: &RunSettings,
    parts: &mut Parts,
    outside: &mut L,
    disk: &mut D,
    route: RouteId,
    answer: Answer,
) -> Result<(), Memory>
    ensures acts { RefinesOutcomeWhere run.now (with_both (L.call_log outside.old) (D.call_log disk.old)) (with_both (L.call_log outside.new) (D.call_log disk.new)) parts.old parts.new (route_of route)
        (λ h. IsClosedRoute h (route_of route) × IsPending run.now h (route_of route)) (λ h. applies_answer run.now (route_of route) answer h) result }
    ensures unheard { NoEventTaken (L.counts outside.old) (L.counts outside.new) }
    ensures later { L.faults outside.old ≤ L.faults outside.new }
    ensures damaged { parts.new.state.damaged ≡ parts.old.state.damaged }
    ensures disk_later { D.faults disk.old ≤ D.faults disk.new }
{
    match answer {
        Answer::Good | Answer::Bad => {
            let limit = run.retries(route.output);
            parts.state.apply_answer(route, answer, limit, NO_WAIT);
            settle(run, parts, disk, route)
        }
        Answer::Retry => retry(run, parts, outside, disk, route),
    }
}

/// Keeps a flush attempt that is still in flight, and handles the answer of one that has ended.
fn apply_poll<L: Loop, D: Disk>(
    run: &RunSettings,
    parts: &mut Parts,
    outside: &mut L,
    disk: &mut D,
    flight: FlushAttempt,
    poll: Poll,
) -> Result<(), Memory>
    ensures acts { RefinesOutcomeWhere run.now (with_both (L.call_log outside.old) (D.call_log disk.old)) (with_both (L.call_log outside.new) (D.call_log disk.new)) parts.old parts.new (route_of flight.route)
        (λ h. IsFlightOf run.now h flight (route_of flight.route) × (poll ≡ poll_in flight.flush.progress.stage)) (λ h. stands run.now (route_of flight.route) flight.flush.progress h) result }
    ensures unheard { NoEventTaken (L.counts outside.old) (L.counts outside.new) }
    ensures later { L.faults outside.old ≤ L.faults outside.new }
    ensures damaged { parts.new.state.damaged ≡ parts.old.state.damaged }
    ensures disk_later { D.faults disk.old ≤ D.faults disk.new }
{
    match poll {
        Poll::Waiting => {
            parts.state.keep_attempt(flight)?;
            Ok(())
        }
        Poll::Ended(answer) => apply_answer(run, parts, outside, disk, flight.route, answer),
    }
}

/// Counts the bytes that the connection took beyond `before`, and handles the result of a poll.
pub fn record_progress<L: Loop, D: Disk>(
    run: &RunSettings,
    parts: &mut Parts,
    outside: &mut L,
    disk: &mut D,
    flight: FlushAttempt,
    before: u64,
    poll: Poll,
) -> Result<(), Memory>
    ensures acts { RefinesOutcomeWhere run.now (with_both (L.call_log outside.old) (D.call_log disk.old)) (with_both (L.call_log outside.new) (D.call_log disk.new)) parts.old parts.new (route_of flight.route)
        (λ h. IsFlightOf run.now h flight (route_of flight.route) × (poll ≡ poll_in flight.flush.progress.stage)) (λ h. notes_calls run.now (route_of flight.route) before flight.flush.progress h) result }
    ensures unheard { NoEventTaken (L.counts outside.old) (L.counts outside.new) }
    ensures later { L.faults outside.old ≤ L.faults outside.new }
    ensures damaged { parts.new.state.damaged ≡ parts.old.state.damaged }
    ensures disk_later { D.faults disk.old ≤ D.faults disk.new }
{
    let more = flight.flush.taken().saturating_sub(before);
    parts.state.count_taken(flight.route.output, more);
    apply_poll(run, parts, outside, disk, flight, poll)
}
