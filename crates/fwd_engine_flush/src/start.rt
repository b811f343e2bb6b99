ghost use Rattle.std.specs.Prelude.{◌≡◌, ◌≤◌, ◌<◌, ◌^◌, [], length, true, Some};
ghost use Rattle.fwd_payload.specs.Content.{MadeOf};
ghost use Rattle.fwd_payload.specs.Reader.{IsFlushTo};
ghost use Rattle.fwd_model.specs.Settings.{output_at};
ghost use Rattle.fwd_model.specs.Routes.{is_idle};
ghost use Rattle.fwd_model.specs.Payloads.{delivery_at, tag_of_chunk, without_reply};
ghost use Rattle.fwd_model.specs.FlushActions.{after_read, starts_flush};
ghost use Rattle.fwd_engine_state.specs.Views.{route_of};
ghost use Rattle.fwd_engine_state.specs.StateRepresents.{StateAnswers};
ghost use Rattle.fwd_engine_state.specs.RefinesAction.{with_both, RefinesActionWhere};
ghost use Rattle.fwd_engine_state.specs.LoopCounters.{NoEventTaken};

use crate::outcome::record_progress;
use fwd_base::{Bytes, Memory, OutputId};
use fwd_chunk::PartErr;
use fwd_engine_chunks::RunSettings;
use fwd_engine_state::{
    FlushAttempt, Parts, RouteId, State, lemma_begun_events, lemma_begun_route_is_out,
    lemma_idle_route_is_closed, lemma_idle_route_is_pending,
};
use fwd_event::whole_prefix;
use fwd_out_net::EndReader;
use fwd_outside::{Disk, Loop};
use fwd_payload::{Content, Flush, Reader, deliver};
use std::alloc::Global;

/// Returns a flush that hands the events of a chunk's content to the output of a route, or nothing if there
/// is no such output. Returns `None` if the content is no list of events. The flush isn't started.
fn payload_flush(
    run: &RunSettings,
    alloc: Global,
    route: RouteId,
    tag: &[u8],
    content: &mut Content,
    is_shared: bool,
) -> Result<Option<Flush<Reader>>, Memory>
    requires { length tag.now < 2 ^ 32 }
    ensures flush { MadeOf content.old (λ events flush. IsFlushTo (delivery_at (output_at run.now route.output.0) tag.now (route_of route) events) route.output flush) result }
    ensures same { content.new ≡ content.old }
{
    match run.output(route.output) {
        Some(output) => deliver(
            alloc,
            &output.kind,
            tag,
            route.chunk,
            route.output,
            content,
            is_shared,
        ),
        None => empty_flush(alloc, route.output, content.as_slice()),
    }
}

/// Returns a flush that hands over nothing, or `None` if the content is no list of events.
fn empty_flush(
    alloc: Global,
    output: OutputId,
    content: &[u8],
) -> Result<Option<Flush<Reader>>, Memory>
    ensures { MadeOf content.now (λ _ flush. IsFlushTo (without_reply []) output flush) result }
{
    let (_, length) = whole_prefix(alloc, content)?;
    if length == content.len() as u64 {
        let reader = Reader::End(EndReader::Quiet);
        Ok(Some(Flush::new(alloc, output, Bytes::new(alloc), reader)))
    } else {
        Ok(None)
    }
}

/// Returns a flush of an idle route with the events of the content, or `None` if the content is no list of
/// events. It isn't started. A tag has at most `LONGEST_TAG` bytes, so the `Err` for 2^32 bytes isn't
/// reached.
fn new_flush(
    run: &RunSettings,
    state: &State,
    route: RouteId,
    content: &mut Content,
) -> Result<Option<Flush<Reader>>, Memory>
    ensures flush { MadeOf content.old (λ events flush. StateAnswers state.now (λ s h. s ≡ run.now → is_idle s h (route_of route) ≡ true
        → IsFlushTo (delivery_at (output_at s route.output.0) (tag_of_chunk h route.chunk.0) (route_of route) events) route.output flush)) result }
    ensures same { content.new ≡ content.old }
{
    let tag = state.table().tag_of(route.chunk);
    if tag.len() as u64 > u64::from(u32::MAX) {
        return Err(Memory);
    }
    let is_shared = state.table().owed(route.chunk).count_ones() > 1;
    payload_flush(run, state.alloc(), route, tag, content, is_shared)
}

/// Starts a flush of an idle route with the events of the content. If the content is no list of events, it is
/// counted as damaged, and the route stays idle.
fn start_flush<L: Loop, D: Disk>(
    run: &RunSettings,
    parts: &mut Parts,
    outside: &mut L,
    disk: &mut D,
    route: RouteId,
    content: &mut Content,
) -> Result<(), Memory>
    ensures acts { RefinesActionWhere run.now (with_both (L.call_log outside.old) (D.call_log disk.old)) (with_both (L.call_log outside.new) (D.call_log disk.new)) parts.old parts.new
        (λ h. is_idle run.now h (route_of route) ≡ true) (λ h. after_read run.now (route_of route) (length content.old) h (Some content.old)) result }
    ensures unheard { NoEventTaken (L.counts outside.old) (L.counts outside.new) }
    ensures later { L.faults outside.old ≤ L.faults outside.new }
    ensures damaged { parts.old.state.damaged ≤ parts.new.state.damaged }
    ensures disk_later { D.faults disk.old ≤ D.faults disk.new }
{
    lemma_begun_route_is_out();
    lemma_begun_events();
    lemma_idle_route_is_closed();
    lemma_idle_route_is_pending();
    let alloc = parts.state.alloc();
    let Some(flush) = new_flush(run, &parts.state, route, content)? else {
        parts.state.count_damaged();
        return Ok(());
    };
    let mut flight = FlushAttempt { route, flush };
    let tag = parts.state.table().tag_of(route.chunk);
    let poll = flight.flush.start(alloc, outside, tag)?;
    record_progress(run, parts, outside, disk, flight, 0, poll)
}

/// Reads the content of a chunk, and starts a flush of an idle route with it. If the content can't be read,
/// or is damaged, that is counted, and the route stays idle. The count of damaged reads never falls. A route
/// whose chunk the store doesn't hold stays idle, in the reference model too (`begins_as`).
pub fn begin<L: Loop, D: Disk>(
    run: &RunSettings,
    parts: &mut Parts,
    outside: &mut L,
    disk: &mut D,
    route: RouteId,
    content: &mut Content,
) -> Result<(), Memory>
    ensures acts { RefinesActionWhere run.now (with_both (L.call_log outside.old) (D.call_log disk.old)) (with_both (L.call_log outside.new) (D.call_log disk.new)) parts.old parts.new
        (λ h. is_idle run.now h (route_of route) ≡ true) (λ h. starts_flush run.now (route_of route) h) result }
    ensures unheard { NoEventTaken (L.counts outside.old) (L.counts outside.new) }
    ensures later { L.faults outside.old ≤ L.faults outside.new }
    ensures damaged { parts.old.state.damaged ≤ parts.new.state.damaged }
    ensures disk_later { D.faults disk.old ≤ D.faults disk.new }
{
    if !parts.store.holds(route.chunk) {
        return Ok(());
    }
    let alloc = parts.state.alloc();
    match parts.store.bytes(alloc, disk, route.chunk) {
        Ok(bytes) => {
            content.hold(bytes);
            start_flush(run, parts, outside, disk, route, content)
        }
        Err(PartErr::DiskFailed) => {
            parts.state.count_fault();
            Ok(())
        }
        Err(PartErr::Damaged { .. }) => {
            parts.state.count_damaged();
            Ok(())
        }
        Err(PartErr::Memory) => Err(Memory),
    }
}
