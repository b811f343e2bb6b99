//! Messages of peers, and their acknowledgements.

ghost use Rattle.std.specs.Prelude.{◌≡◌, ◌≤◌, ℕ, Bool, Some, List, length, All, IfOk, IfSome, is_some, option_copied, option_map};
ghost use Rattle.fwd_base.specs.Limits.{longest_tag};
ghost use Rattle.fwd_outside.specs.Program.{bind};
ghost use Rattle.fwd_outside.specs.declared.happening.Happening.TheVariants as happening;
ghost use Rattle.fwd_value.specs.View.{val_of};
ghost use Rattle.fwd_value.specs.Limits.{nesting, LengthsFit};
ghost use Rattle.fwd_event.specs.declared.event.Event.{Event};
ghost use Rattle.fwd_wire.specs.Message.{batch};
ghost use Rattle.fwd_wire.specs.Fits.{ContentFits};
ghost use Rattle.fwd_wire.specs.Representation.{content_of};
ghost use Rattle.fwd_in_forward.specs.EncodedMessage.{encoded_content, HoldsEncodings};
ghost use Rattle.fwd_in_forward.specs.Received.{all_received, received_content, KeepsEncodings};
ghost use Rattle.fwd_settings.specs.declared.settings_types.AllSettings.{AllSettings};
ghost use Rattle.fwd_model.specs.Fact.{MessageStream, Malformed};
ghost use Rattle.fwd_model.specs.Notes.{note_then};
ghost use Rattle.fwd_model.specs.Streams.{stream_of};
ghost use Rattle.fwd_model.specs.Messages.{message_batch, reply_of};
ghost use Rattle.fwd_model.specs.Acceptance.{accepts};
ghost use Rattle.fwd_model.specs.InputActions.{hangs_up, replies, acknowledges, accepts_messages};
ghost use Rattle.fwd_model.specs.StepActions.{step};
ghost use Rattle.fwd_engine_state.specs.RefinesAction.{with_both, RefinesAction, RefinesActionWhere};
ghost use Rattle.fwd_engine_state.specs.LoopCounters.{NoEventTaken};
ghost use Rattle.fwd_engine_ingest.specs.Continuation.{with_loop, RefinesContinuing, TagIsShort, TagsAreShort};
ghost use Rattle.fwd_engine_ingest.specs.MessageEvents.{AreReadBack, message_events};

use crate::batches::tag_or;
use crate::message_events::{MessageEvents, batch_of};
use fwd_base::limits::LONGEST_TAG;
use fwd_base::{Bytes, ConnId, InputId, Memory};
use fwd_engine_chunks::{RunSettings, accept_encoded};
use fwd_engine_state::Parts;
use fwd_event::Value;
use fwd_in_forward::{Arrivals, EncodedMessage, Received};
use fwd_outside::{Disk, Loop, Replied};
use fwd_wire::{Message, ack_bytes};
use std::alloc::Global;
use std::thread::Threads;

/// Drops a connection.
fn hang_up<L: Loop>(parts: &mut Parts, outside: &mut L, conn: ConnId) -> Result<(), Memory>
    ensures acts { (s : AllSettings) → RefinesAction s (with_loop (L.call_log outside.old)) (with_loop (L.call_log outside.new)) parts.old parts.new (λ h. hangs_up conn.0 h) result }
    ensures unheard { NoEventTaken (L.counts outside.old) (L.counts outside.new) }
    ensures later { L.faults outside.old ≤ L.faults outside.new }
{
    outside.drop_conn(conn)?;
    parts.input_streams.remove_connection(conn);
    Ok(())
}

/// Returns the acknowledgement of a message that names a chunk, or `None` if it names none.
fn ack_for(alloc: Global, chunk: Option<&Value>) -> Result<Option<Bytes>, Memory>
    requires fits { IfSome (option_map val_of (option_copied chunk)) (λ v. (nesting v ≤ 63) × LengthsFit v) }
    ensures { (tag : List ℕ) (events : List Event) → IfOk result (λ reply. reply ≡ reply_of (batch tag events (option_map val_of (option_copied chunk.entry)))) }
{
    match chunk {
        Some(chunk) => Ok(Some(ack_bytes(alloc, chunk)?)),
        None => Ok(None),
    }
}

/// Writes an acknowledgement, and drops the connection if it is broken. Returns whether the messages after
/// it are handled.
fn reply<L: Loop>(
    parts: &mut Parts,
    outside: &mut L,
    conn: ConnId,
    bytes: &[u8],
) -> Result<bool, Memory>
    ensures acts { (s : AllSettings) → RefinesContinuing s (with_loop (L.call_log outside.old)) (with_loop (L.call_log outside.new)) parts.old parts.new (λ h next. replies conn.0 (Some bytes.now) next h) result }
    ensures unheard { NoEventTaken (L.counts outside.old) (L.counts outside.new) }
    ensures later { L.faults outside.old ≤ L.faults outside.new }
{
    match outside.reply(conn, bytes) {
        Replied::Taken => Ok(true),
        Replied::Broken => {
            hang_up(parts, outside, conn)?;
            Ok(false)
        }
        Replied::Memory => Err(Memory),
    }
}

/// Acknowledges an accepted message that asks for it, and drops the connection of a refused one. Returns
/// whether the messages after it are handled.
fn answer<L: Loop>(
    parts: &mut Parts,
    outside: &mut L,
    conn: ConnId,
    taken: bool,
    asked: Option<&Bytes>,
) -> Result<bool, Memory>
    ensures acts { (s : AllSettings) → RefinesContinuing s (with_loop (L.call_log outside.old)) (with_loop (L.call_log outside.new)) parts.old parts.new (λ h next. acknowledges conn.0 (option_copied asked.entry) next (record { history = h; taken = taken })) result }
    ensures unheard { NoEventTaken (L.counts outside.old) (L.counts outside.new) }
    ensures later { L.faults outside.old ≤ L.faults outside.new }
{
    if !taken {
        hang_up(parts, outside, conn)?;
        return Ok(false);
    }
    match asked {
        Some(bytes) => reply(parts, outside, conn, bytes.as_slice()),
        None => Ok(true),
    }
}

/// Filters and accepts the events of a message as one batch, under the input's tag or under that of the
/// message, and then answers the message. `chunk` is what it asks to acknowledge. Returns whether the
/// messages after it are handled.
fn receive_batch<L: Loop, D: Disk>(
    rt: &(impl Threads + Sync),
    run: &RunSettings,
    parts: &mut Parts,
    outside: &mut L,
    disk: &mut D,
    input: InputId,
    conn: ConnId,
    tag: &[u8],
    events: MessageEvents,
    chunk: Option<&Value>,
) -> Result<bool, Memory>
    requires read_back { AreReadBack events }
    requires fits { IfSome (option_map val_of (option_copied chunk)) (λ v. (nesting v ≤ 63) × LengthsFit v) }
    ensures acts { length tag.now ≤ longest_tag → RefinesContinuing run.now (with_both (L.call_log outside.old) (D.call_log disk.old)) (with_both (L.call_log outside.new) (D.call_log disk.new)) parts.old parts.new
        (λ h next. let content = batch tag.now (message_events events) (option_map val_of (option_copied chunk.entry)) in
        bind (accepts run.now (message_batch run.now input.0 content) h) (acknowledges conn.0 (reply_of content) next)) result }
    ensures unheard { NoEventTaken (L.counts outside.old) (L.counts outside.new) }
    ensures later { L.faults outside.old ≤ L.faults outside.new }
    ensures disk_later { D.faults disk.old ≤ D.faults disk.new }
{
    let own = tag_or(run, input, tag);
    if own.len() > LONGEST_TAG {
        // Unreachable: the readers break a stream with a longer tag, so no message has one.
        return Ok(false);
    }
    let alloc = parts.state.alloc();
    let asked = ack_for(alloc, chunk)?;
    let batch = batch_of(rt, run, alloc, own, events)?;
    let taken = accept_encoded(run, parts, disk, input, own, &batch)?;
    answer(parts, outside, conn, taken, asked.as_ref())
}

/// Handles a message whose events are values. Returns whether the messages after it are handled.
fn receive_decoded<L: Loop, D: Disk>(
    rt: &(impl Threads + Sync),
    run: &RunSettings,
    parts: &mut Parts,
    outside: &mut L,
    disk: &mut D,
    input: InputId,
    conn: ConnId,
    message: Message,
) -> Result<bool, Memory>
    requires fits { ContentFits (content_of message) }
    ensures acts { TagIsShort (content_of message) → RefinesContinuing run.now (with_both (L.call_log outside.old) (D.call_log disk.old)) (with_both (L.call_log outside.new) (D.call_log disk.new)) parts.old parts.new
        (λ h next. bind (accepts run.now (message_batch run.now input.0 (content_of message)) h) (acknowledges conn.0 (reply_of (content_of message)) next)) result }
    ensures unheard { NoEventTaken (L.counts outside.old) (L.counts outside.new) }
    ensures later { L.faults outside.old ≤ L.faults outside.new }
    ensures disk_later { D.faults disk.old ≤ D.faults disk.new }
{
    match message {
        Message::Nothing => Ok(true),
        Message::Batch { tag, events, chunk } => receive_batch(
            rt,
            run,
            parts,
            outside,
            disk,
            input,
            conn,
            tag.as_slice(),
            MessageEvents::Values(events),
            chunk.as_ref(),
        ),
    }
}

/// Handles a message whose events are encoded. Returns whether the messages after it are handled.
fn receive_encoded<L: Loop, D: Disk>(
    rt: &(impl Threads + Sync),
    run: &RunSettings,
    parts: &mut Parts,
    outside: &mut L,
    disk: &mut D,
    input: InputId,
    conn: ConnId,
    message: EncodedMessage,
) -> Result<bool, Memory>
    requires fits { ContentFits (encoded_content message) }
    requires stored { HoldsEncodings message }
    ensures acts { TagIsShort (encoded_content message) → RefinesContinuing run.now (with_both (L.call_log outside.old) (D.call_log disk.old)) (with_both (L.call_log outside.new) (D.call_log disk.new)) parts.old parts.new
        (λ h next. bind (accepts run.now (message_batch run.now input.0 (encoded_content message)) h) (acknowledges conn.0 (reply_of (encoded_content message)) next)) result }
    ensures unheard { NoEventTaken (L.counts outside.old) (L.counts outside.new) }
    ensures later { L.faults outside.old ≤ L.faults outside.new }
    ensures disk_later { D.faults disk.old ≤ D.faults disk.new }
{
    let EncodedMessage {
        tag,
        count,
        events,
        chunk,
    } = message;
    let events = MessageEvents::Encoded {
        count,
        bytes: events,
    };
    receive_batch(
        rt,
        run,
        parts,
        outside,
        disk,
        input,
        conn,
        tag.as_slice(),
        events,
        chunk.as_ref(),
    )
}

/// Handles a message: accepts its batch, if it has one. Returns whether the messages after it are handled.
fn receive_message<L: Loop, D: Disk>(
    rt: &(impl Threads + Sync),
    run: &RunSettings,
    parts: &mut Parts,
    outside: &mut L,
    disk: &mut D,
    input: InputId,
    conn: ConnId,
    message: Received,
) -> Result<bool, Memory>
    requires fits { ContentFits (received_content message) }
    requires encodings { KeepsEncodings message }
    ensures acts { TagIsShort (received_content message) → RefinesContinuing run.now (with_both (L.call_log outside.old) (D.call_log disk.old)) (with_both (L.call_log outside.new) (D.call_log disk.new)) parts.old parts.new
        (λ h next. bind (accepts run.now (message_batch run.now input.0 (received_content message)) h) (acknowledges conn.0 (reply_of (received_content message)) next)) result }
    ensures unheard { NoEventTaken (L.counts outside.old) (L.counts outside.new) }
    ensures later { L.faults outside.old ≤ L.faults outside.new }
    ensures disk_later { D.faults disk.old ≤ D.faults disk.new }
{
    match message {
        Received::Decoded(decoded) => {
            receive_decoded(rt, run, parts, outside, disk, input, conn, decoded)
        }
        Received::Encoded(encoded) => {
            receive_encoded(rt, run, parts, outside, disk, input, conn, encoded)
        }
    }
}

/// Counts a stream that is no message, and drops its connection.
fn reject_stream<L: Loop>(
    parts: &mut Parts,
    outside: &mut L,
    input: InputId,
    conn: ConnId,
) -> Result<(), Memory>
    ensures acts { (s : AllSettings) → RefinesAction s (with_loop (L.call_log outside.old)) (with_loop (L.call_log outside.new)) parts.old parts.new (λ h. note_then (Malformed input.0) h (hangs_up conn.0)) result }
    ensures unheard { NoEventTaken (L.counts outside.old) (L.counts outside.new) }
    ensures later { L.faults outside.old ≤ L.faults outside.new }
{
    parts.state.count_refused(input);
    hang_up(parts, outside, conn)
}

/// Handles messages one by one, and then the fault that broke their stream, if there is one.
fn receive_all<L: Loop, D: Disk>(
    rt: &(impl Threads + Sync),
    run: &RunSettings,
    parts: &mut Parts,
    outside: &mut L,
    disk: &mut D,
    input: InputId,
    conn: ConnId,
    arrived: Arrivals,
) -> Result<(), Memory>
    requires fits { All ContentFits (all_received arrived.messages) }
    requires encodings { All KeepsEncodings arrived.messages }
    ensures acts { TagsAreShort (all_received arrived.messages) → RefinesAction run.now (with_both (L.call_log outside.old) (D.call_log disk.old)) (with_both (L.call_log outside.new) (D.call_log disk.new)) parts.old parts.new
        (λ h. accepts_messages run.now input.0 conn.0 (is_some arrived.fault) (all_received arrived.messages) h) result }
    ensures unheard { NoEventTaken (L.counts outside.old) (L.counts outside.new) }
    ensures later { L.faults outside.old ≤ L.faults outside.new }
    ensures disk_later { D.faults disk.old ≤ D.faults disk.new }
{
    let Arrivals { messages, fault } = arrived;
    for message in messages.into_vec() {
        let goes_on = receive_message(rt, run, parts, outside, disk, input, conn, message)?;
        if !goes_on {
            return Ok(());
        }
    }
    match fault {
        Some(_) => reject_stream(parts, outside, input, conn),
        None => Ok(()),
    }
}

/// Handles bytes from a peer that sends messages.
pub fn receive_messages<L: Loop, D: Disk>(
    rt: &(impl Threads + Sync),
    run: &RunSettings,
    parts: &mut Parts,
    outside: &mut L,
    disk: &mut D,
    input: InputId,
    conn: ConnId,
    bytes: &[u8],
) -> Result<(), Memory>
    ensures acts { RefinesActionWhere run.now (with_both (L.call_log outside.old) (D.call_log disk.old)) (with_both (L.call_log outside.new) (D.call_log disk.new)) parts.old parts.new
        (λ h. stream_of run.now h input.0 conn.0 ≡ Some (MessageStream conn.0)) (λ h. step run.now (happening.Piece input conn bytes.now) h) result }
    ensures unheard { NoEventTaken (L.counts outside.old) (L.counts outside.new) }
    ensures later { L.faults outside.old ≤ L.faults outside.new }
    ensures disk_later { D.faults disk.old ≤ D.faults disk.new }
{
    let arrived = parts.input_streams.receive_peer_messages(conn, bytes)?;
    receive_all(rt, run, parts, outside, disk, input, conn, arrived)
}
