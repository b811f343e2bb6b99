ghost use Rattle.std.specs.Prelude.{◌≡◌, ◌≤◌, Some};
ghost use Rattle.fwd_outside.specs.declared.happening.Happening.TheVariants as happening;
ghost use Rattle.fwd_model.specs.Fact.{History, LineStream, Standard};
ghost use Rattle.fwd_model.specs.Streams.{stream_of};
ghost use Rattle.fwd_model.specs.StepActions.{step};
ghost use Rattle.fwd_engine_state.specs.RefinesAction.{with_disk, with_both, RefinesAction, RefinesActionWhere, RefinesWithoutCalls};
ghost use Rattle.fwd_engine_state.specs.LoopCounters.{NoEventTaken};
ghost use Rattle.fwd_engine_ingest.specs.EndOfInput.{ends_input};

use crate::batches::accept_lines;
use crate::messages::receive_messages;
use fwd_base::{ConnId, InputId, Memory};
use fwd_engine_chunks::RunSettings;
use fwd_engine_state::{Parts, StreamKind};
use fwd_outside::{Disk, Loop};
use std::thread::Threads;

/// Adds the connection of a peer to an input, if peers connect to that input.
pub fn join(
    run: &RunSettings,
    parts: &mut Parts,
    input: InputId,
    conn: ConnId,
) -> Result<(), Memory>
    ensures { RefinesWithoutCalls run.now parts.old parts.new (λ h. step run.now (happening.Joined input conn) h) result }
{
    parts
        .input_streams
        .add_connection(input, conn, run.hears_peers(input))
}

/// Removes the connection of a peer that has left.
pub fn remove_peer(
    run: &RunSettings,
    parts: &mut Parts,
    input: InputId,
    conn: ConnId,
) -> Result<(), Memory>
    ensures { RefinesWithoutCalls run.now parts.old parts.new (λ h. step run.now (happening.Gone input conn) h) result }
{
    parts.input_streams.leave_input(input, conn);
    Ok(())
}

/// Handles bytes from a peer that sends lines.
fn receive_lines<D: Disk>(
    rt: &(impl Threads + Sync),
    run: &RunSettings,
    parts: &mut Parts,
    disk: &mut D,
    input: InputId,
    conn: ConnId,
    bytes: &[u8],
) -> Result<(), Memory>
    ensures acts { RefinesActionWhere run.now (with_disk (D.call_log disk.old)) (with_disk (D.call_log disk.new)) parts.old parts.new (λ h. stream_of run.now h input.0 conn.0 ≡ Some (LineStream conn.0)) (λ h. step run.now (happening.Piece input conn bytes.now) h) result }
    ensures later { D.faults disk.old ≤ D.faults disk.new }
{
    let lines = parts.input_streams.feed_peer_lines(conn, bytes)?;
    accept_lines(rt, run, parts, disk, input, lines)
}

/// Handles bytes of standard input.
fn receive_stdin<D: Disk>(
    rt: &(impl Threads + Sync),
    run: &RunSettings,
    parts: &mut Parts,
    disk: &mut D,
    input: InputId,
    conn: ConnId,
    bytes: &[u8],
) -> Result<(), Memory>
    ensures acts { RefinesActionWhere run.now (with_disk (D.call_log disk.old)) (with_disk (D.call_log disk.new)) parts.old parts.new (λ h. stream_of run.now h input.0 conn.0 ≡ Some (Standard input.0)) (λ h. step run.now (happening.Piece input conn bytes.now) h) result }
    ensures later { D.faults disk.old ≤ D.faults disk.new }
{
    let lines = parts.input_streams.feed_stdin(input, bytes)?;
    accept_lines(rt, run, parts, disk, input, lines)
}

/// Handles bytes of a connection or of standard input. The lines that end in them make one batch, and each
/// message makes one. An accepted message is acknowledged if it asks for that; a refused one ends its
/// connection.
pub fn receive_bytes<L: Loop, D: Disk>(
    rt: &(impl Threads + Sync),
    run: &RunSettings,
    parts: &mut Parts,
    outside: &mut L,
    disk: &mut D,
    input: InputId,
    conn: ConnId,
    bytes: &[u8],
) -> Result<(), Memory>
    ensures acts { RefinesAction run.now (with_both (L.call_log outside.old) (D.call_log disk.old)) (with_both (L.call_log outside.new) (D.call_log disk.new)) parts.old parts.new (λ h. step run.now (happening.Piece input conn bytes.now) h) result }
    ensures unheard { NoEventTaken (L.counts outside.old) (L.counts outside.new) }
    ensures later { L.faults outside.old ≤ L.faults outside.new }
    ensures disk_later { D.faults disk.old ≤ D.faults disk.new }
{
    match parts.input_streams.stream(input, conn, run.input(input)) {
        StreamKind::Nobody => Ok(()),
        StreamKind::Lines => receive_lines(rt, run, parts, disk, input, conn, bytes),
        StreamKind::Standard => receive_stdin(rt, run, parts, disk, input, conn, bytes),
        StreamKind::Messages => receive_messages(rt, run, parts, outside, disk, input, conn, bytes),
    }
}

/// Handles the end of an input: the rest of standard input is its last line.
pub fn end_input<D: Disk>(
    rt: &(impl Threads + Sync),
    run: &RunSettings,
    parts: &mut Parts,
    disk: &mut D,
    input: InputId,
) -> Result<(), Memory>
    ensures acts { RefinesAction run.now (with_disk (D.call_log disk.old)) (with_disk (D.call_log disk.new)) parts.old parts.new (λ h. ends_input run.now input h) result }
    ensures later { D.faults disk.old ≤ D.faults disk.new }
{
    let lines = parts.input_streams.finish_stdin(input)?;
    if !run.reads_standard(input) {
        return Ok(());
    }
    parts.state.stop();
    accept_lines(rt, run, parts, disk, input, lines)
}
