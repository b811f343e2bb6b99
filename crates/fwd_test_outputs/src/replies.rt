//! What is expected of peers, and when a failed flush is tried again.

use fwd_base::{Bytes, ChunkId, Memory, OutputId, number};
use fwd_flush::{Judged, ReplyReader};
use fwd_out_http::{HttpReader, StatusRange};
use fwd_out_net::{EndReader, chunk_id};
use fwd_retry::wait_of;
use fwd_test_rows::{argument, put_bytes};
use std::alloc::Global;

fn put_judged(out: &mut String, judged: Judged) -> Result<(), Memory> {
    out.push_str(match judged {
        Judged::More => "more",
        Judged::Right => "right",
        Judged::Wrong => "wrong",
        Judged::Fatal => "fatal",
    })?;
    Ok(())
}

/// Appends how an HTTP reply is judged.
pub fn put_reply(alloc: Global, out: &mut String, reply: &[u8]) -> Result<(), Memory> {
    let reader = HttpReader::new(alloc, &[])?;
    put_judged(out, reader.judge(alloc, reply)?)
}

fn status_at(row: &[Bytes], place: usize) -> u16 {
    u16::try_from(number_at(row, place)).unwrap_or(0)
}

/// `retried|FIRST|LAST|REPLY`: how an HTTP reply is judged if the statuses from FIRST to LAST are retried
/// too.
pub fn put_retried(alloc: Global, out: &mut String, row: &[Bytes]) -> Result<(), Memory> {
    let range = StatusRange {
        first: status_at(row, 1),
        last: status_at(row, 2),
    };
    let reader = HttpReader::new(alloc, &[range])?;
    put_judged(out, reader.judge(alloc, argument(row, 3))?)
}

/// The judgement on a reply where an id is to be acknowledged; without an id none is.
fn judge_reply(alloc: Global, id: &[u8], reply: &[u8]) -> Result<Judged, Memory> {
    if id.is_empty() {
        return EndReader::Quiet.judge(alloc, reply);
    }
    let id = Bytes::from_slice(alloc, id)?;
    EndReader::Ack { id }.judge(alloc, reply)
}

/// Appends how a reply of a forward peer is judged.
pub fn put_ack(alloc: Global, out: &mut String, id: &[u8], reply: &[u8]) -> Result<(), Memory> {
    put_judged(out, judge_reply(alloc, id, reply)?)
}

/// Appends the id of a chunk that is sent to an output.
pub fn put_id(alloc: Global, out: &mut String, chunk: &[u8], output: &[u8]) -> Result<(), Memory> {
    let chunk = ChunkId(number(chunk).unwrap_or(0));
    let output = OutputId(number(output).unwrap_or(0).min(u32::MAX as u64) as u32);
    let id = chunk_id(alloc, chunk, output)?;
    put_bytes(out, id.as_slice())
}

fn number_at(row: &[Bytes], place: usize) -> u64 {
    number(argument(row, place)).unwrap_or(0)
}

/// `wait|FAILURES|BASE|CAP|RANDOM`: how many seconds a flush waits.
pub fn put_wait(out: &mut String, row: &[Bytes]) -> Result<(), Memory> {
    let base = number_at(row, 2);
    if base == 0 {
        return Ok(());
    }
    let wait = wait_of(
        number_at(row, 1),
        base,
        number_at(row, 3),
        number_at(row, 4),
    );
    write!(out, "{wait}")?;
    Ok(())
}
