//! What each operation prints.

use crate::handshakes::{
    put_helo, put_ping, put_pong, put_read_helo, put_read_ping, put_read_pong,
};
use crate::messages::{put_forward, put_message, put_pieces, put_stream};
use crate::payloads::{put_content, put_request, put_with_field};
use crate::replies::{put_ack, put_id, put_reply, put_retried, put_wait};
use fwd_base::{Bytes, Memory};
use fwd_test_rows::{argument, arguments};
use std::alloc::Global;

/// Appends what comes of an operation; the row itself if it begins with none.
fn put_answer(
    alloc: Global,
    out: &mut String,
    row: &str,
    arguments: &[Bytes],
) -> Result<(), Memory> {
    let first = argument(arguments, 1);
    let second = argument(arguments, 2);
    match str::from_utf8(argument(arguments, 0)).unwrap_or("") {
        "message" => put_message(alloc, out, first),
        "stream" => put_stream(alloc, out, arguments.get(1..).unwrap_or(&[])),
        "pieces" => put_pieces(alloc, out, first, second),
        "forward" => put_forward(alloc, out, first, second),
        "payload" => put_content(alloc, out, first, second),
        "request" => put_request(alloc, out, first, second),
        "field" => put_with_field(alloc, out, arguments),
        "reply" => put_reply(alloc, out, first),
        "retried" => put_retried(alloc, out, arguments),
        "ack" => put_ack(alloc, out, first, second),
        "id" => put_id(alloc, out, first, second),
        "wait" => put_wait(out, arguments),
        "helo" => put_helo(alloc, out, first),
        "ping" => put_ping(alloc, out, arguments),
        "pong" => put_pong(alloc, out, arguments),
        "read_helo" => put_read_helo(alloc, out, first),
        "read_ping" => put_read_ping(alloc, out, arguments),
        "read_pong" => put_read_pong(alloc, out, arguments),
        _ => Ok(out.push_str(row)?),
    }
}

fn put_row(alloc: Global, out: &mut String, row: &str) -> Result<(), Memory> {
    let arguments = arguments(alloc, row)?;
    put_answer(alloc, out, row, arguments.as_slice())
}

/// What comes of a row.
pub fn answer(alloc: Global, row: &str) -> Result<String, Memory> {
    let mut out = String::new(alloc);
    put_row(alloc, &mut out, row)?;
    Ok(out)
}
