//! Messages of forward peers.

ghost use Rattle.std.specs.Prelude.{◌<◌, ◌≡◌, []};

use fwd_base::{Bytes, Memory};
use fwd_event::{Event, Events, Value, can_write, write_event};
use fwd_in_forward::{Fed, ForwardConn};
use fwd_json::{Floats, json_text};
use fwd_test_rows::put_bytes;
use fwd_wire::{ConnFault, Message, read_message, write_forward};
use std::alloc::Global;

fn push_event(bytes: &mut Bytes, event: &Event) -> Result<(), Memory> {
    if can_write(event) {
        write_event(event, bytes)?;
    }
    Ok(())
}

fn encode_events(alloc: Global, events: &Events) -> Result<Bytes, Memory> {
    let mut bytes = Bytes::new(alloc);
    for event in events {
        push_event(&mut bytes, event)?;
    }
    Ok(bytes)
}

fn put_stored(alloc: Global, out: &mut String, events: &Events) -> Result<(), Memory> {
    let bytes = encode_events(alloc, events)?;
    put_bytes(out, bytes.as_slice())
}

fn text_of(alloc: Global, value: &Value) -> Result<Bytes, Memory> {
    let mut text = Bytes::new(alloc);
    json_text(alloc, value, Floats::Tagged, &mut text)?;
    Ok(text)
}

fn put_chunk(alloc: Global, out: &mut String, chunk: &Value) -> Result<(), Memory> {
    let text = text_of(alloc, chunk)?;
    out.push_str(" chunk ")?;
    put_bytes(out, text.as_slice())
}

/// Appends the tag, the events as a chunk stores them, and the chunk that is to be acknowledged.
fn put_read(alloc: Global, out: &mut String, message: &Message) -> Result<(), Memory> {
    match message {
        Message::Nothing => Ok(out.push_str("nothing")?),
        Message::Batch { tag, events, chunk } => {
            put_bytes(out, tag.as_slice())?;
            out.push(' ')?;
            put_stored(alloc, out, events)?;
            match chunk {
                Some(chunk) => put_chunk(alloc, out, chunk),
                None => Ok(()),
            }
        }
    }
}

/// Appends the first message of some bytes, or why there is none.
pub fn put_message(alloc: Global, out: &mut String, bytes: &[u8]) -> Result<(), Memory> {
    match read_message(alloc, bytes) {
        Ok((message, length)) => {
            write!(out, "{length} ")?;
            put_read(alloc, out, &message)
        }
        Err(error) => {
            write!(out, "{error}")?;
            Ok(())
        }
    }
}

fn fault_word(fault: Option<ConnFault>) -> &'static str {
    match fault {
        None => "",
        Some(ConnFault::NotAMessage) => "not a message ",
        Some(ConnFault::Compressed) => "compressed ",
        Some(ConnFault::TooLong) => "too long ",
    }
}

fn put_fed(alloc: Global, out: &mut String, fed: &Fed) -> Result<(), Memory> {
    for message in fed.messages.as_slice() {
        put_read(alloc, out, message)?;
        out.push(' ')?;
    }
    out.push_str(fault_word(fed.fault))?;
    out.push_str("/ ")?;
    Ok(())
}

fn put_piece(
    alloc: Global,
    out: &mut String,
    conn: &mut ForwardConn,
    piece: &[u8],
) -> Result<(), Memory> {
    let fed = conn.feed(piece)?;
    put_fed(alloc, out, &fed)
}

/// Appends what comes of each piece of a stream.
pub fn put_stream(alloc: Global, out: &mut String, pieces: &[Bytes]) -> Result<(), Memory> {
    let mut conn = ForwardConn::new(alloc);
    for piece in pieces {
        put_piece(alloc, out, &mut conn, piece.as_slice())?;
    }
    Ok(())
}

/// What has come of the pieces so far.
#[derive(Clone, Copy)]
struct Came {
    messages: usize,
    fault: Option<ConnFault>,
}

fn feed(conn: &mut ForwardConn, came: Came, piece: &[u8]) -> Result<Came, Memory> {
    let fed = conn.feed(piece)?;
    Ok(Came {
        messages: came.messages.saturating_add(fed.messages.len()),
        fault: fed.fault,
    })
}

fn feed_all(conn: &mut ForwardConn, size: usize, stream: &[u8]) -> Result<Came, Memory>
    requires { 0 < size }
{
    let mut came = Came {
        messages: 0,
        fault: None,
    };
    for piece in stream.chunks(size) {
        came = feed(conn, came, piece)?;
    }
    Ok(came)
}

fn feed_new(alloc: Global, size: usize, stream: &[u8]) -> Result<Came, Memory>
    requires { 0 < size }
{
    let mut conn = ForwardConn::new(alloc);
    feed_all(&mut conn, size, stream)
}

/// Appends how many messages come of a stream in pieces of a size.
pub fn put_pieces(
    alloc: Global,
    out: &mut String,
    size: &[u8],
    stream: &[u8],
) -> Result<(), Memory> {
    let size = fwd_base::number(size).unwrap_or(0).min(65_536) as usize;
    if size == 0 {
        return Ok(());
    }
    let came = feed_new(alloc, size, stream)?;
    write!(out, "{} messages {}", came.messages, fault_word(came.fault))?;
    Ok(())
}

fn new_message(alloc: Global, tag: &[u8], events: &Events, id: &[u8]) -> Result<Bytes, Memory>
    requires events { events.now ≡ [] }
{
    if tag.len() > 0xffff_ffff || id.len() > 0xffff_ffff {
        return Ok(Bytes::new(alloc));
    }
    if id.is_empty() {
        write_forward(alloc, tag, events, None, true)
    } else {
        write_forward(alloc, tag, events, Some(id), false)
    }
}

/// Appends the message of no events to a peer; it asks for an acknowledgement if there is an id.
pub fn put_forward(alloc: Global, out: &mut String, tag: &[u8], id: &[u8]) -> Result<(), Memory> {
    let events = Events::new(alloc);
    let message = new_message(alloc, tag, &events, id)?;
    put_bytes(out, message.as_slice())
}
