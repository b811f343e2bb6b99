//! Payloads of outputs.

ghost use Rattle.std.specs.Prelude.{IsTrue, All};
ghost use Rattle.fwd_event.specs.Event.{EventFits};

use fwd_base::{Bytes, Form, Memory};
use fwd_event::{Events, can_write, read_events};
use fwd_out_http::{HeaderField, payload_http, request_of};
use fwd_out_text::{Floats, PayloadForm, payload_of_content, payload_text};
use fwd_test_rows::{argument, put_bytes};
use std::alloc::Global;

fn plain_form(word: &str) -> Form {
    match word {
        "json_lines" => Form::JsonLines,
        "msgpack" => Form::MsgPack,
        _ => Form::OutFile,
    }
}

/// Returns the form that a word names. After the word, the row may say that floats are numbers.
fn form(word: &[u8]) -> PayloadForm {
    let word = str::from_utf8(word).unwrap_or("");
    match word.split_once(' ') {
        Some((word, _)) => PayloadForm {
            form: plain_form(word),
            floats: Floats::Numbers,
        },
        None => PayloadForm {
            form: plain_form(word),
            floats: Floats::Tagged,
        },
    }
}

fn can_write_all(events: &Events) -> bool
    ensures { IsTrue result → All EventFits events.now }
{
    for event in events.as_slice() {
        if !can_write(event) {
            return false;
        }
    }
    true
}

/// Whether the payload of a list of events is this one.
fn is_payload(
    alloc: Global,
    form: PayloadForm,
    events: &Events,
    payload: &[u8],
) -> Result<bool, Memory> {
    if !can_write_all(events) {
        return Ok(false);
    }
    let other = payload_text(alloc, form, b"app", events)?;
    Ok(other.as_slice() == payload)
}

/// Whether the events of a content have this payload.
fn agrees(
    alloc: Global,
    form: PayloadForm,
    content: &[u8],
    payload: &[u8],
) -> Result<bool, Memory> {
    match read_events(alloc, content) {
        Ok(events) => is_payload(alloc, form, &events, payload),
        Err(_) => Ok(false),
    }
}

fn put_payload(
    alloc: Global,
    out: &mut String,
    form: PayloadForm,
    content: &[u8],
    payload: &[u8],
) -> Result<(), Memory> {
    put_bytes(out, payload)?;
    if !agrees(alloc, form, content, payload)? {
        out.push_str(" (another of its events)")?;
    }
    Ok(())
}

/// Appends the payload of a chunk's content with the tag `app`, and whether that of its events is another.
pub fn put_content(
    alloc: Global,
    out: &mut String,
    word: &[u8],
    content: &[u8],
) -> Result<(), Memory> {
    match payload_of_content(alloc, form(word), b"app", content)? {
        Some(payload) => put_payload(alloc, out, form(word), content, payload.as_slice()),
        None => Ok(out.push_str("no events")?),
    }
}

fn put_http(
    alloc: Global,
    out: &mut String,
    form: PayloadForm,
    events: &Events,
) -> Result<(), Memory> {
    if !can_write_all(events) {
        return Ok(());
    }
    let request = payload_http(alloc, b"127.0.0.1", 8080, b"/in", form, b"app", events)?;
    put_bytes(out, request.as_slice())
}

/// Appends the request that posts events to `/in` of 127.0.0.1:8080.
pub fn put_request(
    alloc: Global,
    out: &mut String,
    word: &[u8],
    content: &[u8],
) -> Result<(), Memory> {
    match read_events(alloc, content) {
        Ok(events) => put_http(alloc, out, form(word), &events),
        Err(error) => {
            write!(out, "{error}")?;
            Ok(())
        }
    }
}

fn with_field(alloc: Global, name: &[u8], value: &[u8], body: &[u8]) -> Result<Bytes, Memory> {
    let field = HeaderField {
        name: Bytes::from_slice(alloc, name)?,
        value: Bytes::from_slice(alloc, value)?,
    };
    request_of(
        alloc,
        b"127.0.0.1",
        8080,
        b"/in",
        Form::MsgPack,
        &[field],
        body,
    )
}

/// `field|NAME|VALUE|BODY`: the request that posts a body to `/in` of 127.0.0.1:8080 with a further field.
pub fn put_with_field(alloc: Global, out: &mut String, row: &[Bytes]) -> Result<(), Memory> {
    let request = with_field(alloc, argument(row, 1), argument(row, 2), argument(row, 3))?;
    put_bytes(out, request.as_slice())
}
