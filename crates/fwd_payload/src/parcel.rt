//! Builds the flush for an output: its payload, and the reader of replies.

ghost use Rattle.std.specs.Prelude.{◌≡◌, ◌<◌, ◌^◌, length, All, IfOk};
ghost use Rattle.fwd_event.specs.Event.{EventFits};
ghost use Rattle.fwd_out_text.specs.Payload.{payload_of};
ghost use Rattle.fwd_model.specs.Chunks.{encoded};
ghost use Rattle.fwd_model.specs.Routes.{route};
ghost use Rattle.fwd_model.specs.Payloads.{delivery_to, message_to, request_to, without_reply};
ghost use Rattle.fwd_out_http.specs.Request.{http_request};
ghost use Rattle.fwd_payload.specs.Content.{MadeOf};
ghost use Rattle.fwd_payload.specs.Reader.{SendsAndJudges, IsFlushTo};

use crate::Reader;
use crate::content::Content;
use crate::sizes::fits_every_output;
use fwd_base::{Bytes, ChunkId, Memory, OutputId};
use fwd_event::{Events, whole_prefix};
use fwd_flush::Flush;
use fwd_out_http::{HttpReader, request_of};
use fwd_out_net::{EndReader, chunk_id, entries_are_short};
use fwd_out_text::PayloadForm;
use fwd_settings::{HttpOptions, OutputKind};
use fwd_wire::write_forward;
use std::alloc::Global;

/// A payload, and the reader of its reply.
struct Parcel {
    payload: Bytes,
    reader: Reader,
}

/// Decodes events; `None` if the bytes aren't a list of events. Events of 2^32 bytes or more would answer out
/// of memory; no chunk is that long.
fn events_of(alloc: Global, content: &[u8]) -> Result<Option<Events>, Memory>
    ensures { MadeOf content.now (λ events read. (read ≡ events) × All EventFits events × (length (encoded events) < 2 ^ 32)) result }
{
    let (events, length) = whole_prefix(alloc, content)?;
    if length != content.len() as u64 {
        return Ok(None);
    }
    if !fits_every_output(&events) {
        return Err(Memory);
    }
    Ok(Some(events))
}

/// Returns a text without a reply.
fn text(
    alloc: Global,
    form: PayloadForm,
    tag: &[u8],
    content: &mut Content,
    is_shared: bool,
) -> Result<Option<Parcel>, Memory>
    ensures text { MadeOf content.old (λ events parcel. SendsAndJudges (without_reply (payload_of form tag.now events)) parcel.payload parcel.reader) result }
    ensures same { content.new ≡ content.old }
{
    match content.text(alloc, form, tag, is_shared)? {
        Some(payload) => Ok(Some(Parcel {
            payload,
            reader: Reader::End(EndReader::Quiet),
        })),
        None => Ok(None),
    }
}

/// Returns a forward message, which asks for an acknowledgement if one is wanted.
fn message_with(
    alloc: Global,
    ack: bool,
    whole_time: bool,
    tag: &[u8],
    chunk: ChunkId,
    output: OutputId,
    events: &Events,
) -> Result<Parcel, Memory>
    requires fits { All EventFits events.now }
    requires tag { length tag.now < 2 ^ 32 }
    requires size { length (encoded events.now) < 2 ^ 32 }
    ensures { IfOk result (λ parcel. SendsAndJudges (message_to ack whole_time tag.now (route chunk.0 output.0) events.now) parcel.payload parcel.reader) }
{
    entries_are_short();
    if ack {
        let id = chunk_id(alloc, chunk, output)?;
        let payload = write_forward(alloc, tag, events, Some(id.as_slice()), whole_time)?;
        Ok(Parcel {
            payload,
            reader: Reader::End(EndReader::Ack { id }),
        })
    } else {
        Ok(Parcel {
            payload: write_forward(alloc, tag, events, None, whole_time)?,
            reader: Reader::End(EndReader::Quiet),
        })
    }
}

/// Returns the forward message of the events that a content encodes.
fn message(
    alloc: Global,
    ack: bool,
    whole_time: bool,
    tag: &[u8],
    chunk: ChunkId,
    output: OutputId,
    content: &[u8],
) -> Result<Option<Parcel>, Memory>
    requires { length tag.now < 2 ^ 32 }
    ensures { MadeOf content.now (λ events parcel. SendsAndJudges (message_to ack whole_time tag.now (route chunk.0 output.0) events) parcel.payload parcel.reader) result }
{
    let Some(events) = events_of(alloc, content)? else {
        return Ok(None);
    };
    let parcel = message_with(alloc, ack, whole_time, tag, chunk, output, &events)?;
    Ok(Some(parcel))
}

/// Returns the HTTP request for the events that a content encodes, and the reader of its reply.
fn request(
    alloc: Global,
    host: &[u8],
    port: u16,
    uri: &[u8],
    form: PayloadForm,
    options: &HttpOptions,
    tag: &[u8],
    content: &mut Content,
    is_shared: bool,
) -> Result<Option<Parcel>, Memory>
    ensures request { MadeOf content.old (λ events parcel. SendsAndJudges (request_to options.now (http_request host.now port uri.now form.form options.now.fields (payload_of form tag.now events))) parcel.payload parcel.reader) result }
    ensures same { content.new ≡ content.old }
{
    match content.text(alloc, form, tag, is_shared)? {
        Some(body) => Ok(Some(Parcel {
            payload: request_of(
                alloc,
                host,
                port,
                uri,
                form.form,
                options.fields.as_slice(),
                body.as_slice(),
            )?,
            reader: Reader::Http(HttpReader::new(alloc, options.retried.as_slice())?),
        })),
        None => Ok(None),
    }
}

/// Returns the payload for an output of this kind, and the reader of its reply.
fn pack(
    alloc: Global,
    kind: &OutputKind,
    tag: &[u8],
    chunk: ChunkId,
    output: OutputId,
    content: &mut Content,
    is_shared: bool,
) -> Result<Option<Parcel>, Memory>
    requires { length tag.now < 2 ^ 32 }
    ensures parcel { MadeOf content.old (λ events parcel. SendsAndJudges (delivery_to kind.now tag.now (route chunk.0 output.0) events) parcel.payload parcel.reader) result }
    ensures same { content.new ≡ content.old }
{
    match kind {
        OutputKind::Stdout { form }
        | OutputKind::File { form, .. }
        | OutputKind::Tcp { form, .. } => text(alloc, *form, tag, content, is_shared),
        OutputKind::Forward {
            ack,
            whole_time,
            ..
        } => message(
            alloc,
            *ack,
            *whole_time,
            tag,
            chunk,
            output,
            content.as_slice(),
        ),
        OutputKind::Http {
            host,
            port,
            uri,
            form,
            options,
        } => request(
            alloc,
            host.as_slice(),
            *port,
            uri.as_slice(),
            *form,
            options,
            tag,
            content,
            is_shared,
        ),
    }
}

/// Returns a flush, not started, that sends the events of a chunk's content to an output of this kind;
/// `None` if the content isn't a list of events. If it is shared, a text is made once for all outputs with
/// the same format. A forward message of 2^32 bytes or more answers out of memory.
pub fn deliver(
    alloc: Global,
    kind: &OutputKind,
    tag: &[u8],
    chunk: ChunkId,
    output: OutputId,
    content: &mut Content,
    is_shared: bool,
) -> Result<Option<Flush<Reader>>, Memory>
    requires { length tag.now < 2 ^ 32 }
    ensures flush { MadeOf content.old (λ events flush. IsFlushTo (delivery_to kind.now tag.now (route chunk.0 output.0) events) output flush) result }
    ensures same { content.new ≡ content.old }
{
    match pack(alloc, kind, tag, chunk, output, content, is_shared)? {
        Some(Parcel { payload, reader }) => Ok(Some(Flush::new(alloc, output, payload, reader))),
        None => Ok(None),
    }
}
