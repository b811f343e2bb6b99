//! The request with a payload.

ghost use Rattle.std.specs.Prelude.{◌≡◌, ◌++◌, All, IfOk, OnOk, codes, decimal, length};
ghost use Rattle.fwd_base.specs.declared.output_options.Form.TheVariants.{MsgPack};
ghost use Rattle.fwd_event.specs.Event.{EventFits};
ghost use Rattle.fwd_out_http.specs.Request.{content_type, field, further_fields, http_head, http_payload, http_request, request_line, server};

use fwd_base::{Bytes, Form, Memory};
use fwd_event::Events;
use fwd_http::HeaderField;
use fwd_out_text::{PayloadForm, payload_text};
use itoa::Buffer;
use std::alloc::Global;

/// Returns the media type of a format.
fn content_type(form: Form) -> &'static [u8]
    ensures { result.now ≡ content_type form }
{
    match form {
        Form::JsonLines => b"application/x-ndjson",
        Form::OutFile => b"text/plain",
        Form::MsgPack => b"application/msgpack",
    }
}

/// Appends a field line of a request's head.
fn write_field(out: &mut Bytes, name: &[u8], value: &[u8]) -> Result<(), Memory>
    ensures { OnOk result (out.new ≡ out.old ++ field name.now value.now) }
{
    out.extend_from_slice(name)?;
    out.extend_from_slice(b": ")?;
    out.extend_from_slice(value)?;
    out.extend_from_slice(b"\r\n")
}

/// Appends the field line with the server's name.
fn write_host(out: &mut Bytes, host: &[u8], port: u16) -> Result<(), Memory>
    ensures { OnOk result (out.new ≡ out.old ++ field (codes "Host") (server host.now port)) }
{
    let mut buffer = Buffer::new();
    out.extend_from_slice(b"Host: ")?;
    out.extend_from_slice(host)?;
    out.push(b':')?;
    out.extend_from_slice(buffer.format(port).as_bytes())?;
    out.extend_from_slice(b"\r\n")
}

/// Appends the field line with the length of the body.
fn write_length(out: &mut Bytes, length: usize) -> Result<(), Memory>
    ensures { OnOk result (out.new ≡ out.old ++ field (codes "Content-Length") (decimal length)) }
{
    let mut buffer = Buffer::new();
    write_field(out, b"Content-Length", buffer.format(length).as_bytes())
}

/// Appends further field lines.
fn write_fields(out: &mut Bytes, fields: &[HeaderField]) -> Result<(), Memory>
    ensures { OnOk result (out.new ≡ out.old ++ further_fields fields.now) }
{
    for more in fields {
        write_field(out, more.name.as_slice(), more.value.as_slice())?;
    }
    Ok(())
}

/// Appends the request line.
fn write_request_line(out: &mut Bytes, uri: &[u8]) -> Result<(), Memory>
    ensures { OnOk result (out.new ≡ out.old ++ request_line uri.now) }
{
    out.extend_from_slice(b"POST ")?;
    out.extend_from_slice(uri)?;
    out.extend_from_slice(b" HTTP/1.1\r\n")
}

/// Returns the head of a request with further fields and a body of so many bytes.
fn head(
    alloc: Global,
    host: &[u8],
    port: u16,
    uri: &[u8],
    form: Form,
    fields: &[HeaderField],
    length: usize,
) -> Result<Bytes, Memory>
    ensures { IfOk result (λ head. head ≡ http_head host.now port uri.now form fields.now length) }
{
    let mut out = Bytes::new(alloc);
    write_request_line(&mut out, uri)?;
    write_host(&mut out, host, port)?;
    write_length(&mut out, length)?;
    write_field(&mut out, b"Content-Type", content_type(form))?;
    write_field(&mut out, b"Connection", b"close")?;
    write_fields(&mut out, fields)?;
    out.extend_from_slice(b"\r\n")?;
    Ok(out)
}

/// Returns the request (RFC 9112) with the events of a tag, in a format. It is a POST to a URI of a server,
/// with the length and type of the body and `Connection: close`; its body is the payload of `fwd_out_text`.
/// As MessagePack it requires events that can be encoded. The program doesn't use it (it has a body and asks
/// `request_of`): it is for callers that have events.
pub fn payload_http(
    alloc: Global,
    host: &[u8],
    port: u16,
    uri: &[u8],
    form: PayloadForm,
    tag: &[u8],
    events: &Events,
) -> Result<Bytes, Memory>
    requires { form.form ≡ MsgPack → All EventFits events.now }
    ensures { IfOk result (λ request. request ≡ http_payload host.now port uri.now form tag.now events.now) }
{
    let body = payload_text(alloc, form, tag, events)?;
    request_of(alloc, host, port, uri, form.form, &[], body.as_slice())
}

/// Returns the same request for a body that is already written, with further fields in its head.
pub fn request_of(
    alloc: Global,
    host: &[u8],
    port: u16,
    uri: &[u8],
    form: Form,
    fields: &[HeaderField],
    body: &[u8],
) -> Result<Bytes, Memory>
    ensures { IfOk result (λ request. request ≡ http_request host.now port uri.now form fields.now body.now) }
{
    let mut request = head(alloc, host, port, uri, form, fields, body.len())?;
    request.extend_from_slice(body)?;
    Ok(request)
}
