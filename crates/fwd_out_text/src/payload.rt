//! The payload of decoded events.

ghost use Rattle.std.specs.Prelude.{◌≡◌, ◌++◌, All, IfOk, OnOk};
ghost use Rattle.fwd_base.specs.declared.output_options.Form.TheVariants.{MsgPack};
ghost use Rattle.fwd_event.specs.Event.{EventFits};
ghost use Rattle.fwd_out_text.specs.Payload.{record_of, payload_of};

use crate::record_text::{write_json_line, write_tagged_line};
use fwd_base::{Bytes, Form, Memory};
use fwd_event::{Event, Events, write_event};
use fwd_json::PayloadForm;
use std::alloc::Global;

/// Returns the payload of the events of a tag, in a format. As MessagePack it requires events that can be
/// encoded. The program doesn't use it (it has encoded events and asks `payload_of_content`): it is for
/// callers that have decoded ones.
pub fn payload_text(
    alloc: Global,
    form: PayloadForm,
    tag: &[u8],
    events: &Events,
) -> Result<Bytes, Memory>
    requires { form.form ≡ MsgPack → All EventFits events.now }
    ensures { IfOk result (λ payload. payload ≡ payload_of form tag.now events.now) }
{
    let mut payload = Bytes::new(alloc);
    for event in events.as_slice() {
        write_record(alloc, form, tag, event, &mut payload)?;
    }
    Ok(payload)
}

/// Appends the text of one event.
pub fn write_record(
    alloc: Global,
    form: PayloadForm,
    tag: &[u8],
    event: &Event,
    out: &mut Bytes,
) -> Result<(), Memory>
    requires { form.form ≡ MsgPack → EventFits event.now }
    ensures { OnOk result (out.new ≡ out.old ++ record_of form tag.now event.now) }
{
    match form.form {
        Form::JsonLines => write_json_line(alloc, event, form.floats, out),
        Form::OutFile => write_tagged_line(alloc, tag, event, form.floats, out),
        Form::MsgPack => write_event(event, out),
    }
}
