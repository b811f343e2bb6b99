//! Writes lines of text directly from encoded events, whose records are never decoded as a whole.

ghost use Rattle.std.specs.Prelude.{◌≡◌, ◌++◌, IfOk, IfSome, OnOk, None};
ghost use Rattle.fwd_msgpack.specs.KeptFront.{KeepsFront};
ghost use Rattle.fwd_event.specs.declared.event.Event.{Event};
ghost use Rattle.fwd_out_text.specs.FirstEvent.{StartsWithEvent};
ghost use Rattle.fwd_out_text.specs.Payload.{json_line, tagged_line, record_of};

use crate::encoded_value::{write_map, write_more_pairs};
use crate::header::event_head;
use crate::record_text::{write_date, write_tag};
use fwd_base::limits::DEEPEST;
use fwd_base::{Bytes, Form, Memory};
use fwd_json::{Floats, PayloadForm};
use std::alloc::Global;

/// The depth limit of a value in a record: the event and the record are two levels.
const MEMBER_DEPTH: u32 = DEEPEST - 2;

/// Appends the text of the event that the bytes start with, and returns its encoded length. Returns `None`
/// and appends nothing if the format isn't text, or if the event isn't in the encoding that this program
/// writes, has metadata, or has a key that isn't a text.
pub fn write_encoded(
    alloc: Global,
    form: PayloadForm,
    tag: &[u8],
    bytes: &[u8],
    out: &mut Bytes,
) -> Result<Option<usize>, Memory>
    ensures given { IfOk result (λ found. IfSome found (λ n. (e : Event) × StartsWithEvent e n bytes.now × (out.new ≡ out.old ++ record_of form tag.now e))) }
    ensures none { IfOk result (λ found. found ≡ None → out.new ≡ out.old) }
{
    let start = out.len();
    let found = write_partial(alloc, form, tag, bytes, out)?;
    if found.is_none() {
        out.truncate(start);
    }
    Ok(found)
}

/// The same, but `out` may end in an unfinished line if this returns `None`.
fn write_partial(
    alloc: Global,
    form: PayloadForm,
    tag: &[u8],
    bytes: &[u8],
    out: &mut Bytes,
) -> Result<Option<usize>, Memory>
    ensures given { IfOk result (λ found. IfSome found (λ n. (e : Event) × StartsWithEvent e n bytes.now × (out.new ≡ out.old ++ record_of form tag.now e))) }
    ensures kept { OnOk result (KeepsFront out.old out.new) }
{
    match form.form {
        Form::JsonLines => write_line(alloc, bytes, form.floats, out),
        Form::OutFile => write_tagged(alloc, tag, bytes, form.floats, out),
        Form::MsgPack => Ok(None),
    }
}

/// Appends the JSON line of the event that the bytes start with, and returns its encoded length.
fn write_line(
    alloc: Global,
    bytes: &[u8],
    floats: Floats,
    out: &mut Bytes,
) -> Result<Option<usize>, Memory>
    ensures given { IfOk result (λ found. IfSome found (λ n. (e : Event) × StartsWithEvent e n bytes.now × (out.new ≡ out.old ++ json_line floats e))) }
    ensures kept { OnOk result (KeepsFront out.old out.new) }
{
    let Some((sec, nsec, count, pairs)) = event_head(bytes) else {
        return Ok(None);
    };
    write_date(sec, nsec, out)?;
    match write_more_pairs(alloc, count, pairs, MEMBER_DEPTH, floats, out)? {
        Some(rest) => {
            out.extend_from_slice(b"}\n")?;
            Ok(Some(bytes.len() - rest.len()))
        }
        None => Ok(None),
    }
}

/// Appends the tagged line of the event that the bytes start with, and returns its encoded length.
fn write_tagged(
    alloc: Global,
    tag: &[u8],
    bytes: &[u8],
    floats: Floats,
    out: &mut Bytes,
) -> Result<Option<usize>, Memory>
    ensures given { IfOk result (λ found. IfSome found (λ n. (e : Event) × StartsWithEvent e n bytes.now × (out.new ≡ out.old ++ tagged_line floats tag.now e))) }
    ensures kept { OnOk result (KeepsFront out.old out.new) }
{
    let Some((sec, nsec, count, pairs)) = event_head(bytes) else {
        return Ok(None);
    };
    write_tag(tag, sec, nsec, out)?;
    match write_map(alloc, count, pairs, MEMBER_DEPTH, floats, out)? {
        Some(rest) => {
            out.extend_from_slice(b"]\n")?;
            Ok(Some(bytes.len() - rest.len()))
        }
        None => Ok(None),
    }
}
