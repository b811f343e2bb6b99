//! Writing of messages in the mode PackedForward.

ghost use Rattle.std.specs.Prelude.{◌≡◌, ◌<◌, ◌^◌, ◌++◌, All, ◌∷◌, [], length, option_map, IfOk, IfSome, OnOk};
ghost use Rattle.std.specs.Int.{w32, to_be_bytes};
ghost use Rattle.fwd_value.specs.View.{val_of};
ghost use Rattle.fwd_value.specs.Val.{text, bin, mapping, entries_of};
ghost use Rattle.fwd_msgpack.specs.Canonical.{canonical};
ghost use Rattle.fwd_event.specs.Event.{EventFits};
ghost use Rattle.fwd_wire.specs.Encode.{time_val, entry_val, entry_bytes, option_val, forward_payload};

use fwd_base::{Bytes, Memory};
use fwd_event::{Event, Events};
use fwd_msgpack::{Pairs, Value, encode, encode_map};
use std::alloc::Global;

/// Appends seconds and nanoseconds as an EventTime.
fn put_event_time(sec: u32, nsec: u32, out: &mut Bytes) -> Result<(), Memory>
    ensures { OnOk result (out.new ≡ out.old ++ 215 ∷ 0 ∷ (to_be_bytes w32 sec ++ to_be_bytes w32 nsec)) }
{
    let [a, b, c, d] = sec.to_be_bytes();
    let [e, f, g, h] = nsec.to_be_bytes();
    out.extend_from_slice([0xd7, 0x00, a, b, c, d, e, f, g, h].as_slice())
}

/// Appends the time of an event.
fn put_time(event: &Event, whole_time: bool, out: &mut Bytes) -> Result<(), Memory>
    ensures { OnOk result (out.new ≡ out.old ++ canonical (time_val whole_time event.now)) }
{
    if whole_time {
        return encode(&Value::Uint(event.sec as u64), out);
    }
    put_event_time(event.sec, event.nsec, out)
}

/// Appends the entry of an event: a list of its time and its record.
fn put_entry(event: &Event, whole_time: bool, out: &mut Bytes) -> Result<(), Memory>
    requires { EventFits event.now }
    ensures { OnOk result (out.new ≡ out.old ++ canonical (entry_val whole_time event.now)) }
{
    out.push(0x92)?;
    put_time(event, whole_time, out)?;
    encode_map(&event.body, out)
}

/// Returns the entries of events, one after another.
fn entries(alloc: Global, events: &Events, whole_time: bool) -> Result<Bytes, Memory>
    requires { All EventFits events.now }
    ensures { IfOk result (λ bytes. bytes ≡ entry_bytes whole_time events.now) }
{
    let mut bytes = Bytes::new(alloc);
    for event in events.as_slice() {
        put_entry(event, whole_time, &mut bytes)?;
    }
    Ok(bytes)
}

/// Appends the pair of a key and a value.
fn put_pair(alloc: Global, option: &mut Pairs, key: &[u8], value: Value) -> Result<(), Memory>
    ensures { OnOk result (option.new ≡ option.old ++ (text key.now, val_of value) ∷ []) }
{
    let key = Value::Text(Bytes::from_slice(alloc, key)?);
    option.push((key, value))
}

/// Returns the option: the number of events, and the chunk if an acknowledgement is asked for.
fn option(alloc: Global, size: usize, id: Option<&[u8]>) -> Result<Pairs, Memory>
    ensures { IfOk result (λ option. mapping (entries_of option)
        ≡ option_val size (option_map (λ chunk. chunk.now) id.entry)) }
{
    let mut option = Pairs::new(alloc);
    put_pair(alloc, &mut option, b"size", Value::Uint(size as u64))?;
    if let Some(id) = id {
        let chunk = Value::Text(Bytes::from_slice(alloc, id)?);
        put_pair(alloc, &mut option, b"chunk", chunk)?;
    }
    Ok(option)
}

/// Returns the message of events of a tag. The chunk is the one to acknowledge; with `whole_time`, times
/// are whole seconds.
pub fn write_forward(
    alloc: Global,
    tag: &[u8],
    events: &Events,
    id: Option<&[u8]>,
    whole_time: bool,
) -> Result<Bytes, Memory>
    requires events { All EventFits events.now }
    requires tag { length tag.now < 2 ^ 32 }
    requires id { IfSome id (λ chunk. length chunk.now < 2 ^ 32) }
    requires bin { length (entry_bytes whole_time events.now) < 2 ^ 32 }
    ensures { IfOk result (λ bytes. bytes
        ≡ forward_payload tag.now events.now (option_map (λ chunk. chunk.now) id.entry) whole_time) }
{
    let entries = entries(alloc, events, whole_time)?;
    let mut out = Bytes::from_slice(alloc, b"\x93")?;
    put_text(alloc, tag, &mut out)?;
    put_bin(entries, &mut out)?;
    put_option(alloc, events.len(), id, &mut out)?;
    Ok(out)
}

/// Appends a text.
fn put_text(alloc: Global, bytes: &[u8], out: &mut Bytes) -> Result<(), Memory>
    requires { length bytes.now < 2 ^ 32 }
    ensures { OnOk result (out.new ≡ out.old ++ canonical (text bytes.now)) }
{
    encode(&Value::Text(Bytes::from_slice(alloc, bytes)?), out)
}

/// Appends a bin.
fn put_bin(bytes: Bytes, out: &mut Bytes) -> Result<(), Memory>
    requires { length bytes < 2 ^ 32 }
    ensures { OnOk result (out.new ≡ out.old ++ canonical (bin bytes)) }
{
    encode(&Value::Bin(bytes), out)
}

/// Appends the option.
fn put_option(alloc: Global, size: usize, id: Option<&[u8]>, out: &mut Bytes) -> Result<(), Memory>
    requires { IfSome id (λ chunk. length chunk.now < 2 ^ 32) }
    ensures { OnOk result (out.new
        ≡ out.old ++ canonical (option_val size (option_map (λ chunk. chunk.now) id.entry))) }
{
    let option = option(alloc, size, id)?;
    encode_map(&option, out)
}
