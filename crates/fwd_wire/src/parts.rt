//! The parts of a message: its tag, what it carries and its option.

ghost use Rattle.std.specs.Prelude.{◌≡◌, Some, option_map, IfOk};
ghost use Rattle.fwd_value.specs.Val.{text, list, vals_of};
ghost use Rattle.fwd_value.specs.View.{val_of};
ghost use Rattle.fwd_wire.specs.Message.{is_tag, tag_of, option_of, is_plain, option_value, chunk_key, text_word, tagged_by, with_option, with_time, in_mode, parts_of, CarriedSays, PlainSays, PartsSay, MessageSays};
ghost use Rattle.fwd_wire.specs.Representation.{carried_of, bytes_read, CarriesExactly, GivesVerdict};
ghost use Rattle.fwd_wire.specs.declared.message.Message.TheVariants.{Batch as batch_of};
ghost use Rattle.fwd_value.specs.Keys.{is_text};

use crate::events::{events_of_values, single, unpack_events};
use crate::{Message, WireErr};
use fwd_base::limits::LONGEST_TAG;
use fwd_base::{Bytes, Memory, is_utf8};
use fwd_event::Events;
use fwd_msgpack::{Pairs, Value, Values};
use fwd_value::{index_of, is_text, value_of};
use std::alloc::Global;

/// The error of a whole value that isn't a message.
const NO_MESSAGE: WireErr = WireErr::NotAMessage { at: 0 };

/// The events of a message, not yet read: the time and the record of one event, events in a list, or the
/// bytes of events.
#[derive(Drop)]
pub enum Carried {
    One(Value, Value),
    Many(Values),
    Packed(Bytes),
}

/// Returns the carried events, if they are events.
fn events_in(alloc: Global, carried: Carried) -> Result<Option<Events>, Memory>
    ensures { IfOk result (λ events. CarriesExactly (carried_of carried) events) }
{
    match carried {
        Carried::One(time, body) => single(alloc, time, body),
        Carried::Many(values) => events_of_values(alloc, values),
        Carried::Packed(bytes) => unpack_events(alloc, bytes.as_slice()),
    }
}

/// Returns whether bytes may be a tag: a text of 1 to 1,024 bytes.
pub fn is_tag(bytes: &[u8]) -> bool
    ensures { result ≡ is_tag bytes.now }
{
    0 < bytes.len() && bytes.len() <= LONGEST_TAG && is_utf8(bytes)
}

/// Returns the bytes, if they may be a tag.
fn checked_tag(bytes: &[u8]) -> Option<&[u8]>
    ensures { bytes_read result ≡ tag_of (text bytes.now) }
{
    if is_tag(bytes) { Some(bytes) } else { None }
}

/// Returns the tag that a value is.
fn tag_of(value: &Value) -> Option<&[u8]>
    ensures { bytes_read result ≡ tag_of (val_of value.now) }
{
    match value {
        Value::Text(bytes) | Value::Bin(bytes) => checked_tag(bytes.as_slice()),
        Value::Nil
        | Value::Truth(_)
        | Value::Uint(_)
        | Value::Neg(_)
        | Value::Float32(_)
        | Value::Float64(_)
        | Value::Ext(_, _)
        | Value::List(_)
        | Value::Map(_) => None,
    }
}

/// Returns whether the option of a message says that its entries aren't compressed: it has no `compressed`, or
/// the text `text` there.
pub fn is_plain(alloc: Global, option: &Pairs) -> Result<bool, Memory>
    ensures { IfOk result (λ plain. plain ≡ is_plain option.now) }
{
    let key = Bytes::from_slice(alloc, b"compressed")?;
    match value_of(option, &key) {
        Some(value) => is_word(alloc, value),
        None => Ok(true),
    }
}

/// Returns whether a value is the text `text`.
fn is_word(alloc: Global, value: &Value) -> Result<bool, Memory>
    ensures { IfOk result (λ is. is ≡ is_text text_word (val_of value.now)) }
{
    let word = Bytes::from_slice(alloc, b"text")?;
    Ok(is_text(value, &word))
}

/// Returns the chunk that the option of a message asks to acknowledge, if it does.
pub fn chunk_of(alloc: Global, mut option: Pairs) -> Result<Option<Value>, Memory>
    ensures { IfOk result (λ chunk. option_map val_of chunk ≡ option_value option chunk_key) }
{
    let key = Bytes::from_slice(alloc, b"chunk")?;
    match index_of(&option, &key) {
        Some(place) => {
            let (_, chunk) = option.remove(place);
            Ok(Some(chunk))
        }
        None => Ok(None),
    }
}

/// Returns the batch of these events.
fn batch(alloc: Global, tag: &[u8], events: Events, chunk: Option<Value>) -> Result<Message, Memory>
    ensures { IfOk result (λ message. message ≡ batch_of tag.now events chunk) }
{
    Ok(Message::Batch {
        tag: Bytes::from_slice(alloc, tag)?,
        events,
        chunk,
    })
}

/// Returns the batch of the carried events.
fn carried_batch(
    alloc: Global,
    tag: &[u8],
    carried: Carried,
    chunk: Option<Value>,
) -> Result<Message, WireErr>
    ensures { GivesVerdict (CarriedSays tag.now (option_map val_of chunk) (carried_of carried)) result }
{
    match events_in(alloc, carried)? {
        Some(events) => Ok(batch(alloc, tag, events, chunk)?),
        None => Err(NO_MESSAGE),
    }
}

/// Returns the batch of the carried events, unless they are compressed.
fn plain_batch(
    alloc: Global,
    tag: &[u8],
    carried: Carried,
    option: Pairs,
) -> Result<Message, WireErr>
    ensures { GivesVerdict
        (PlainSays (is_plain option) tag.now (option_value option chunk_key) (carried_of carried)) result }
{
    if !is_plain(alloc, &option)? {
        return Err(WireErr::Compressed);
    }
    let chunk = chunk_of(alloc, option)?;
    carried_batch(alloc, tag, carried, chunk)
}

/// Returns the message of a tag, carried events and an option.
fn tagged_message(
    alloc: Global,
    tag: &Value,
    carried: Carried,
    option: Pairs,
) -> Result<Message, WireErr>
    ensures { GivesVerdict
        (PartsSay (tagged_by (tag_of (val_of tag.now)) (Some option) (carried_of carried))) result }
{
    let Some(tag) = tag_of(tag) else {
        return Err(NO_MESSAGE);
    };
    plain_batch(alloc, tag, carried, option)
}

/// Returns the message of a tag, carried events and a value that must be their option.
#[tactic(auto, using(fwd_event::proofs::EventParts::pairs_back))]
fn message_with_option(
    alloc: Global,
    tag: &Value,
    carried: Carried,
    option: Value,
) -> Result<Message, WireErr>
    ensures { GivesVerdict
        (PartsSay (tagged_by (tag_of (val_of tag.now)) (option_of (val_of option)) (carried_of carried)))
        result }
{
    match option {
        Value::Nil => tagged_message(alloc, tag, carried, Pairs::new(alloc)),
        Value::Map(pairs) => tagged_message(alloc, tag, carried, pairs),
        Value::Truth(_)
        | Value::Uint(_)
        | Value::Neg(_)
        | Value::Text(_)
        | Value::Bin(_)
        | Value::Float32(_)
        | Value::Float64(_)
        | Value::Ext(_, _)
        | Value::List(_) => Err(NO_MESSAGE),
    }
}

/// Returns the message of a tag, carried events and at most one option after them.
fn with_option(
    alloc: Global,
    tag: &Value,
    carried: Carried,
    mut behind: Values,
) -> Result<Message, WireErr>
    ensures { GivesVerdict
        (PartsSay (with_option (val_of tag.now) (carried_of carried) (vals_of behind))) result }
{
    if 1 < behind.len() {
        return Err(NO_MESSAGE);
    }
    match behind.pop() {
        Some(option) => message_with_option(alloc, tag, carried, option),
        None => tagged_message(alloc, tag, carried, Pairs::new(alloc)),
    }
}

/// Returns the message of a tag and a time, with a record and at most one option after them.
fn with_time(
    alloc: Global,
    tag: &Value,
    time: Value,
    mut behind: Values,
) -> Result<Message, WireErr>
    ensures { GivesVerdict (PartsSay (with_time (val_of tag.now) (val_of time) (vals_of behind))) result }
{
    if behind.is_empty() {
        return Err(NO_MESSAGE);
    }
    let body = behind.remove(0);
    with_option(alloc, tag, Carried::One(time, body), behind)
}

/// Returns the message of a tag, a second member, which decides the mode, and the members after them.
fn in_mode(alloc: Global, tag: &Value, second: Value, behind: Values) -> Result<Message, WireErr>
    ensures { GivesVerdict (PartsSay (in_mode (val_of tag.now) (val_of second) (vals_of behind))) result }
{
    match second {
        Value::List(entries) => with_option(alloc, tag, Carried::Many(entries), behind),
        Value::Text(bytes) => with_option(alloc, tag, Carried::Packed(bytes), behind),
        Value::Bin(bytes) => with_option(alloc, tag, Carried::Packed(bytes), behind),
        time => with_time(alloc, tag, time, behind),
    }
}

/// Returns the message of the members of a list.
fn members(alloc: Global, mut values: Values) -> Result<Message, WireErr>
    ensures { GivesVerdict (PartsSay (parts_of (list (vals_of values)))) result }
{
    if values.len() < 2 {
        return Err(NO_MESSAGE);
    }
    let second = values.remove(1);
    let tag = values.remove(0);
    in_mode(alloc, &tag, second, values)
}

/// Returns the message that a value is. Consumes the value: the carried events aren't copied.
pub fn message_of(alloc: Global, value: Value) -> Result<Message, WireErr>
    ensures { GivesVerdict (MessageSays (val_of value)) result }
{
    match value {
        Value::Nil => Ok(Message::Nothing),
        Value::List(values) => members(alloc, values),
        Value::Truth(_)
        | Value::Uint(_)
        | Value::Neg(_)
        | Value::Text(_)
        | Value::Bin(_)
        | Value::Float32(_)
        | Value::Float64(_)
        | Value::Ext(_, _)
        | Value::Map(_) => Err(NO_MESSAGE),
    }
}
