//! The parts of a message, read where they are: its tag, its events and its option.

ghost use Rattle.std.specs.Prelude.{◌+◌, ◌-◌, option_map, IfOk, IfSome};
ghost use Rattle.fwd_value.specs.Keys.{Record};
ghost use Rattle.fwd_value.specs.View.{val_of};
ghost use Rattle.fwd_in_forward.specs.EncodedParts.{StartsWithTag, StartsWithHead, CopiesEvents, StartsWithOption, IsOption, AsksFor};

use fwd_base::limits::DEEPEST;
use fwd_base::{Bytes, Memory};
use fwd_msgpack::{DecodeErr, decode, list_head, split_bytes};
use fwd_transcode::{transcode_entries, transcode_packed, transcode_single};
use fwd_wire::{Pairs, Value, chunk_of, is_plain, is_tag};
use std::alloc::Global;

/// How deep a member of an option may be nested: the message and the option are two levels.
const MEMBER_DEPTH: u64 = DEEPEST as u64 - 2;

/// Events of a message that were copied: their number, how many members the message has after them, and the
/// bytes after them.
#[derive(Drop)]
pub struct CopiedEvents<'b> {
    pub count: usize,
    pub members: usize,
    pub rest: &'b [u8],
}

/// The chunk that a message asks to acknowledge, and the length of its option in bytes.
#[derive(Drop)]
pub struct Acknowledgement {
    pub chunk: Option<Value>,
    pub length: usize,
}

/// Returns how many members the list that the bytes start with has after its first two, the tag that its
/// first one is, and the bytes from the second one on.
pub fn split_head(bytes: &[u8]) -> Option<(usize, &[u8], &[u8])>
    ensures { IfSome result (λ x. StartsWithHead x.0 x.1.now x.2.now bytes.now) }
{
    let (values, behind) = list_head(bytes)?;
    let members = values.checked_sub(2)?;
    let (tag, rest) = split_tag(behind)?;
    Some((members, tag, rest))
}

/// Returns the tag that the bytes start with, and the bytes after it.
fn split_tag(bytes: &[u8]) -> Option<(&[u8], &[u8])>
    ensures { IfSome result (λ x. StartsWithTag x.0.now x.1.now bytes.now) }
{
    let (tag, rest) = split_bytes(bytes)?;
    if is_tag(tag) { Some((tag, rest)) } else { None }
}

/// Appends the stored encodings of the events that the bytes start with, of a message that has `members`
/// members after its first two; the bytes are those from the second one on. `None` unless the events can be
/// copied; `out` may then end in some of them.
pub fn copy_events<'b>(
    members: usize,
    bytes: &'b [u8],
    out: &mut Bytes,
) -> Result<Option<CopiedEvents<'b>>, Memory>
    ensures { IfOk result (λ found. IfSome found (λ x.
        CopiesEvents x.count (members + 1 - x.members) x.rest.now bytes.now out.old out.new)) }
{
    match list_head(bytes) {
        Some((count, entries)) => match transcode_entries(count, entries, out)? {
            Some(rest) => Ok(Some(CopiedEvents {
                count,
                members,
                rest,
            })),
            None => Ok(None),
        },
        None => copy_unlisted(members, bytes, out),
    }
}

/// The same of events that aren't in a list.
fn copy_unlisted<'b>(
    members: usize,
    bytes: &'b [u8],
    out: &mut Bytes,
) -> Result<Option<CopiedEvents<'b>>, Memory>
    ensures { IfOk result (λ found. IfSome found (λ x.
        CopiesEvents x.count (members + 1 - x.members) x.rest.now bytes.now out.old out.new)) }
{
    match split_bytes(bytes) {
        Some((content, rest)) => match transcode_packed(content, out)? {
            Some(count) => Ok(Some(CopiedEvents {
                count,
                members,
                rest,
            })),
            None => Ok(None),
        },
        None => copy_single(members, bytes, out),
    }
}

/// The same of one event, whose time and record are members of the message.
fn copy_single<'b>(
    members: usize,
    bytes: &'b [u8],
    out: &mut Bytes,
) -> Result<Option<CopiedEvents<'b>>, Memory>
    ensures { IfOk result (λ found. IfSome found (λ x.
        CopiesEvents x.count (members + 1 - x.members) x.rest.now bytes.now out.old out.new)) }
{
    let Some(members) = members.checked_sub(1) else {
        return Ok(None);
    };
    match transcode_single(bytes, out)? {
        Some(rest) => Ok(Some(CopiedEvents {
            count: 1,
            members,
            rest,
        })),
        None => Ok(None),
    }
}

/// Reads the members of a message after its events. `None` unless they are at most one option, which is
/// whole and doesn't say that the entries are compressed.
pub fn read_acknowledgement(
    alloc: Global,
    members: usize,
    bytes: &[u8],
) -> Result<Option<Acknowledgement>, Memory>
    ensures { IfOk result (λ found. IfSome found (λ x. (option : Record)
        × StartsWithOption members option x.length bytes.now
        × AsksFor (option_map val_of x.chunk) option)) }
{
    let Some((option, length)) = read_option(alloc, members, bytes)? else {
        return Ok(None);
    };
    if !is_plain(alloc, &option)? {
        return Ok(None);
    }
    let chunk = chunk_of(alloc, option)?;
    Ok(Some(Acknowledgement { chunk, length }))
}

/// Returns the members of a message after its events as an option, and their length in bytes. `None` unless
/// they are at most one map or nil that is whole.
fn read_option(
    alloc: Global,
    members: usize,
    bytes: &[u8],
) -> Result<Option<(Pairs, usize)>, Memory>
    ensures { IfOk result (λ found. IfSome found (λ x. StartsWithOption members x.0 x.1 bytes.now)) }
{
    match members {
        0 => Ok(Some((Pairs::new(alloc), 0))),
        1 => decode_option(alloc, bytes),
        _ => Ok(None),
    }
}

/// Decodes the option that the bytes start with, and returns it with its length in bytes.
fn decode_option(alloc: Global, bytes: &[u8]) -> Result<Option<(Pairs, usize)>, Memory>
    ensures { IfOk result (λ found. IfSome found (λ x. StartsWithOption 1 x.0 x.1 bytes.now)) }
{
    match decode(alloc, bytes) {
        Ok((value, length)) => match option_of(alloc, value) {
            Some(option) => Ok(Some((option, length as usize))),
            None => Ok(None),
        },
        Err(DecodeErr::Memory) => Err(Memory),
        Err(DecodeErr::Short) => Ok(None),
        Err(DecodeErr::Unused { .. }) => Ok(None),
        Err(DecodeErr::TooDeep { .. }) => Ok(None),
    }
}

/// Returns the option that a value is in a message.
fn option_of(alloc: Global, value: Value) -> Option<Pairs>
    ensures { IfSome result (IsOption (val_of value)) }
{
    match value {
        Value::Nil => Some(Pairs::new(alloc)),
        Value::Map(pairs) => {
            if pairs.nest_within(MEMBER_DEPTH) {
                Some(pairs)
            } else {
                None
            }
        }
        Value::Truth(_)
        | Value::Uint(_)
        | Value::Neg(_)
        | Value::Text(_)
        | Value::Bin(_)
        | Value::Float32(_)
        | Value::Float64(_)
        | Value::Ext(_, _)
        | Value::List(_) => None,
    }
}
