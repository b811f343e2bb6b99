//! The line of a file in a listing.

ghost use Rattle.std.specs.Prelude.{◌≡◌, ◌++◌, IfOk, OnOk, codes};
ghost use Rattle.std.specs.List.{flat_map};
ghost use Rattle.fwd_report.specs.Listing.{quoted, done_text, chunk_text, kind_name, seen_text, line_text, line_of};

use crate::counters::push_count;
use fwd_backlog::{Brief, ChunkKind, Found, Seen};
use fwd_base::{Bytes, Memory, Names};
use fwd_json::{Floats, Value, json_text};
use std::alloc::Global;

/// A line of the listing, with the folder and the name that order the lines.
#[derive(Debug, PartialEq, Eq, PartialOrd, Ord, Drop)]
pub struct ListingLine {
    pub stream: Bytes,
    pub name: Bytes,
    pub text: Bytes,
}

/// Appends the JSON string of a UTF-8 text.
fn push_quoted(alloc: Global, text: &mut Bytes, bytes: &[u8]) -> Result<(), Memory>
    ensures { OnOk result (text.new ≡ text.old ++ quoted bytes.now) }
{
    let value = Value::Text(Bytes::from_slice(alloc, bytes)?);
    json_text(alloc, &value, Floats::Tagged, text)?;
    Ok(())
}

fn push_output(alloc: Global, text: &mut Bytes, name: &[u8]) -> Result<(), Memory>
    ensures { OnOk result (text.new ≡ text.old ++ done_text name.now) }
{
    text.extend_from_slice(b" done ")?;
    push_quoted(alloc, text, name)
}

/// Appends the outputs with a recorded outcome.
fn push_done(alloc: Global, text: &mut Bytes, done: &Names) -> Result<(), Memory>
    ensures { OnOk result (text.new ≡ text.old ++ flat_map done_text done.now) }
{
    for name in done.as_slice() {
        push_output(alloc, text, name.as_slice())?;
    }
    Ok(())
}

fn push_chunk(alloc: Global, text: &mut Bytes, brief: &Brief) -> Result<(), Memory>
    ensures { OnOk result (text.new ≡ text.old ++ chunk_text brief.now) }
{
    text.extend_from_slice(b" chunk ")?;
    push_quoted(alloc, text, brief.tag.as_slice())?;
    push_count(text, b" events ", brief.events)?;
    push_count(text, b" bytes ", brief.size)?;
    push_count(text, b" torn ", brief.torn)?;
    push_done(alloc, text, &brief.done)
}

fn kind_name(kind: ChunkKind) -> &'static [u8]
    ensures { result.now ≡ kind_name kind }
{
    match kind {
        ChunkKind::TooShort => b"TooShort",
        ChunkKind::BadId => b"BadId",
        ChunkKind::BadLength => b"BadLength",
        ChunkKind::NotLogs => b"NotLogs",
        ChunkKind::BadOutputs => b"BadOutputs",
        ChunkKind::NotUtf8Tag => b"NotUtf8Tag",
        ChunkKind::BadEvents => b"BadEvents",
        ChunkKind::TooLong => b"TooLong",
    }
}

fn push_refusal(text: &mut Bytes, kind: ChunkKind) -> Result<(), Memory>
    ensures { OnOk result (text.new ≡ text.old ++ (codes " refused " ++ kind_name kind)) }
{
    text.extend_from_slice(b" refused ")?;
    text.extend_from_slice(kind_name(kind))
}

fn push_seen(alloc: Global, text: &mut Bytes, seen: &Seen) -> Result<(), Memory>
    ensures { OnOk result (text.new ≡ text.old ++ seen_text seen.now) }
{
    match seen {
        Seen::Whole(brief) => push_chunk(alloc, text, brief),
        Seen::Empty(brief) => push_chunk(alloc, text, brief),
        Seen::Refused(kind) => push_refusal(text, *kind),
    }
}

fn push_line(alloc: Global, text: &mut Bytes, file: &Found) -> Result<(), Memory>
    ensures { OnOk result (text.new ≡ text.old ++ line_text file.now) }
{
    text.extend_from_slice(file.stream.as_slice())?;
    text.push(b'/')?;
    text.extend_from_slice(file.name.as_slice())?;
    push_seen(alloc, text, &file.seen)?;
    text.push(b'\n')
}

fn line_text(alloc: Global, file: &Found) -> Result<Bytes, Memory>
    ensures { IfOk result (λ text. text ≡ line_text file.now) }
{
    let mut text = Bytes::new(alloc);
    push_line(alloc, &mut text, file)?;
    Ok(text)
}

/// Returns the line of a recovered file.
pub fn line_of(alloc: Global, file: &Found) -> Result<ListingLine, Memory>
    ensures { IfOk result (λ line. line ≡ line_of file.now) }
{
    Ok(ListingLine {
        stream: Bytes::from_slice(alloc, file.stream.as_slice())?,
        name: Bytes::from_slice(alloc, file.name.as_slice())?,
        text: line_text(alloc, file)?,
    })
}
