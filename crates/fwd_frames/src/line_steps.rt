//! The steps of the line reader, on bytes in memory.

ghost use Rattle.std.specs.Prelude.{◌≡◌, ◌≤◌, ◌++◌, length, IfOk, OnOk, OnErr};
ghost use Rattle.std.specs.Str.Lines.{strip_carriage_return};
ghost use Rattle.fwd_base.specs.Limits.{longest_line};
ghost use Rattle.fwd_frames.specs.Lines.{lines as lines_of, rest, unless_empty};
ghost use Rattle.fwd_frames.specs.LineSteps.{IsFirstFeed, state_of, state_with_more};

use crate::{Frames, Line, Lines};
use fwd_base::limits::LONGEST_LINE;
use fwd_base::{Bytes, Memory};
use memchr::memchr;
use std::alloc::Global;

/// Returns the index of the first line feed, if there is one.
pub fn first_feed(bytes: &[u8]) -> Option<usize>
    ensures { IsFirstFeed bytes.now result }
{
    memchr(b'\n', bytes)
}

/// Returns the bytes without a trailing carriage return.
pub fn trim_return(mut bytes: Bytes) -> Bytes
    ensures { result ≡ strip_carriage_return bytes }
{
    let len = bytes.len();
    if len > 0 && bytes.get(len - 1) == Some(b'\r') {
        bytes.truncate(len - 1);
    }
    bytes
}

/// Appends bytes, up to the longest line. Returns whether the line is cut.
pub fn push_within(bytes: &mut Bytes, cut: bool, more: &[u8]) -> Result<bool, Memory>
    requires { length bytes.old ≤ longest_line }
    ensures ok { IfOk result (λ over. state_of bytes.new over
        ≡ state_with_more (state_of bytes.old cut) more.now) }
    ensures within { OnOk result (length bytes.new ≤ longest_line) }
    ensures err { OnErr result (bytes.new ≡ bytes.old) }
{
    let room = LONGEST_LINE - bytes.len();
    if room < more.len() {
        bytes.extend_from_slice(&more[..room])?;
        return Ok(true);
    }
    bytes.extend_from_slice(more)?;
    Ok(cut)
}

/// Appends a line unless it is empty.
pub fn push_unless_empty(lines: &mut Lines, line: Line) -> Result<(), Memory>
    ensures { OnOk result (lines.new ≡ lines.old ++ unless_empty line) }
{
    if !line.bytes.is_empty() {
        lines.push(line)?;
    }
    Ok(())
}

/// Appends the lines of a stream, and returns the bytes after its last line feed.
pub fn push_lines<'s>(
    alloc: Global,
    lines: &mut Lines,
    stream: &'s [u8],
) -> Result<&'s [u8], Memory>
    ensures lines { OnOk result (lines.new ≡ lines.old ++ lines_of stream.now) }
    ensures rest { IfOk result (λ left. left.now ≡ rest stream.now) }
{
    let whole = Frames::new(alloc);
    let mut from = 0;
    while let Some(end) = first_feed(&stream[from..]) {
        let line = whole.line_with(&stream[from..from + end])?;
        push_unless_empty(lines, line)?;
        from += end + 1;
    }
    Ok(&stream[from..])
}
