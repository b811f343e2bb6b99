//! One event as a line of text.

ghost use Rattle.std.specs.Prelude.{◌≡◌, ◌++◌, OnOk};
ghost use Rattle.fwd_out_text.specs.Payload.{nanoseconds, time_text, date_text, tag_text, json_line, tagged_line};

use fwd_base::{Bytes, Memory};
use fwd_event::Event;
use fwd_json::{Floats, map_text, more_pairs_text};
use itoa::Buffer;
use std::alloc::Global;

/// Appends at least nine digits, with leading zeros.
fn write_nanoseconds(out: &mut Bytes, nsec: u32) -> Result<(), Memory>
    ensures { OnOk result (out.new ≡ out.old ++ nanoseconds nsec) }
{
    let mut buffer = Buffer::new();
    let digits = buffer.format(nsec).as_bytes();
    let missing = 9usize.saturating_sub(digits.len());
    for _zeros in 0..missing {
        out.push(b'0')?;
    }
    out.extend_from_slice(digits)
}

/// Appends a time in seconds.
fn write_moment(sec: u32, nsec: u32, out: &mut Bytes) -> Result<(), Memory>
    ensures { OnOk result (out.new ≡ out.old ++ time_text sec nsec) }
{
    let mut buffer = Buffer::new();
    out.extend_from_slice(buffer.format(sec).as_bytes())?;
    if nsec == 0 {
        return out.extend_from_slice(b".000000000");
    }
    out.push(b'.')?;
    write_nanoseconds(out, nsec)
}

/// Appends `{"date":TIME`.
pub fn write_date(sec: u32, nsec: u32, out: &mut Bytes) -> Result<(), Memory>
    ensures { OnOk result (out.new ≡ out.old ++ date_text sec nsec) }
{
    out.extend_from_slice(b"{\"date\":")?;
    write_moment(sec, nsec, out)
}

/// Appends `{"date":TIME,"key":value}` and a line feed, with the pairs of the record in their order.
pub fn write_json_line(
    alloc: Global,
    event: &Event,
    floats: Floats,
    out: &mut Bytes,
) -> Result<(), Memory>
    ensures { OnOk result (out.new ≡ out.old ++ json_line floats event.now) }
{
    write_date(event.sec, event.nsec, out)?;
    more_pairs_text(alloc, &event.body, floats, out)?;
    out.extend_from_slice(b"}\n")
}

/// Appends `TAG: [TIME, `.
pub fn write_tag(tag: &[u8], sec: u32, nsec: u32, out: &mut Bytes) -> Result<(), Memory>
    ensures { OnOk result (out.new ≡ out.old ++ tag_text tag.now sec nsec) }
{
    out.extend_from_slice(tag)?;
    out.extend_from_slice(b": [")?;
    write_moment(sec, nsec, out)?;
    out.extend_from_slice(b", ")
}

/// Appends `TAG: [TIME, BODY]` and a line feed.
pub fn write_tagged_line(
    alloc: Global,
    tag: &[u8],
    event: &Event,
    floats: Floats,
    out: &mut Bytes,
) -> Result<(), Memory>
    ensures { OnOk result (out.new ≡ out.old ++ tagged_line floats tag.now event.now) }
{
    write_tag(tag, event.sec, event.nsec, out)?;
    map_text(alloc, &event.body, floats, out)?;
    out.extend_from_slice(b"]\n")
}
