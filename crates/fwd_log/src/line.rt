//! The text of a log line.

ghost use Rattle.std.specs.Prelude.{◌≡◌, ◌++◌, pos, map, unsigned_abs, IfOk, OnOk};
ghost use Rattle.jiff_core.specs.Date.{epoch_day};
ghost use Rattle.fwd_log.specs.Line.{two_digits, printable, day_of, date_text, clock_text, head_text, IsAppendedTime, IsLine};

use crate::Level;
use fwd_base::{Bytes, Memory};
use jiff_core::civil::Date;
use std::alloc::Global;

/// The milliseconds of a day.
const DAY: u64 = 86_400_000;

/// The last day of the year 9999, from 1970-01-01.
const LAST_DAY: u64 = 2_932_896;

/// The days from the calendar's first one to 1970-01-01.
const FIRST_DAYS: u32 = 4_371_587;

/// Returns the date of a time. A later one than the calendar has is its last day.
fn date_of(millis: u64) -> Date
    ensures { epoch_day result ≡ pos (day_of millis) }
{
    let day = (millis / DAY).min(LAST_DAY) as u32;
    Date::from_days_since_min(FIRST_DAYS + day)
}

fn push_two(text: &mut Bytes, number: u64) -> Result<(), Memory>
    ensures { OnOk result (text.new ≡ text.old ++ two_digits number) }
{
    if number < 10 {
        text.push(b'0')?;
    }
    text.push_decimal(number)
}

/// Returns how many years a date is from the year 0.
fn year_of(date: Date) -> u16
    ensures { result ≡ unsigned_abs date.year }
{
    date.year.unsigned_abs()
}

fn push_date(text: &mut Bytes, date: Date) -> Result<(), Memory>
    ensures { OnOk result (text.new ≡ text.old ++ date_text date) }
{
    text.push_decimal(u64::from(year_of(date)))?;
    text.push(b'/')?;
    push_two(text, u64::from(date.month))?;
    text.push(b'/')?;
    push_two(text, u64::from(date.day))?;
    Ok(())
}

/// Appends the time of a day.
fn push_clock(text: &mut Bytes, second: u64) -> Result<(), Memory>
    ensures { OnOk result (text.new ≡ text.old ++ clock_text second) }
{
    push_two(text, second / 3_600)?;
    text.push(b':')?;
    push_two(text, second / 60 % 60)?;
    text.push(b':')?;
    push_two(text, second % 60)?;
    Ok(())
}

/// Returns a byte as a line shows it: a space for a control character.
fn printable(byte: u8) -> u8
    ensures { result ≡ printable byte }
{
    if byte < 32 || byte == 127 { b' ' } else { byte }
}

/// Appends bytes as a line shows them, so that they can't begin another line or speak to a terminal.
fn push_printable(text: &mut Bytes, bytes: &[u8]) -> Result<(), Memory>
    ensures { OnOk result (text.new ≡ text.old ++ map printable bytes.now) }
{
    for byte in bytes {
        text.push(printable(*byte))?;
    }
    Ok(())
}

fn push_head(text: &mut Bytes, level: Level, source: &[u8]) -> Result<(), Memory>
    ensures { OnOk result (text.new ≡ text.old ++ head_text level source.now) }
{
    text.extend_from_slice(b"] [")?;
    text.extend_from_slice(level.label())?;
    text.extend_from_slice(b"] [")?;
    push_printable(text, source)?;
    text.extend_from_slice(b"] ")?;
    Ok(())
}

fn push_time(text: &mut Bytes, millis: u64) -> Result<(), Memory>
    ensures { OnOk result (IsAppendedTime millis text.old text.new) }
{
    text.push(b'[')?;
    push_date(text, date_of(millis))?;
    text.push(b' ')?;
    push_clock(text, millis / 1_000 % 86_400)?;
    Ok(())
}

/// Returns a line of the log, with its line feed: `[2026/11/29 12:00:00] [ warn] [output tcp.0] text`. The
/// time is in UTC, from the milliseconds since 1970. Control characters are shown as spaces.
pub fn line_of(
    alloc: Global,
    millis: u64,
    level: Level,
    source: &[u8],
    text: &[u8],
) -> Result<Bytes, Memory>
    ensures { IfOk result (IsLine millis level source.now text.now) }
{
    let mut line = Bytes::new(alloc);
    push_time(&mut line, millis)?;
    push_head(&mut line, level, source)?;
    push_printable(&mut line, text)?;
    line.push(b'\n')?;
    Ok(line)
}
