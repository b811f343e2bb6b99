//! Streams split into lines, and lines parsed to encoded events, by a pattern and as JSON.

use fwd_event::{Bytes, Memory};
use fwd_frames::{Frames, Lines};
use fwd_parser::{FieldTypes, Floats, Parser, Pattern, Shape, TimeRule};
use std::alloc::Global;
use std::io;
use std::time::Instant;

/// Rounds of each measurement; the least time counts.
const ROUNDS: u32 = 3;

/// The bytes of a buffer of a stream.
const PIECE: usize = 65_536;

/// The pattern of a web server's line, without blanks in quotes.
const PATTERN: &[u8] =
    b"^(?<host>[^ ]*) [^ ]* (?<user>[^ ]*) \\[(?<time>[^\\]]*)\\] \"(?<method>[^ ]*) (?<path>[^ ]*) [^\"]*\" (?<code>[^ ]*) (?<size>[^ ]*)$";

fn time(alloc: Global) -> Result<Option<TimeRule>, Memory> {
    Ok(Some(TimeRule {
        key: Bytes::from_slice(alloc, b"time")?,
        format: Bytes::from_slice(alloc, b"%d/%b/%Y:%H:%M:%S %z")?,
        keep: false,
    }))
}

fn pattern_parser(alloc: Global) -> Result<Parser, Memory> {
    let Ok(pattern) = Pattern::new(alloc, PATTERN) else {
        return Err(Memory);
    };
    Ok(Parser {
        shape: Shape::Groups {
            pattern,
            types: FieldTypes::new(alloc),
            skip_empty: true,
        },
        time: time(alloc)?,
        floats: Floats::Tagged,
    })
}

fn json_parser(alloc: Global) -> Result<Parser, Memory> {
    Ok(Parser {
        shape: Shape::Json,
        time: time(alloc)?,
        floats: Floats::Tagged,
    })
}

/// Returns `count` lines of a web server.
fn web_stream(alloc: Global, count: u32) -> Result<Bytes, Memory> {
    let mut stream = Bytes::new(alloc);
    for number in 0..count {
        let line = format!(in alloc;
            "127.0.0.1 - - [14/Nov/2023:22:13:20 +0000] \"GET /items/{number} HTTP/1.1\" 200 2326\n"
        )?;
        stream.extend_from_slice(line.as_bytes())?;
    }
    Ok(stream)
}

/// Returns `count` lines of JSON.
fn json_stream(alloc: Global, count: u32) -> Result<Bytes, Memory> {
    let mut stream = Bytes::new(alloc);
    for number in 0..count {
        let line = format!(in alloc;
            "{{\"host\":\"127.0.0.1\",\"time\":\"14/Nov/2023:22:13:20 +0000\",\"method\":\"GET\",\"path\":\"/items/{number}\",\"code\":200,\"size\":2326}}\n"
        )?;
        stream.extend_from_slice(line.as_bytes())?;
    }
    Ok(stream)
}

/// Returns how many lines end in a stream that comes in buffers.
fn count_lines(alloc: Global, stream: &[u8]) -> Result<u64, Memory> {
    let mut frames = Frames::new(alloc);
    let mut count: u64 = 0;
    for piece in stream.chunks(PIECE) {
        count = count.saturating_add(frames.feed(piece)?.len() as u64);
    }
    Ok(count)
}

/// Returns whether the seconds of an encoded event aren't 0.
fn has_time(event: &[u8]) -> bool {
    event.len() > 7 && event[4..8].iter().any(|byte| *byte != 0)
}

/// Returns how many of the lines a parser writes as events with their own time.
fn count_timed_lines(alloc: Global, parser: &Parser, lines: Lines) -> Result<u64, Memory> {
    let mut reader = parser.reader(alloc)?;
    let mut bytes = Bytes::new(alloc);
    let mut count: u64 = 0;
    for line in lines.into_vec() {
        let start = bytes.len();
        if reader.write(alloc, line.bytes, 0, &mut bytes)? && has_time(&bytes.as_slice()[start..]) {
            count = count.saturating_add(1);
        }
    }
    Ok(count)
}

/// Returns the same for a stream that comes in buffers.
fn count_parsed_lines(alloc: Global, parser: &Parser, stream: &[u8]) -> Result<u64, Memory> {
    let mut frames = Frames::new(alloc);
    let mut count: u64 = 0;
    for piece in stream.chunks(PIECE) {
        count = count.saturating_add(count_timed_lines(alloc, parser, frames.feed(piece)?)?);
    }
    Ok(count)
}

/// Returns the time of splitting `turns` times, in microseconds.
fn part_time(rt: &HostRuntime, stream: &[u8], turns: u32) -> io::Result<u128> {
    let start = Instant::now(rt)?;
    for _ in 0..turns {
        if count_lines(rt.alloc(), stream).is_err() {
            return Ok(u128::MAX);
        }
    }
    Ok(start.elapsed(rt)?.as_micros())
}

/// Returns the time of splitting and parsing `turns` times, in microseconds.
fn parse_time(rt: &HostRuntime, parser: &Parser, stream: &[u8], turns: u32) -> io::Result<u128> {
    let start = Instant::now(rt)?;
    for _ in 0..turns {
        if count_parsed_lines(rt.alloc(), parser, stream).is_err() {
            return Ok(u128::MAX);
        }
    }
    Ok(start.elapsed(rt)?.as_micros())
}

/// Prints the parser's name, the lines read with their time, the bytes, and the least times in
/// microseconds of splitting, and of splitting and parsing, `turns` times.
fn measure_parser(
    rt: &HostRuntime,
    name: &str,
    parser: Result<Parser, Memory>,
    stream: Result<Bytes, Memory>,
    turns: u32,
) -> io::Result<()> {
    let (Ok(parser), Ok(stream)) = (parser, stream) else {
        return rt.println("out of memory");
    };
    let Ok(read) = count_parsed_lines(rt.alloc(), &parser, stream.as_slice()) else {
        return rt.println("out of memory");
    };
    let mut part = u128::MAX;
    let mut parse = u128::MAX;
    for _ in 0..ROUNDS {
        part = part.min(part_time(rt, stream.as_slice(), turns)?);
        parse = parse.min(parse_time(rt, &parser, stream.as_slice(), turns)?);
    }
    println!(rt; "{name} {read} {} {part} {parse}", stream.len())
}

/// Splits and parses `count` lines of each kind, `turns` times.
pub fn measure(rt: &HostRuntime, count: u32, turns: u32) -> io::Result<()> {
    let alloc = rt.alloc();
    measure_parser(
        rt,
        "regex",
        pattern_parser(alloc),
        web_stream(alloc, count),
        turns,
    )?;
    measure_parser(
        rt,
        "json",
        json_parser(alloc),
        json_stream(alloc, count),
        turns,
    )
}
