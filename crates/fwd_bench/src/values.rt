//! Events in bytes.

use fwd_event::{Bytes, Event, Events, Memory, Pairs, Value, can_write, read_events, write_event};
use fwd_msgpack::decode;
use std::alloc::Global;
use std::io;
use std::time::Instant;

/// Rounds of each measurement; the least time counts.
const ROUNDS: u32 = 5;

/// Returns the event of a log line of some 120 bytes.
fn line_event(alloc: Global, number: u32) -> Result<Event, Memory> {
    let line = format!(in alloc;
        "127.0.0.1 - - [14/Nov/2023:22:13:20 +0000] \"GET /items/{number} HTTP/1.1\" 200 2326 \"-\" \"Mozilla/5.0 (X11; Linux)\""
    )?;
    let mut body = Pairs::new(alloc);
    body.push((
        Value::Text(Bytes::from_slice(alloc, b"log")?),
        Value::Text(Bytes::from_slice(alloc, line.as_bytes())?),
    ))?;
    Ok(Event {
        sec: number,
        nsec: 0,
        meta: Pairs::new(alloc),
        body,
    })
}

fn line_events(alloc: Global, count: u32) -> Result<Events, Memory> {
    let mut events = Events::new(alloc);
    for number in 0..count {
        events.push(line_event(alloc, number)?)?;
    }
    Ok(events)
}

fn write_events(events: &Events, bytes: &mut Bytes) -> Result<(), Memory> {
    bytes.clear();
    for event in events.as_slice() {
        if can_write(event) {
            write_event(event, bytes)?;
        }
    }
    Ok(())
}

/// Decodes the values one after another, dropping each before the next, and returns their number.
fn decode_values(alloc: Global, bytes: &[u8], count: u32) -> u32 {
    let mut at = 0;
    for number in 0..count {
        let Some(rest) = bytes.get(at..) else {
            return number;
        };
        let Ok((_value, length)) = decode(alloc, rest) else {
            return number;
        };
        at = at.saturating_add(length as usize);
    }
    count
}

/// Returns the time of encoding `turns` times, in microseconds.
fn write_time(
    rt: &HostRuntime,
    events: &Events,
    bytes: &mut Bytes,
    turns: u32,
) -> io::Result<u128> {
    let start = Instant::now(rt)?;
    for _ in 0..turns {
        if write_events(events, bytes).is_err() {
            return Ok(u128::MAX);
        }
    }
    Ok(start.elapsed(rt)?.as_micros())
}

/// Returns the time of decoding one by one `turns` times, in microseconds.
fn decode_time(rt: &HostRuntime, bytes: &[u8], count: u32, turns: u32) -> io::Result<u128> {
    let start = Instant::now(rt)?;
    for _ in 0..turns {
        if decode_values(rt.alloc(), bytes, count) < count {
            return Ok(u128::MAX);
        }
    }
    Ok(start.elapsed(rt)?.as_micros())
}

/// Returns the time of decoding as a list `turns` times, in microseconds.
fn list_time(rt: &HostRuntime, bytes: &[u8], turns: u32) -> io::Result<u128> {
    let start = Instant::now(rt)?;
    for _ in 0..turns {
        if read_events(rt.alloc(), bytes).is_err() {
            return Ok(u128::MAX);
        }
    }
    Ok(start.elapsed(rt)?.as_micros())
}

/// Encodes `count` events, decodes them one by one, and decodes them as a list, each `turns` times, and
/// prints the number, the bytes and the least times in microseconds.
pub fn measure(rt: &HostRuntime, count: u32, turns: u32) -> io::Result<()> {
    let alloc = rt.alloc();
    let Ok(events) = line_events(alloc, count) else {
        return rt.println("out of memory");
    };
    let mut written = u128::MAX;
    let mut decoded = u128::MAX;
    let mut listed = u128::MAX;
    let mut bytes = Bytes::new(alloc);
    for _ in 0..ROUNDS {
        written = written.min(write_time(rt, &events, &mut bytes, turns)?);
        decoded = decoded.min(decode_time(rt, bytes.as_slice(), count, turns)?);
        listed = listed.min(list_time(rt, bytes.as_slice(), turns)?);
    }
    println!(rt; "{count} {} {written} {decoded} {listed}", bytes.len())
}
