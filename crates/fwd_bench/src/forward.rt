//! Streams of forward messages, in large and in small buffers.

ghost use Rattle.std.specs.Prelude.{◌<◌};

use fwd_in_forward::{Bytes, ForwardConn, Memory};
use std::alloc::Global;
use std::io;
use std::time::Instant;

/// Rounds of each measurement; the least time counts.
const ROUNDS: u32 = 3;

/// The bytes before the length of the text in a message of one event: the tag, ten seconds and a field.
const FRONT: &[u8] = b"\x93\xa3app\xce\x00\x00\x00\x0a\x81\xa3log\xdb";

/// The text length of a message of 200 bytes.
const SHORT: u32 = 180;

/// The text length of a message of 100,000 bytes.
const LONG: u32 = 99_980;

fn text(alloc: Global, length: u32) -> Result<Bytes, Memory> {
    let mut text = Bytes::new(alloc);
    for _ in 0..length {
        text.push(b'a')?;
    }
    Ok(text)
}

fn put_message(stream: &mut Bytes, length: u32, text: &Bytes) -> Result<(), Memory> {
    stream.extend_from_slice(FRONT)?;
    stream.extend_from_slice(length.to_be_bytes().as_slice())?;
    stream.extend_from_slice(text.as_slice())
}

fn put_messages(stream: &mut Bytes, count: u32, length: u32, text: &Bytes) -> Result<(), Memory> {
    for _ in 0..count {
        put_message(stream, length, text)?;
    }
    Ok(())
}

/// Returns `count` messages with a text of `length` bytes.
fn messages(alloc: Global, count: u32, length: u32) -> Result<Bytes, Memory> {
    let text = text(alloc, length)?;
    let mut stream = Bytes::new(alloc);
    put_messages(&mut stream, count, length, &text)?;
    Ok(stream)
}

/// Returns how many messages come of a stream in buffers of `size` bytes.
fn read(alloc: Global, stream: &[u8], size: usize) -> Result<u64, Memory>
    requires { 0 < size }
{
    let mut conn = ForwardConn::new(alloc);
    let mut count: u64 = 0;
    for piece in stream.chunks(size) {
        count = count.saturating_add(conn.feed(piece)?.messages.len() as u64);
    }
    Ok(count)
}

/// Returns the time of reading `turns` times, in microseconds.
fn read_time(rt: &HostRuntime, stream: &[u8], size: usize, turns: u32) -> io::Result<u128>
    requires { 0 < size }
{
    let start = Instant::now(rt)?;
    for _ in 0..turns {
        if read(rt.alloc(), stream, size).is_err() {
            return Ok(u128::MAX);
        }
    }
    Ok(start.elapsed(rt)?.as_micros())
}

/// Prints the bytes of a buffer, the messages that were read, the bytes, and the least time of reading
/// them `turns` times, in microseconds.
fn measure_pieces(rt: &HostRuntime, stream: &[u8], size: usize, turns: u32) -> io::Result<()>
    requires { 0 < size }
{
    let Ok(count) = read(rt.alloc(), stream, size) else {
        return rt.println("out of memory");
    };
    let mut time = u128::MAX;
    for _ in 0..ROUNDS {
        time = time.min(read_time(rt, stream, size, turns)?);
    }
    println!(rt; "{size} {count} {} {time}", stream.len())
}

fn measure_stream(rt: &HostRuntime, stream: Result<Bytes, Memory>, turns: u32) -> io::Result<()> {
    let Ok(stream) = stream else {
        return rt.println("out of memory");
    };
    measure_pieces(rt, stream.as_slice(), 65_536, turns)?;
    measure_pieces(rt, stream.as_slice(), 16, turns)
}

/// Measures `count` messages of 200 bytes, and as many bytes in messages of 100,000, `turns` times.
pub fn measure(rt: &HostRuntime, count: u32, turns: u32) -> io::Result<()> {
    measure_stream(rt, messages(rt.alloc(), count, SHORT), turns)?;
    measure_stream(rt, messages(rt.alloc(), count / 500, LONG), turns)
}
