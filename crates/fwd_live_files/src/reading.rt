//! Reads of files: from an offset on, and of those without a length to their end.

ghost use Rattle.std.specs.Prelude.{◌≤◌, IfOk, length};

use fwd_base::Bytes;
use fwd_base::limits::LONGEST_READ;
use std::alloc::Global;
use std::fs::{self, File};
use std::io::{self, ErrorKind, Read};
use std::os::unix::fs::FileExt;

/// The largest offset that the system takes.
pub const LAST_OFFSET: u64 = 9_223_372_036_854_775_807;

/// Reads from an offset until the buffer is full or the file ends. Returns how many bytes were read.
pub fn read_to(file: &File, part: &mut [u8], at: u64) -> io::Result<usize> {
    let mut filled = 0usize;
    for _ in 0..u64::MAX {
        if part.len() <= filled {
            break;
        }
        match file.read_at(&mut part[filled..], at.saturating_add(filled as u64)) {
            Ok(0) => break,
            Ok(count) => filled = filled.saturating_add(count),
            Err(error) if error.kind() == ErrorKind::Interrupted => {}
            Err(error) => return Err(error),
        }
    }
    Ok(filled)
}

/// Reads at most `max` bytes from an offset on, and at most `LONGEST_READ`. No bytes mean the end.
pub fn read_part(file: &File, alloc: Global, at: u64, max: u64) -> io::Result<Bytes>
    ensures { IfOk result (λ bytes. length bytes ≤ max) }
{
    if LAST_OFFSET < at {
        return Err(io::Error::from(ErrorKind::InvalidInput));
    }
    let rest = file.metadata()?.len().saturating_sub(at);
    let mut part = Vec::new(alloc);
    part.resize(max.min(LONGEST_READ).min(rest) as usize, 0)?;
    let count = read_to(file, &mut part, at)?;
    part.truncate(count);
    Ok(Bytes::from_vec(part))
}

/// Reads as `read_part` does, from the file that has a path now.
pub fn read_named(
    rt: &HostRuntime,
    alloc: Global,
    path: &str,
    at: u64,
    max: u64,
) -> io::Result<Bytes>
    ensures { IfOk result (λ bytes. length bytes ≤ max) }
{
    let file = fs::open(rt, path)?;
    read_part(&file, alloc, at, max)
}

/// The most bytes of a file that has no length.
const LONGEST_STREAM: usize = 16_777_216;

/// The most bytes of one read of it.
const STREAM_PART: usize = 4_096;

/// Appends what one read gives. Returns false at the end.
fn append_read(file: &mut File, bytes: &mut Vec<u8>) -> io::Result<bool> {
    let mut part = [0; STREAM_PART];
    match file.read(&mut part) {
        Ok(count) => {
            bytes.extend_from_slice(&part[..count])?;
            Ok(0 < count)
        }
        Err(error) if error.kind() == ErrorKind::Interrupted => Ok(true),
        Err(error) => Err(error),
    }
}

/// Reads a file that has no length, as a pipe, to its end. Fails if it has more than `LONGEST_STREAM` bytes.
pub fn read_stream(rt: &HostRuntime, path: &str) -> io::Result<Bytes> {
    let mut file = fs::open(rt, path)?;
    let mut bytes = Vec::new(rt.alloc());
    for _ in 0..=LONGEST_STREAM {
        if !append_read(&mut file, &mut bytes)? {
            return Ok(Bytes::from_vec(bytes));
        }
        if LONGEST_STREAM < bytes.len() {
            break;
        }
    }
    Err(io::Error::from(ErrorKind::FileTooLarge))
}

/// Returns at most `max` bytes of a stream's bytes from a position on.
pub fn part_of(alloc: Global, bytes: &[u8], at: u64, max: u64) -> io::Result<Bytes>
    ensures { IfOk result (λ part. length part ≤ max) }
{
    let from = at.min(bytes.len() as u64) as usize;
    let rest = &bytes[from..];
    let count = max.min(rest.len() as u64) as usize;
    let part = Vec::from_slice(alloc, &rest[..count])?;
    Ok(Bytes::from_vec(part))
}
