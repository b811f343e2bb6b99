//! Chunk files: appends on a disk in memory, and reads.

use fwd_base::limits::FULL_CHUNK;
use fwd_chunk::{ChunkHead, commit, create, read_chunk, stage};
use fwd_disk_mem::MemDisk;
use fwd_outside::{Bytes, DiskErr, Memory, Names};
use std::alloc::Global;
use std::io;
use std::time::Instant;

/// Rounds of each measurement; the least time counts.
const ROUNDS: u32 = 7;

/// The event of a line of 100 letters at second 0.
const EVENT: &[u8] = b"\x92\x92\xd7\0\0\0\0\0\0\0\0\0\x80\x81\xa3log\xd9\x64\
    aaaaaaaaaaaaaaaaaaaaaaaaaaaaaaaaaaaaaaaaaaaaaaaaaaaaaaaaaaaaaaaaaaaaaaaaaaaaaaaaaaaaaaaaaaaaaaaaaaaa";

/// The header of a plain file with a tag.
const PLAIN_HEADER: &[u8] = b"\xc1\0\0\0\0\0\0\0\0\0\0\0\0\0\0\0\0\0\0\0\0\0\0\x05bench";

fn new_chunk(alloc: Global, disk: &mut MemDisk, number: u32) -> Result<ChunkHead, DiskErr> {
    let name = format!(in alloc; "S/bench.0/{number:020}.flb")?;
    create(
        alloc,
        disk,
        name.as_bytes(),
        b"bench",
        EVENT,
        &Names::new(alloc),
    )
}

fn append(disk: &mut MemDisk, head: &mut ChunkHead, full: bool) -> Result<(), DiskErr> {
    if head.meta > 17_479 || head.size > FULL_CHUNK {
        return Ok(());
    }
    let size = head.size + EVENT.len() as u64;
    stage(disk, head, EVENT, full)?;
    commit(disk, head, size, full)
}

/// Returns a disk with an event appended `count` times. A chunk that is full is followed by a new one.
fn disk_with_appends(alloc: Global, count: u32, full: bool) -> Result<MemDisk, DiskErr> {
    let mut disk = MemDisk::new(alloc);
    let mut head = new_chunk(alloc, &mut disk, 0)?;
    for number in 1..count {
        if head.size >= FULL_CHUNK {
            head = new_chunk(alloc, &mut disk, number)?;
        } else {
            append(&mut disk, &mut head, full)?;
        }
    }
    Ok(disk)
}

/// Returns the time of appending on `disks` disks one after another, in microseconds. A disk keeps all of
/// its calls, and all disks are kept, so that equally many appends take as much memory on one disk as on
/// ten.
fn append_time(rt: &HostRuntime, count: u32, disks: u32, full: bool) -> io::Result<u128> {
    let mut kept = Vec::new(rt.alloc());
    let start = Instant::now(rt)?;
    for _ in 0..disks {
        match disk_with_appends(rt.alloc(), count, full) {
            Ok(disk) => kept.push(disk)?,
            Err(_) => return Ok(u128::MAX),
        }
    }
    Ok(start.elapsed(rt)?.as_micros())
}

/// Returns a plain file with as many events as fit in `longest` bytes.
pub fn plain_file(alloc: Global, longest: usize) -> Result<Bytes, Memory> {
    let mut file = Bytes::from_slice(alloc, PLAIN_HEADER)?;
    for _ in 0..longest.saturating_sub(PLAIN_HEADER.len()) / EVENT.len() {
        file.extend_from_slice(EVENT)?;
    }
    Ok(file)
}

/// Returns the number of events that are read and the time of reading, in microseconds.
fn read_time(rt: &HostRuntime, file: &[u8]) -> io::Result<(u64, u128)> {
    let start = Instant::now(rt)?;
    let read = read_chunk(rt.alloc(), file);
    let spent = start.elapsed(rt)?.as_micros();
    match read {
        Ok(chunk) => Ok((chunk.events, spent)),
        Err(_) => Ok((0, u128::MAX)),
    }
}

/// Prints the number of appends to a disk and the least times of appending to `disks` disks, under full
/// sync and under normal sync, in microseconds.
pub fn measure(rt: &HostRuntime, count: u32, disks: u32) -> io::Result<()> {
    let mut full = u128::MAX;
    let mut normal = u128::MAX;
    for _ in 0..ROUNDS {
        full = full.min(append_time(rt, count, disks, true)?);
        normal = normal.min(append_time(rt, count, disks, false)?);
    }
    println!(rt; "{count} {full} {normal}")
}

/// Prints the bytes and the events of the longest file of at most `longest` bytes, and the least time of
/// reading it `turns` times, in microseconds.
pub fn measure_reading(rt: &HostRuntime, longest: u32, turns: u32) -> io::Result<()> {
    let Ok(file) = plain_file(rt.alloc(), longest as usize) else {
        return rt.println("out of memory");
    };
    let mut least = u128::MAX;
    let mut events = 0;
    for _ in 0..turns {
        let (found, spent) = read_time(rt, file.as_slice())?;
        events = found;
        least = least.min(spent);
    }
    println!(rt; "{} {events} {least}", file.len())
}
