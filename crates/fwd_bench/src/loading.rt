//! Chunk files that are loaded from a disk in memory.

use crate::chunks::plain_file;
use fwd_backlog::load_all;
use fwd_disk_mem::MemDisk;
use fwd_outside::Memory;
use std::alloc::Global;
use std::io;
use std::thread::Threads;
use std::time::Instant;

/// The most bytes of a file.
const LONGEST: usize = 65_536;

fn preset(alloc: Global, disk: &mut MemDisk, number: u32, file: &[u8]) -> Result<(), Memory> {
    let name = format!(in alloc; "S/bench.0/{number:020}.flb")?;
    disk.preset(name.as_bytes(), file)
}

/// Returns a disk with `count` files of these bytes.
fn disk_with(alloc: Global, file: &[u8], count: u32) -> Result<MemDisk, Memory> {
    let mut disk = MemDisk::new(alloc);
    for number in 1..=count {
        preset(alloc, &mut disk, number, file)?;
    }
    Ok(disk)
}

/// Returns how many files are recovered, and the time of loading, in microseconds.
fn load_time(
    rt: &HostRuntime,
    threads: &(impl Threads + Sync),
    disk: &mut MemDisk,
) -> io::Result<(usize, u128)> {
    let start = Instant::now(rt)?;
    let loaded = load_all(threads, rt.alloc(), disk, b"S");
    let spent = start.elapsed(rt)?.as_micros();
    match loaded {
        Ok(backlog) => Ok((backlog.found.len(), spent)),
        Err(_) => Ok((0, u128::MAX)),
    }
}

fn load_once(
    rt: &HostRuntime,
    threads: &(impl Threads + Sync),
    file: &[u8],
    count: u32,
) -> io::Result<(usize, u128)> {
    match disk_with(rt.alloc(), file, count) {
        Ok(mut disk) => load_time(rt, threads, &mut disk),
        Err(Memory) => Ok((0, u128::MAX)),
    }
}

/// Prints how many of `count` files are recovered, the bytes of each, and the least time of loading them
/// `turns` times, in microseconds.
pub fn measure(
    rt: &HostRuntime,
    threads: &(impl Threads + Sync),
    count: u32,
    turns: u32,
) -> io::Result<()> {
    let Ok(file) = plain_file(rt.alloc(), LONGEST) else {
        return rt.println("out of memory");
    };
    let mut least = u128::MAX;
    let mut found = 0;
    for _ in 0..turns {
        let (files, spent) = load_once(rt, threads, file.as_slice(), count)?;
        found = files;
        least = least.min(spent);
    }
    println!(rt; "{found} {} {least}", file.len())
}
