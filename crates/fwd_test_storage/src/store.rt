//! Large batches, and many chunks, in a store over a disk in memory.

ghost use Rattle.fwd_chunk.specs.Layout.{AreOutputs};

use crate::samples::{ONE, empties, outputs};
use fwd_disk_mem::MemDisk;
use fwd_outside::{Bytes, Disk, DiskErr, Memory, Names};
use fwd_store::{Accepted, ChunkId, Home, InputId, PartErr, Store, StoreRefusal};
use std::alloc::Global;
use std::test::Fail;

fn new_store(alloc: Global) -> Result<Store, Memory> {
    let root = Bytes::from_slice(alloc, b"S")?;
    Ok(Store::new(alloc, Some(root), true, 1))
}

fn put_for(
    alloc: Global,
    store: &mut Store,
    disk: &mut MemDisk,
    home: Home,
    tag: &[u8],
    batch: &[u8],
    names: &Names,
) -> Result<Accepted, StoreRefusal>
    requires { AreOutputs names.now }
{
    let input = InputId(0);
    if store.has_root() && store.has_room(input, tag) && tag.len() <= 1_024 {
        store.accept(alloc, disk, input, b"tcp.0", tag, home, batch, names)
    } else {
        Err(StoreRefusal::Memory)
    }
}

/// Accepts a batch of the input 0 for the output `stdout.0`.
fn put(
    alloc: Global,
    store: &mut Store,
    disk: &mut MemDisk,
    home: Home,
    tag: &[u8],
    batch: &[u8],
) -> Result<Accepted, StoreRefusal> {
    let names = outputs(alloc)?;
    put_for(alloc, store, disk, home, tag, batch, &names)
}

fn length_of(
    alloc: Global,
    store: &Store,
    disk: &mut MemDisk,
    chunk: ChunkId,
) -> Result<usize, PartErr> {
    if !store.holds(chunk) {
        return Err(PartErr::Memory);
    }
    match store.bytes(alloc, disk, chunk) {
        Ok(bytes) => Ok(bytes.len()),
        Err(error) => Err(error),
    }
}

/// The number of events of 14 bytes in the first batch of a new store, and whether it is taken.
const BATCHES: &[(u32, bool)] = &[(1_198_372, true), (1_198_373, false)];

/// Whether the batch becomes the first chunk and is read back.
fn takes(alloc: Global, store: &mut Store, disk: &mut MemDisk, home: Home, batch: &[u8]) -> bool {
    let (chunk, size) = (ChunkId(1), batch.len() as u64);
    let accepted = Accepted {
        chunk,
        size,
        fresh: true,
    };
    put(alloc, store, disk, home, b"app", batch) == Ok(accepted)
        && length_of(alloc, store, disk, chunk) == Ok(batch.len())
}

fn is_too_large(
    alloc: Global,
    store: &mut Store,
    disk: &mut MemDisk,
    home: Home,
    batch: &[u8],
) -> bool {
    put(alloc, store, disk, home, b"app", batch) == Err(StoreRefusal::BatchTooLarge)
        && !store.holds(ChunkId(1))
}

fn answers_over(
    alloc: Global,
    disk: &mut MemDisk,
    home: Home,
    batch: &[u8],
    is_taken: bool,
) -> Result<bool, Memory> {
    let mut store = new_store(alloc)?;
    Ok(if is_taken {
        takes(alloc, &mut store, disk, home, batch)
    } else {
        is_too_large(alloc, &mut store, disk, home, batch)
    })
}

fn answers(alloc: Global, home: Home, events: u32, is_taken: bool) -> Result<bool, Memory> {
    let batch = empties(alloc, events)?;
    let mut disk = MemDisk::new(alloc);
    answers_over(alloc, &mut disk, home, batch.as_slice(), is_taken)
}

fn all_answer(alloc: Global, home: Home) -> Result<bool, Memory> {
    for (events, is_taken) in BATCHES.iter() {
        if !answers(alloc, home, *events, *is_taken)? {
            return Ok(false);
        }
    }
    Ok(true)
}

#[test]
fn a_batch_in_a_file_has_16777216_bytes_at_most(rt: HostRuntime) {
    assert!(rt; matches!(all_answer(rt.alloc(), Home::Disk), Ok(true)));
}

#[test]
fn a_batch_in_memory_has_16777216_bytes_at_most(rt: HostRuntime) {
    assert!(rt; matches!(all_answer(rt.alloc(), Home::Ram), Ok(true)));
}

/// The number of tags.
const TAGS: u64 = 300;

/// Whether the line goes into the chunk with the number of its tag, which then has so many bytes. Each third
/// chunk is in memory.
fn is_taken(
    alloc: Global,
    store: &mut Store,
    disk: &mut MemDisk,
    number: u64,
    size: u64,
) -> Result<bool, Fail> {
    let tag = format!(in alloc; "app.{number}")?;
    let home = if number % 3 == 0 {
        Home::Ram
    } else {
        Home::Disk
    };
    let answer = put(alloc, store, disk, home, tag.as_bytes(), ONE);
    let (chunk, fresh) = (ChunkId(number), size == 22);
    Ok(answer == Ok(Accepted { chunk, size, fresh }))
}

/// Whether the chunk of each tag takes a line, and then has so many bytes.
fn take_all(alloc: Global, store: &mut Store, disk: &mut MemDisk, size: u64) -> Result<bool, Fail> {
    for number in 1..=TAGS {
        if !is_taken(alloc, store, disk, number, size)? {
            return Ok(false);
        }
    }
    Ok(true)
}

fn remove(store: &mut Store, disk: &mut MemDisk, chunk: ChunkId) -> Result<(), DiskErr> {
    if store.holds(chunk) {
        store.drop_chunk(disk, chunk)
    } else {
        Err(DiskErr::Memory)
    }
}

/// Whether each chunk has two lines and is removed.
fn drop_all(alloc: Global, store: &mut Store, disk: &mut MemDisk) -> bool {
    for number in 1..=TAGS {
        let chunk = ChunkId(number);
        let whole = length_of(alloc, store, disk, chunk) == Ok(44);
        if !whole || remove(store, disk, chunk).is_err() {
            return false;
        }
    }
    true
}

fn takes_and_drops(alloc: Global, disk: &mut MemDisk) -> Result<bool, Fail> {
    let mut store = new_store(alloc)?;
    let taken = take_all(alloc, &mut store, disk, 22)? && take_all(alloc, &mut store, disk, 44)?;
    Ok(taken && drop_all(alloc, &mut store, disk))
}

fn is_empty(alloc: Global, disk: &mut MemDisk) -> Result<bool, Fail> {
    let names = disk.list(alloc, b"S/tcp.0")?;
    Ok(names.is_empty())
}

fn many_tags(alloc: Global) -> Result<bool, Fail> {
    let mut disk = MemDisk::new(alloc);
    Ok(takes_and_drops(alloc, &mut disk)? && is_empty(alloc, &mut disk)?)
}

#[test]
fn a_store_has_hundreds_of_chunks(rt: HostRuntime) -> Result<(), Fail> {
    let has = many_tags(rt.alloc())?;
    assert!(rt; has);
    Ok(())
}
