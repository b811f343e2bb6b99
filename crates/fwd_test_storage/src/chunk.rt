//! The file of one chunk on a disk in memory.

ghost use Rattle.fwd_chunk.specs.Layout.{AreOutputs};

use crate::samples::{ONE, empties, outputs};
use fwd_base::Names;
use fwd_chunk::{ChunkHead, Seen, check_file, commit, create, stage};
use fwd_disk_mem::MemDisk;
use fwd_outside::{Disk, DiskErr};
use std::alloc::Global;
use std::test::Fail;

const NAME: &[u8] = b"S/tcp.0/00000000000000000001.flb";

/// A new file with the tag `app` and the event `one`, which names the output `stdout.0`.
const NEW_FILE: &[u8] =
    b"\xc1\0\0\0\0\0\x02\0\0\0\0\0\0\0\0\0\0\x16\0\0\0\0\0\x14\xf1\x77\0\x02\0\x03app\x01\0\x08stdout.0\
    \x92\x92\xd7\0\0\0\0\0\0\0\0\0\x80\x81\xa3log\xa3one";

/// Places a file with the tag `app` and a batch.
fn create_file(
    alloc: Global,
    disk: &mut MemDisk,
    batch: &[u8],
    names: &Names,
) -> Result<ChunkHead, DiskErr>
    requires { AreOutputs names.now }
{
    if batch.len() > 2_048_000 {
        return Err(DiskErr::Memory);
    }
    create(alloc, disk, NAME, b"app", batch, names)
}

fn place(alloc: Global, disk: &mut MemDisk, batch: &[u8]) -> Result<ChunkHead, DiskErr> {
    let names = outputs(alloc)?;
    create_file(alloc, disk, batch, &names)
}

fn has_bytes(alloc: Global, disk: &mut MemDisk, wanted: &[u8]) -> Result<bool, DiskErr> {
    let bytes = disk.read(alloc, NAME, 0, 1_000)?;
    Ok(bytes.as_slice() == wanted)
}

fn is_placed(alloc: Global) -> Result<bool, DiskErr> {
    let mut disk = MemDisk::new(alloc);
    place(alloc, &mut disk, ONE)?;
    has_bytes(alloc, &mut disk, NEW_FILE)
}

#[test]
fn a_new_file_has_these_bytes(rt: HostRuntime) {
    assert!(rt; matches!(is_placed(rt.alloc()), Ok(true)));
}

/// Appends a batch, if the file has room for it.
fn append(disk: &mut MemDisk, head: &mut ChunkHead, batch: &[u8]) -> Result<(), DiskErr> {
    if head.meta > 17_479 || head.size > 2_048_000 || batch.len() > 2_048_000 {
        return Ok(());
    }
    let size = head.size + batch.len() as u64;
    stage(disk, head, batch, true)?;
    commit(disk, head, size, true)
}

fn append_large(alloc: Global, disk: &mut MemDisk, batch: &[u8]) -> Result<(), DiskErr> {
    let mut head = place(alloc, disk, batch)?;
    append(disk, &mut head, batch)
}

fn size_in(alloc: Global, bytes: &[u8]) -> Result<(u64, u64), Fail> {
    match check_file(alloc, bytes)? {
        Seen::Whole(brief) => Ok((brief.size, brief.events)),
        Seen::Empty(_) | Seen::Refused(_) => Ok((0, 0)),
    }
}

/// The bytes and the events of the chunk.
fn size_of(alloc: Global, disk: &mut MemDisk) -> Result<(u64, u64), Fail> {
    let bytes = disk.read(alloc, NAME, 0, u64::MAX)?;
    size_in(alloc, bytes.as_slice())
}

fn size_appended(alloc: Global, batch: &[u8]) -> Result<(u64, u64), Fail> {
    let mut disk = MemDisk::new(alloc);
    append_large(alloc, &mut disk, batch)?;
    size_of(alloc, &mut disk)
}

#[test]
fn a_megabyte_is_appended_to_another_and_read(rt: HostRuntime) -> Result<(), Fail> {
    let batch = empties(rt.alloc(), 75_000)?;
    let size = size_appended(rt.alloc(), batch.as_slice())?;
    assert!(rt; size == (2_100_000, 150_000), "{size:?}");
    Ok(())
}
