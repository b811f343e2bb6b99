//! A large file on a disk in memory.

use fwd_disk_mem::MemDisk;
use fwd_outside::{Disk, DiskErr};
use std::alloc::Global;
use std::test::Fail;

/// The number of bytes of a large file.
const LARGE: usize = 2_000_000;

/// Places a large file and writes over its second half and as much after it.
fn write_large(disk: &mut MemDisk, bytes: &[u8]) -> Result<(), DiskErr> {
    disk.place(b"f", bytes)?;
    disk.write_at(b"f", LARGE as u64 / 2, bytes)
}

fn length_of(alloc: Global, disk: &mut MemDisk) -> Result<usize, DiskErr> {
    let bytes = disk.read(alloc, b"f", 0, u64::MAX)?;
    Ok(bytes.len())
}

/// Returns the length of the file after a crash that follows two calls, by a pick.
fn length_in_image(alloc: Global, disk: &MemDisk, pick: u64) -> Result<usize, Fail> {
    let mut image = disk.image(alloc, 2, pick)?;
    Ok(length_of(alloc, &mut image)?)
}

fn lengths_of(alloc: Global, bytes: &[u8]) -> Result<[usize; 3], Fail> {
    let mut disk = MemDisk::new(alloc);
    write_large(&mut disk, bytes)?;
    let length = length_of(alloc, &mut disk)?;
    Ok([
        length,
        length_in_image(alloc, &disk, 0)?,
        length_in_image(alloc, &disk, 1)?,
    ])
}

#[test]
fn files_may_be_large(rt: HostRuntime) -> Result<(), Fail> {
    let bytes = vec![in rt.alloc(); 7; LARGE]?;
    let lengths = lengths_of(rt.alloc(), &bytes)?;
    assert!(rt; lengths == [3_000_000, 2_000_000, 3_000_000], "{lengths:?}");
    Ok(())
}
