//! Files of chunks on a disk in memory.

use fwd_disk_mem::MemDisk;
use std::alloc::Global;
use std::test::Fail;

/// A plain file with the tag `app`: three events of six bytes, and one that is cut and followed by zeros.
const PLAIN: &[u8] = b"\xc1\x00\x12\x34\x56\x78\0\0\0\0\0\0\0\0\0\0\0\0\0\0\0\0\x00\x03app\
    \x92\x01\x81\xa1a\x01\x92\x02\x81\xa1a\x01\x92\x03\x81\xa1a\x01\x92\x04\0\0\0\0";

fn preset_one(alloc: Global, disk: &mut MemDisk, number: u64, bytes: &[u8]) -> Result<(), Fail> {
    let path = format!(in alloc; "S/a/{number:05}.flb")?;
    Ok(disk.preset(path.as_bytes(), bytes)?)
}

/// Puts so many files into the folder `S/a`, numbered from 1. The file with the number `cut` has only 10
/// bytes.
pub fn preset_files(alloc: Global, disk: &mut MemDisk, count: u64, cut: u64) -> Result<(), Fail> {
    for number in 1..=count {
        let bytes = if number == cut { &PLAIN[..10] } else { PLAIN };
        preset_one(alloc, disk, number, bytes)?;
    }
    Ok(())
}
