//! Loading calls the disk no more after a call that is refused because memory is out: neither in the group of
//! files in which that happens, nor in the next one.

use crate::files::preset_files;
use fwd_backlog::{LoadErr, load_all};
use fwd_disk_mem::MemDisk;
use fwd_outside::Disk;
use fwd_test_devices::{Came, Ended, Faulty, Refusal};
use std::alloc::Global;
use std::test::Fail;
use std::thread::Threads;

/// More files than one group has.
const MANY: u64 = 4_100;

/// Calls on the root and its folder, and the sync and the read of a file in the first group and in the
/// second.
const CALLS: &[u64] = &[1, 2, 3, 4, 8_193, 8_194, 8_195, 8_202];

fn end_of<D: Disk>(rt: &(impl Threads + Sync), alloc: Global, disk: &mut D) -> Ended {
    match load_all(rt, alloc, disk, b"S") {
        Ok(_) => Ended::Done,
        Err(LoadErr::Memory) => Ended::Memory,
        Err(LoadErr::DiskFailed) => Ended::Otherwise,
    }
}

fn came(rt: &(impl Threads + Sync), alloc: Global, call: u64) -> Result<Came, Fail> {
    let refusal = Refusal::at(call);
    let mut files = MemDisk::new(alloc);
    preset_files(alloc, &mut files, MANY, 0)?;
    let mut disk = Faulty::new(files, &refusal);
    Ok(refusal.came(end_of(rt, alloc, &mut disk)))
}

#[test]
fn after_a_refused_call_no_group_is_read(rt: HostRuntime) -> Result<(), Fail> {
    for call in CALLS.iter() {
        let came = came(&rt, rt.alloc(), *call)?;
        assert!(rt; came == Came::Refused, "at call {call}");
    }
    Ok(())
}
