//! Two threads check one group of files.

use crate::files::preset_files;
use crate::meeting::{COUNT, Meeting, plain_map_meets};
use fwd_backlog::{Backlog, Found, Seen, load_all, load_gated};
use fwd_disk_mem::MemDisk;
use std::alloc::Global;
use std::test::Fail;
use std::thread::Threads;

fn is_whole(seen: &Seen) -> bool {
    match seen {
        Seen::Whole(brief) => brief.events == 3 && brief.size == 18 && brief.torn == 6,
        Seen::Empty(_) | Seen::Refused(_) => false,
    }
}

fn is_same(one: &Found, other: &Found) -> bool {
    one.name.as_slice() == other.name.as_slice() && is_whole(&one.seen) && is_whole(&other.seen)
}

fn are_same(one: &[Found], other: &[Found]) -> bool {
    one.len() == other.len() && one.iter().zip(other.iter()).all(|(a, b)| is_same(a, b))
}

/// Whether loading has the answer of plain loading, and meets if the plain map does.
fn is_gated(
    rt: &(impl Threads + Sync),
    alloc: Global,
    disk: &mut MemDisk,
    plain: &Backlog,
    meets: bool,
) -> Result<bool, Fail> {
    let meeting = Meeting::new(0, COUNT - 1);
    let backlog = load_gated(rt, alloc, disk, b"S", &meeting)?;
    let same = are_same(backlog.found.as_slice(), plain.found.as_slice());
    Ok(same && backlog.next == plain.next && (!meets || meeting.has_met()))
}

fn is_loaded(
    rt: &(impl Threads + Sync),
    alloc: Global,
    disk: &mut MemDisk,
    meets: bool,
) -> Result<bool, Fail> {
    let plain = load_all(rt, alloc, disk, b"S")?;
    Ok(plain.found.len() as u64 == COUNT && is_gated(rt, alloc, disk, &plain, meets)?)
}

fn are_checked(rt: &(impl Threads + Sync), alloc: Global, meets: bool) -> Result<bool, Fail> {
    let mut disk = MemDisk::new(alloc);
    preset_files(alloc, &mut disk, COUNT, 0)?;
    is_loaded(rt, alloc, &mut disk, meets)
}

#[test]
fn files_are_checked_by_two_threads(rt: HostRuntime) -> Result<(), Fail> {
    let meets = plain_map_meets(&rt, rt.alloc())?;
    let checked = are_checked(&rt, rt.alloc(), meets)?;
    assert!(rt; checked);
    Ok(())
}
