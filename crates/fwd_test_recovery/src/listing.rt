//! The listing of more files than one group has.

use crate::files::preset_files;
use fwd_base::Bytes;
use fwd_disk_mem::MemDisk;
use fwd_report::listing;
use std::alloc::Global;
use std::test::Fail;
use std::thread::Threads;

const MANY: u64 = 5_000;

fn push_line(alloc: Global, text: &mut String, number: u64, cut: u64) -> Result<(), Fail> {
    let what = if number == cut {
        "refused TooShort"
    } else {
        "chunk \"app\" events 3 bytes 18 torn 6"
    };
    let line = format!(in alloc; "a/{number:05}.flb {what}\n")?;
    Ok(text.push_str(line.as_str())?)
}

fn push_lines(alloc: Global, text: &mut String, cut: u64) -> Result<(), Fail> {
    for number in 1..=MANY {
        push_line(alloc, text, number, cut)?;
    }
    Ok(text.push_str("files 5000\n")?)
}

fn is_listing(alloc: Global, listed: &Bytes, cut: u64) -> Result<bool, Fail> {
    let mut wanted = String::new(alloc);
    push_lines(alloc, &mut wanted, cut)?;
    Ok(listed.as_slice() == wanted.as_bytes())
}

fn is_listed(
    rt: &(impl Threads + Sync),
    alloc: Global,
    disk: &mut MemDisk,
    cut: u64,
) -> Result<bool, Fail> {
    let listed = listing(rt, alloc, disk, b"S")?;
    is_listing(alloc, &listed, cut)
}

fn are_listed(rt: &(impl Threads + Sync), alloc: Global, cut: u64) -> Result<bool, Fail> {
    let mut disk = MemDisk::new(alloc);
    preset_files(alloc, &mut disk, MANY, cut)?;
    is_listed(rt, alloc, &mut disk, cut)
}

#[test]
fn five_thousand_files_are_listed(rt: HostRuntime) -> Result<(), Fail> {
    let listed = are_listed(&rt, rt.alloc(), 0)?;
    assert!(rt; listed);
    Ok(())
}

#[test]
fn one_of_five_thousand_files_is_cut(rt: HostRuntime) -> Result<(), Fail> {
    let listed = are_listed(&rt, rt.alloc(), 2500)?;
    assert!(rt; listed);
    Ok(())
}
