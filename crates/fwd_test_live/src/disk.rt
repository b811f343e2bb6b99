//! A disk in the folders of the machine.

use crate::stage::quiet;
use fwd_live::{Access, FolderDisk, Shared};
use fwd_outside::{Bytes, Disk, DiskErr};
use std::alloc::Global;
use std::fs;

/// A call on the disk, or what another program does to its folders meanwhile.
#[derive(Clone, Copy)]
enum Call {
    Place(&'static str, &'static [u8]),
    Write(&'static str, u64, &'static [u8]),
    Sync(&'static str),
    Read(&'static str, u64, u64),
    /// Gives the names with a blank after each.
    List(&'static str),
    Remove(&'static str),
    /// Another program writes a file.
    OtherWrites(&'static str),
    /// Another program removes a folder.
    OtherRemoves(&'static str),
}

/// What a call gives that has nothing to give.
const DONE: Option<&[u8]> = Some(b"");

/// Calls with the bytes that they give, or without any if they fail.
const CALLS: &[(Call, Option<&[u8]>)] = &[
    (Call::List("fwd_test_live/a/b"), DONE),
    (Call::Place("fwd_test_live/a/b/2", b"hello"), DONE),
    (Call::Place("fwd_test_live/a/b/10", b""), DONE),
    (Call::Place("fwd_test_live/a/b/1", b"first"), DONE),
    (Call::Write("fwd_test_live/a/b/2", 4, b"p!"), DONE),
    (Call::Write("fwd_test_live/a/b/1", 0, b"F"), DONE),
    (Call::Sync("fwd_test_live/a/b/2"), DONE),
    (
        Call::Read("fwd_test_live/a/b/2", 1, u64::MAX),
        Some(b"ellp!"),
    ),
    (Call::Read("fwd_test_live/a/b/2", 1, 3), Some(b"ell")),
    (Call::Read("fwd_test_live/a/b/2", 6, 3), DONE),
    (Call::Read("fwd_test_live/a/b/2", 9, 3), DONE),
    (Call::Read("fwd_test_live/a/b/1", 0, 2), Some(b"Fi")),
    // A file that is being placed isn't listed.
    (Call::OtherWrites("fwd_test_live/a/b/3.tmp"), DONE),
    (Call::List("fwd_test_live/a/b"), Some(b"1 10 2 ")),
    (Call::List("fwd_test_live/a"), Some(b"b ")),
    (Call::List("fwd_test_live/a/b/2"), DONE),
    (Call::Remove("fwd_test_live/a/b/2"), DONE),
    (Call::List("fwd_test_live/a/b"), Some(b"1 10 ")),
    (Call::Read("fwd_test_live/a/b/2", 0, 1), None),
    (Call::Write("fwd_test_live/a/b/2", 0, b"x"), None),
    (Call::Sync("fwd_test_live/a/b/2"), None),
    (Call::Remove("fwd_test_live/a/b/2"), None),
    (Call::Read("fwd_test_live/a/b/1", u64::MAX, 1), None),
    (Call::Write("fwd_test_live/a/b/1", 1 << 63, b"x"), None),
    // A file stands where a folder is needed.
    (Call::Place("fwd_test_live/a/b/1/x", b"x"), None),
    // A folder that was removed is made again.
    (Call::OtherRemoves("fwd_test_live/a/b"), DONE),
    (Call::Place("fwd_test_live/a/b/4", b"again"), DONE),
    (Call::List("fwd_test_live/a/b"), Some(b"4 ")),
];

fn new_disk(rt: HostRuntime, shared: &Shared) -> FolderDisk<'_> {
    FolderDisk::new(rt, shared, Access::Owner)
}

fn names_in(disk: &mut FolderDisk<'_>, alloc: Global, folder: &str) -> Result<Bytes, DiskErr> {
    let names = disk.list(alloc, folder.as_bytes())?;
    let mut text = Bytes::new(alloc);
    for name in names.iter() {
        text.extend_from_slice(name.as_slice())?;
        text.push(b' ')?;
    }
    Ok(text)
}

fn done(alloc: Global, outcome: Result<(), DiskErr>) -> Result<Bytes, DiskErr> {
    outcome?;
    Ok(Bytes::new(alloc))
}

fn failed_if(fails: bool) -> Result<(), DiskErr> {
    if fails { Err(DiskErr::Failed) } else { Ok(()) }
}

fn answer(disk: &mut FolderDisk<'_>, rt: HostRuntime, call: Call) -> Result<Bytes, DiskErr> {
    let alloc = rt.alloc();
    match call {
        Call::Place(name, bytes) => done(alloc, disk.place(name.as_bytes(), bytes)),
        Call::Write(name, at, bytes) => done(alloc, disk.write_at(name.as_bytes(), at, bytes)),
        Call::Sync(name) => done(alloc, disk.sync(name.as_bytes())),
        Call::Read(name, at, len) => disk.read(alloc, name.as_bytes(), at, len),
        Call::List(folder) => names_in(disk, alloc, folder),
        Call::Remove(name) => done(alloc, disk.remove(name.as_bytes())),
        Call::OtherWrites(name) => done(alloc, failed_if(fs::write(&rt, name, b"part").is_err())),
        Call::OtherRemoves(folder) => {
            done(alloc, failed_if(fs::remove_dir_all(&rt, folder).is_err()))
        }
    }
}

fn is_wanted(answer: &Result<Bytes, DiskErr>, wanted: Option<&[u8]>) -> bool {
    match (answer, wanted) {
        (Ok(bytes), Some(wanted)) => bytes.as_slice() == wanted,
        (Err(error), None) => *error == DiskErr::Failed,
        (Ok(_), None) | (Err(_), Some(_)) => false,
    }
}

/// Returns how many calls give what is wanted, up to the first that doesn't.
fn first_other(disk: &mut FolderDisk<'_>, rt: HostRuntime) -> usize {
    for (place, (call, wanted)) in CALLS.iter().enumerate() {
        if !is_wanted(&answer(disk, rt, *call), *wanted) {
            return place;
        }
    }
    CALLS.len()
}

#[test]
fn a_disk_answers(rt: HostRuntime) {
    let _ = fs::remove_dir_all(&rt, "fwd_test_live");
    let shared = quiet(rt);
    let place = first_other(&mut new_disk(rt, &shared), rt);
    let _ = fs::remove_dir_all(&rt, "fwd_test_live");
    assert!(rt;
        place == CALLS.len() && shared.disk_failed.get(),
        "call {place}"
    );
}
