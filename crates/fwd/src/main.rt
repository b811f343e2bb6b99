//! The program `fwd`: it makes the devices of a live run and its watcher, passes them to `watched_forwarder`,
//! and ends with the status that this returns and its line on standard error.
#![tactic(auto)]

mod arguments;

ghost use Rattle.fwd_outside.specs.Disk.{DiskGiven};
ghost use Rattle.fwd_outside.specs.Files.{FilesGiven};
ghost use Rattle.fwd_outside.specs.Loop.{LoopGiven};
ghost use Rattle.fwd_keeper.specs.Keeper.{KeeperGiven};
ghost use Rattle.fwd_config.specs.Variables.{environment as variables};
ghost use Rattle.fwd.specs.Run.{ComesOfRun, IsWithoutDevices};

use arguments::{environment, words};
use fwd_base::{Bytes, Memory};
use fwd_live::{
    Access, FileSink, FolderDisk, FolderFiles, Identities, LiveLoop, Shared, StdSink,
    USUAL_PATIENCE,
};
use fwd_log::{Journal, Level};
use fwd_positions::SqliteKeeper;
use fwd_top::{Status, status_line, tape_file, watched_forwarder};
use fwd_watch::Watcher;
use std::alloc::Global;
use std::io::{self, ErrorKind, Write};
use std::process::ExitCode;
use std::thread::Threads;

/// How often a listing is made again.
const LISTING_RETRIES: u32 = 5;

/// The line that is printed if there is no memory for the status line.
const OUT_OF_MEMORY: &[u8] = b"out of memory\n";

/// Returns the status of a run without an event loop.
fn status_without_loop(error: &io::Error) -> Status
    ensures { IsWithoutDevices result }
{
    match error.kind() {
        ErrorKind::OutOfMemory => Status::Memory,
        _ => Status::LoopFault,
    }
}

/// Returns the level of the log until the configuration sets it. Only a live run has a log.
fn first_level(words: &[String]) -> Option<Level> {
    match words.first() {
        Some(word) if word.as_str() == "run" => Some(Level::Info),
        Some(_) | None => None,
    }
}

/// Returns whether the words ask for a listing.
fn is_listing(words: &[String]) -> bool {
    match words.first() {
        Some(word) => word.as_str() == "list",
        None => false,
    }
}

/// Makes the devices and runs the program. The caller picks the initial files, on the disk and beside it, the
/// initial offsets in the databases, and what the loop will bring. Without a loop the status is `LoopFault`
/// or `Memory`, whatever the words are. The file of a record is created when the record is written.
///
/// The clause binds the words, the variables and the turns that the call gets, and the status that it
/// returns. The devices are some.
fn run(
    rt: &HostRuntime,
    threads: &(impl Threads + Sync),
    words: &[String],
    env: &[(String, String)],
) -> Status
    ghost given: { DiskGiven × (FilesGiven × (LoopGiven × KeeperGiven)) }
    ensures { ComesOfRun words.now (variables env.now) result }
{
    let Ok(tape_name) = tape_file(rt.alloc(), words) else {
        return Status::Memory;
    };
    let access = if is_listing(words) {
        Access::Reader
    } else {
        Access::Owner
    };
    let shared = Shared::new(Journal::new(*rt, first_level(&words)));
    let identities = Identities::new(rt.alloc());
    let mut outside = match LiveLoop::new(*rt, &shared, USUAL_PATIENCE) {
        Ok(outside) => outside,
        Err(error) => return status_without_loop(&error),
    };
    let mut disk = FolderDisk::new(*rt, &shared, access);
    let mut files = FolderFiles::new(*rt, &shared, &identities);
    let mut keeper = SqliteKeeper::new(*rt, &shared.journal, &identities);
    let mut out = StdSink::new(*rt);
    let mut tape = FileSink::new(*rt, tape_name);
    let mut watcher = Watcher::new(rt.alloc(), &shared.journal);
    watched_forwarder(
        threads,
        rt.alloc(),
        words,
        env,
        &mut disk,
        &mut files,
        &mut outside,
        &mut keeper,
        &mut out,
        &mut tape,
        u64::MAX,
        &mut watcher,
    )
}

/// Returns the status line with a line feed; empty for `Done`.
fn line_of(alloc: Global, status: &Status) -> Result<Bytes, Memory> {
    let mut line = status_line(alloc, status)?;
    if !line.is_empty() {
        line.push(b'\n')?;
    }
    Ok(line)
}

/// Prints the status line to standard error, or `OUT_OF_MEMORY` if there is no memory for it.
fn print_status(rt: &HostRuntime, status: &Status) -> io::Result<()> {
    match line_of(rt.alloc(), status) {
        Ok(line) => rt.stderr().write_all(line.as_slice()),
        Err(Memory) => rt.stderr().write_all(OUT_OF_MEMORY),
    }
}

/// Runs the program. A listing whose disk failed is made again: a live run may have removed files meanwhile.
/// Nothing was written then.
fn run_words(rt: &HostRuntime, threads: &(impl Threads + Sync)) -> Status
    ghost given: { DiskGiven × (FilesGiven × (LoopGiven × KeeperGiven)) }
{
    let words = match words(rt) {
        Ok(words) => words,
        Err(status) => return status,
    };
    let Ok(env) = environment(rt) else {
        return Status::Memory;
    };
    let mut status = run(rt, threads, &words, &env);
    if is_listing(&words) {
        for _ in 0..LISTING_RETRIES {
            if status != Status::DiskFault {
                break;
            }
            status = run(rt, threads, &words, &env);
        }
    }
    status
}

fn main(rt: HostRuntime) -> ExitCode {
    let status = run_words(&rt, &rt);
    let _ = print_status(&rt, &status);
    ExitCode::from(status.number())
}
