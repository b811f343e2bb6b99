//! A run of the program over devices in memory.

use fwd_base::Memory;
use fwd_disk_mem::MemDisk;
use fwd_files_mem::{MemFiles, MemSink};
use fwd_keeper_mem::MemKeeper;
use fwd_script::{Life, Schedule, read_schedule};
use fwd_script_loop::Script;
use fwd_top::log_forwarder;
use std::alloc::Global;
use std::thread::Threads;

/// The paths of the configuration and of a schedule.
const CONFIG: &[u8] = b"c";

const SCHEDULE: &[u8] = b"s";

pub const RECORD: &[&str] = &["run", "-c", "c", "--record", "r"];

pub const REPLAY: &[&str] = &["replay", "-c", "c", "-s", "s"];

/// A tcp input to standard output.
pub const TCP: &[u8] = b"[SERVICE]\n    Flush 1\n\
    [INPUT]\n    Name tcp\n    Format none\n    Tag app\n\
    [OUTPUT]\n    Name stdout\n    Match *\n";

/// The same with chunks in synced files.
pub const STORED: &[u8] = b"[SERVICE]\n    Flush 1\n    storage.path S\n    storage.sync full\n\
    [INPUT]\n    Name tcp\n    Format none\n    Tag app\n    storage.type filesystem\n\
    [OUTPUT]\n    Name stdout\n    Match *\n";

/// What a run was written to: standard output, and the record.
#[derive(Drop)]
pub struct Sinks {
    pub out: MemSink,
    pub tape: MemSink,
}

impl Sinks {
    /// Returns empty sinks.
    pub fn new(alloc: Global) -> Self {
        Sinks {
            out: MemSink::new(alloc),
            tape: MemSink::new(alloc),
        }
    }
}

/// What a run is given beside its devices.
#[derive(Clone, Copy)]
pub struct Invocation<'a> {
    pub words: &'a [&'a str],
    /// The file `c`.
    pub config: &'a [u8],
    /// The file `s`.
    pub schedule: &'a [u8],
    pub turns: u64,
}

/// Returns what a run with turns enough is given.
pub fn of_words<'a>(words: &'a [&'a str], config: &'a [u8], schedule: &'a [u8]) -> Invocation<'a> {
    Invocation {
        words,
        config,
        schedule,
        turns: u64::MAX,
    }
}

/// Copies the words of a command line.
fn words_of(alloc: Global, words: &[&str]) -> Result<Vec<String>, Memory> {
    let mut given = Vec::new(alloc);
    for word in words {
        given.push(String::from_str(alloc, word)?)?;
    }
    Ok(given)
}

/// Returns the only run of a schedule.
fn only_life(schedule: &Schedule) -> Result<&Life, Memory> {
    match schedule.lives.as_slice() {
        [life] => Ok(life),
        _ => Err(Memory),
    }
}

fn files_of(alloc: Global, invocation: Invocation<'_>) -> Result<MemFiles, Memory> {
    let mut files = MemFiles::new(alloc);
    files.preset(CONFIG, invocation.config)?;
    files.preset(SCHEDULE, invocation.schedule)?;
    Ok(files)
}

/// Returns a disk with the files of a run, of which the same calls fail.
fn disk_of(alloc: Global, life: &Life) -> Result<MemDisk, Memory> {
    let mut disk = MemDisk::new(alloc);
    for stored in life.store.as_slice() {
        disk.preset(stored.name.as_slice(), stored.bytes.as_slice())?;
    }
    for call in life.disk_fails.as_slice() {
        disk.fail_at(*call)?;
    }
    Ok(disk)
}

fn run_life(
    rt: &(impl Threads + Sync),
    alloc: Global,
    invocation: Invocation<'_>,
    life: &Life,
    sinks: &mut Sinks,
) -> Result<u8, Memory> {
    let words = words_of(alloc, invocation.words)?;
    let mut disk = disk_of(alloc, life)?;
    let mut files = files_of(alloc, invocation)?;
    let mut outside = Script::new(alloc, life)?;
    let mut keeper = MemKeeper::new(alloc);
    let status = log_forwarder(
        rt,
        alloc,
        &words,
        &[],
        &mut disk,
        &mut files,
        &mut outside,
        &mut keeper,
        &mut sinks.out,
        &mut sinks.tape,
        invocation.turns,
    );
    Ok(status.number())
}

fn run_schedule(
    rt: &(impl Threads + Sync),
    alloc: Global,
    invocation: Invocation<'_>,
    schedule: &Schedule,
    sinks: &mut Sinks,
) -> Result<u8, Memory> {
    run_life(rt, alloc, invocation, only_life(schedule)?, sinks)
}

/// Runs the program, with a loop and a disk that play `life`, the text of a schedule with one run. Returns
/// the exit status.
pub fn run(
    rt: &(impl Threads + Sync),
    alloc: Global,
    invocation: Invocation<'_>,
    life: &[u8],
    sinks: &mut Sinks,
) -> Result<u8, Memory> {
    match read_schedule(alloc, life) {
        Ok(schedule) => run_schedule(rt, alloc, invocation, &schedule, sinks),
        Err(_) => Err(Memory),
    }
}
