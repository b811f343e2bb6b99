//! What the devices of a live run share.

use fwd_log::{Journal, Level, Source, Topic};
use std::alloc::Global;
use std::cell::Cell;
use std::fmt::Display;
use std::fs::File;
use std::io::{self, ErrorKind};
use std::os::unix::fs::FileExt;

/// The length of a part of the reserve, in bytes.
const RESERVE_PART: usize = 32_768;

/// The number of parts of the reserve, which has 4,194,304 bytes in all.
const RESERVE_PARTS: u64 = 128;

/// What the devices of a live run share. `main` makes one and lends it to each of them. No contract speaks of
/// it: what a device gives is its own affair.
#[derive(Drop)]
pub struct Shared {
    /// Whether a write of the disk has failed, and the reserve wasn't filled since. While it is set, the loop
    /// holds back all inputs, and a read of a followed file gives no bytes.
    pub disk_failed: Cell<bool>,

    /// Within how many milliseconds of the last tick the followed files are to be read again, as the last
    /// reads of them say; 2^64 - 1 if none gave bytes.
    pub read_within: Cell<u64>,

    /// How many descriptors the followed files hold.
    pub held_files: Cell<usize>,

    /// Whether the loop was started. Before that, only files of the configuration and schedules are read.
    pub is_started: Cell<bool>,

    /// The log of the run.
    pub journal: Journal,

    /// The lock file of the storage folder, if the run has one. It stays open until the process ends.
    lock_file: Cell<Option<&'static File>>,
}

impl Shared {
    pub fn new(journal: Journal) -> Self {
        Shared {
            disk_failed: Cell::new(false),
            read_within: Cell::new(u64::MAX),
            held_files: Cell::new(0),
            is_started: Cell::new(false),
            journal,
            lock_file: Cell::new(None),
        }
    }

    /// Keeps the locked file open until the process ends. Fails only if memory is out.
    pub fn keep_lock(&self, alloc: Global, file: File) -> io::Result<()> {
        let kept: &'static File = Box::leak(Box::new(alloc, file)?);
        self.lock_file.set(Some(kept));
        Ok(())
    }

    /// Notes what can't be done with a file, and why, so that inputs are held back.
    pub fn note_failure(&self, what: &str, name: &[u8], reason: &impl Display) {
        if self.disk_failed.replace(true) {
            return;
        }
        if let Ok(name) = String::from_utf8_lossy(self.journal.alloc(), name) {
            let text = format_args!(
                "inputs are held back, as a write failed: {name} can't be {what}: {reason}"
            );
            log_pause(&self.journal, Level::Warn, &text);
        }
    }

    /// Gives the room of the reserve to a write that failed, which is noted. Returns whether there was any.
    pub fn release(&self, what: &str, name: &[u8], reason: &impl Display) -> bool {
        self.note_failure(what, name, reason);
        match self.lock_file.get() {
            Some(file) => matches!(empty_reserve(file), Ok(true)),
            None => false,
        }
    }

    /// Tries to fill the reserve, and lets inputs go on if that succeeds. Without a lock file there is none.
    pub fn probe(&self) {
        let filled = match self.lock_file.get() {
            Some(file) => fill_reserve(file).is_ok(),
            None => true,
        };
        if filled && self.disk_failed.replace(false) {
            log_pause(
                &self.journal,
                Level::Info,
                &"inputs go on, as there is room again",
            );
        }
    }
}

/// Writes a line on the storage to the log.
fn log_pause(journal: &Journal, level: Level, text: &impl Display) {
    journal.write(level, Source::Storage, Topic::Pause, text);
}

/// Writes the parts of the reserve that are missing, at least one, as far as the limit of the process on a
/// file's length lets it.
fn write_parts(file: &File) -> io::Result<()> {
    let part = [0; RESERVE_PART];
    let there = file.metadata()?.len() / RESERVE_PART as u64;
    for number in there.min(RESERVE_PARTS - 1)..RESERVE_PARTS {
        match file.write_all_at(&part, number.wrapping_mul(RESERVE_PART as u64)) {
            Err(error) if error.kind() == ErrorKind::FileTooLarge => break,
            outcome => outcome?,
        }
    }
    file.sync_all()
}

/// Fills the reserve, whose room a write can have that finds the disk full. If that fails, empties it.
pub fn fill_reserve(file: &File) -> io::Result<()> {
    let written = write_parts(file);
    if written.is_err() {
        file.set_len(0)?;
    }
    written
}

/// Empties the reserve. Returns whether it had any room.
fn empty_reserve(file: &File) -> io::Result<bool> {
    let had_room = file.metadata()?.len() != 0;
    file.set_len(0)?;
    file.sync_all()?;
    Ok(had_room)
}
