//! What the log says of failed calls on files.

use crate::shared::Shared;
use fwd_log::{Journal, Level, Source, Topic};
use std::io::{self, ErrorKind};

/// Writes a line on a call that failed.
fn write_failure(journal: &Journal, what: &str, name: &[u8], error: &io::Error) {
    if !journal.writes(Level::Error) {
        return;
    }
    if let Ok(name) = String::from_utf8_lossy(journal.alloc(), name) {
        let text = format_args!("{name} can't be {what}: {error}");
        journal.write(Level::Error, Source::Storage, Topic::File, &text);
    }
}

/// Writes a line if the storage folder can't be locked.
pub fn log_unlocked(journal: &Journal, folder: &[u8], outcome: &io::Result<()>) {
    match outcome {
        Ok(()) => {}
        Err(error) if error.kind() == ErrorKind::WouldBlock => {
            write_failure(journal, "locked, as another run has it", folder, error);
        }
        Err(error) => write_failure(journal, "locked", folder, error),
    }
}

/// Writes a line if a call failed.
pub fn log_failure<T>(journal: &Journal, what: &str, name: &[u8], outcome: &io::Result<T>) {
    match outcome {
        Ok(_) => {}
        Err(error) => write_failure(journal, what, name, error),
    }
}

/// Returns what a call gave; `None` if it failed, and the log says so.
pub fn ok_or_log<T>(
    journal: &Journal,
    what: &str,
    name: &[u8],
    outcome: io::Result<T>,
) -> Option<T> {
    log_failure(journal, what, name, &outcome);
    outcome.ok()
}

/// Returns what a call gave that writes; `None` if it failed. The log says so then, and inputs are held back.
pub fn ok_or_hold<T>(
    shared: &Shared,
    what: &str,
    name: &[u8],
    outcome: io::Result<T>,
) -> Option<T> {
    match outcome {
        Ok(value) => Some(value),
        Err(error) => {
            write_failure(&shared.journal, what, name, &error);
            shared.note_failure(what, name, &error);
            None
        }
    }
}

/// Writes a line if a followed file, or a file of the configuration, can't be read.
pub fn log_unread<T>(journal: &Journal, path: &[u8], outcome: &io::Result<T>) {
    let error = match outcome {
        Ok(_) => return,
        Err(error) => error,
    };
    if let Ok(path) = String::from_utf8_lossy(journal.alloc(), path) {
        let text = format_args!("{path} can't be read: {error}");
        journal.write(Level::Warn, Source::Files, Topic::File, &text);
    }
}
