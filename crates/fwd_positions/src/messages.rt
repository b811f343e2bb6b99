//! What the log says of databases of offsets.

use crate::errors::Failure;
use fwd_log::{Journal, Level, Source, Topic};
use std::fmt::Display;

/// Writes a line on a database, unless one on any database was written a moment ago. Returns whether it did.
fn log(journal: &Journal, level: Level, text: &impl Display) -> bool {
    let is_due = journal.is_due(Source::Files, Topic::Pause);
    if is_due {
        journal.write(level, Source::Files, Topic::Pause, text);
    }
    is_due
}

/// Says that offsets aren't kept in a database, and why. Returns false if that has to be said later.
pub fn log_failure(journal: &Journal, name: &[u8], failure: Failure) -> bool {
    match String::from_utf8_lossy(journal.alloc(), name) {
        Ok(name) => {
            let text = format_args!("offsets of followed files aren't kept in {name}: {failure}");
            log(journal, Level::Error, &text)
        }
        Err(_) => false,
    }
}

/// Says that offsets are kept in a database again. Returns false if that has to be said later.
pub fn log_recovery(journal: &Journal, name: &[u8]) -> bool {
    match String::from_utf8_lossy(journal.alloc(), name) {
        Ok(name) => {
            let text = format_args!("offsets of followed files are kept in {name} again");
            log(journal, Level::Info, &text)
        }
        Err(_) => false,
    }
}
