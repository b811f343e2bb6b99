//! A database of offsets, by its name.

ghost use Rattle.std.specs.Prelude.{◌≡◌, ◌<◌, ◌^◌, false, IsSome, OnOk, OnErr};

use crate::errors::{DatabaseErr, Failure};
use crate::messages::{log_failure, log_recovery};
use crate::table::{Kept, Opened, find_kept, open, text, upsert_kept};
use fwd_log::Journal;
use std::time::{Duration, Instant};

/// The seconds after which opening a database that failed is tried again.
const RETRY_SECONDS: u64 = 5;

/// A database by its name. It is open, or is opened at its next call.
#[derive(Drop)]
pub struct Database {
    name: Vec<u8>,
    opened: Option<Opened>,
    /// When opening it was last tried.
    tried: Option<Instant>,
    /// Whether the last line of the log about it is on a failure.
    is_failure_logged: bool,
}

impl Database {
    ghost use Rattle.fwd_positions.specs.Failures.{opened_after};

    /// Returns the database of a name. It isn't open.
    pub fn new(name: Vec<u8>) -> Self
        ensures { result ≡ record { name = name; opened = None; tried = None; is_failure_logged = false } }
    {
        Database {
            name,
            opened: None,
            tried: None,
            is_failure_logged: false,
        }
    }

    /// Returns the name.
    pub fn name(&self) -> &[u8]
        ensures { result.now ≡ self.entry.now.name.items }
    {
        self.name.as_slice()
    }

    /// Opens the database if it isn't open, but not within `RETRY_SECONDS` of the last try.
    fn ensure_open(&mut self, rt: &HostRuntime) -> Result<(), DatabaseErr>
        ensures opened { OnOk result (IsSome self.new.opened) }
        ensures closed { OnErr result (self.new.opened ≡ None) }
    {
        if self.opened.is_some() {
            return Ok(());
        }
        let Ok(now) = Instant::now(rt) else {
            return Err(DatabaseErr::Failed(Failure::Clock));
        };
        if let Some(tried) = self.tried {
            if now.duration_since(tried) < Duration::from_secs(RETRY_SECONDS) {
                return Err(DatabaseErr::Failed(Failure::Waiting));
            }
        }
        self.tried = Some(now);
        self.opened = Some(open(rt, &self.name)?);
        Ok(())
    }

    fn try_get(&mut self, rt: &HostRuntime, path: &[u8]) -> Result<Option<Kept>, DatabaseErr> {
        self.ensure_open(rt)?;
        match &mut self.opened {
            Some(opened) => find_kept(rt, opened, text(path, Failure::Path)?),
            None => unreachable!(),
        }
    }

    fn try_put(&mut self, rt: &HostRuntime, path: &[u8], kept: Kept) -> Result<(), DatabaseErr>
        ensures { OnOk result (kept.place < 2 ^ 63) }
    {
        self.ensure_open(rt)?;
        match &mut self.opened {
            Some(opened) => upsert_kept(opened, text(path, Failure::Path)?, kept),
            None => unreachable!(),
        }
    }

    /// Has the log say that the database fails, if its last line doesn't.
    fn note_failure(&mut self, journal: &Journal, failure: Failure)
        ensures { self.new ≡ record self.old { is_failure_logged = self.new.is_failure_logged } }
    {
        if !self.is_failure_logged && failure != Failure::Waiting {
            self.is_failure_logged = log_failure(journal, &self.name, failure);
        }
    }

    /// Has the log say that the database works again, if its last line is on a failure.
    fn note_recovery(&mut self, journal: &Journal)
        ensures { self.new ≡ record self.old { is_failure_logged = self.new.is_failure_logged } }
    {
        if self.is_failure_logged {
            self.is_failure_logged = !log_recovery(journal, &self.name);
        }
    }

    /// Closes the database if a call on it has failed. The log says so, and says when it works again.
    fn note<T>(&mut self, journal: &Journal, outcome: &Result<T, DatabaseErr>)
        ensures closed { self.new.opened ≡ opened_after outcome.now self.old.opened }
        ensures name { self.new.name ≡ self.old.name }
    {
        match outcome {
            Ok(_) => self.note_recovery(journal),
            Err(DatabaseErr::Failed(failure)) => {
                self.opened = None;
                self.note_failure(journal, *failure);
            }
            Err(DatabaseErr::Memory) => {}
        }
    }

    /// Returns what is kept for a path; `None` if nothing is.
    pub fn get(
        &mut self,
        rt: &HostRuntime,
        journal: &Journal,
        path: &[u8],
    ) -> Result<Option<Kept>, DatabaseErr> {
        let outcome = self.try_get(rt, path);
        self.note(journal, &outcome);
        outcome
    }

    /// Puts what is kept for a path.
    pub fn put(
        &mut self,
        rt: &HostRuntime,
        journal: &Journal,
        path: &[u8],
        kept: Kept,
    ) -> Result<(), DatabaseErr>
        ensures { OnOk result (kept.place < 2 ^ 63) }
    {
        let outcome = self.try_put(rt, path, kept);
        self.note(journal, &outcome);
        outcome
    }
}
