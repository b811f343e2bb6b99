//! A keeper of offsets over databases.

ghost use Rattle.std.specs.Prelude.{◌≡◌, [], Some, IsErrOf};
ghost use Rattle.fwd_outside.specs.Cause.{HasCause};
ghost use Rattle.fwd_keeper.specs.Keeper.{KeeperGiven, outcome};
ghost use Rattle.fwd_keeper.specs.declared.errors.KeepErr.TheVariants.{Failed};

use crate::databases::Databases;
use crate::keeper_log::KeeperCalls;
use fwd_keeper::{KeepErr, Keeper};
use fwd_live_files::Identities;
use fwd_log::Journal;

/// Offsets in databases, one file for each. A file is opened at its first call and held until the end, or
/// until it fails. No other process can open it meanwhile.
#[derive(Drop)]
pub struct SqliteKeeper<'a> {
    databases: Databases<'a>,
    faults: u64,
    calls: KeeperCalls,
}

impl<'a> SqliteKeeper<'a> {
    /// Returns a keeper on which no call was made. It logs failures of databases in the journal, puts each
    /// offset with the file that stands for its path, and wants the reading of a path to go on in the file of
    /// the offset that it gets. The caller picks the first offsets.
    pub fn new(rt: HostRuntime, journal: &'a Journal, identities: &'a Identities) -> Self
        ghost given: { KeeperGiven }
        ensures { (result.calls.given ≡ given) × (result.calls.entries ≡ []) }
    {
        SqliteKeeper {
            databases: Databases::new(rt, journal, identities),
            faults: 0,
            calls: KeeperCalls::new(),
        }
    }

    /// Returns what a call gave, or the failure, which it counts.
    fn result_of<T>(&mut self, answer: Option<T>) -> Result<T, KeepErr>
        ensures outcome { outcome result ≡ Some answer }
        ensures cause { HasCause self.old.faults self.new.faults (IsErrOf result Failed) }
        ensures calls { self.new.calls ≡ self.old.calls }
    {
        match answer {
            Some(value) => Ok(value),
            None => {
                self.faults = self.faults.saturating_add(1);
                Err(KeepErr::Failed)
            }
        }
    }
}

impl<'a> Keeper for SqliteKeeper<'a> {
    ghost faults = { λ keeper. keeper.faults };

    ghost call_log = { λ keeper. Some (keeper.calls.given, keeper.calls.entries) };

    fn get(&mut self, db: &[u8], path: &[u8]) -> Result<Option<u64>, KeepErr> {
        let Ok(kept) = self.databases.get(db, path) else {
            return Err(KeepErr::Memory);
        };
        self.calls = self.calls.then(&(db, path, kept));
        self.result_of(kept)
    }

    fn put(&mut self, db: &[u8], path: &[u8], place: u64) -> Result<(), KeepErr> {
        let Ok(put) = self.databases.put(db, path, place) else {
            return Err(KeepErr::Memory);
        };
        self.calls = self.calls.then(&(db, path, place, put));
        self.result_of(put)
    }
}
