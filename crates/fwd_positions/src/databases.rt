//! The databases of a run, by their names.

ghost use Rattle.std.specs.Prelude.{◌<◌, ◌^◌, IfOk, IfSome, OnSome};
ghost use Rattle.fwd_positions.specs.Failures.{IsAnswer};

use crate::database::Database;
use crate::errors::DatabaseErr;
use crate::table::Kept;
use fwd_base::Memory;
use fwd_live_files::{Identities, KeptFile};
use fwd_log::Journal;

/// The databases, each opened at its first call.
#[derive(Drop)]
pub struct Databases<'a> {
    rt: HostRuntime,
    journal: &'a Journal,
    identities: &'a Identities,
    all: Vec<Database>,
}

/// Returns the value that a call gave; `None` if the database failed.
fn value_of<T>(outcome: Result<T, DatabaseErr>) -> Result<Option<T>, Memory>
    ensures { IsAnswer outcome result }
{
    match outcome {
        Ok(value) => Ok(Some(value)),
        Err(DatabaseErr::Failed(_)) => Ok(None),
        Err(DatabaseErr::Memory) => Err(Memory),
    }
}

impl<'a> Databases<'a> {
    ghost use Rattle.fwd_positions.specs.Databases.{HasNameAt};

    /// Returns no databases.
    pub fn new(rt: HostRuntime, journal: &'a Journal, identities: &'a Identities) -> Self {
        Databases {
            rt,
            journal,
            identities,
            all: Vec::new(rt.alloc()),
        }
    }

    /// Returns the index of the database of a name, if there is one.
    fn find(&self, name: &[u8]) -> Option<usize>
        ensures { IfSome result (HasNameAt name.now self.now.all.items) }
    {
        for (index, database) in self.all.iter().enumerate() {
            if database.name() == name {
                return Some(index);
            }
        }
        None
    }

    /// Returns the index of the database of a name, which is added if it is new.
    fn index_of(&mut self, name: &[u8]) -> Result<usize, Memory>
        ensures { IfOk result (HasNameAt name.now self.new.all.items) }
    {
        if let Some(index) = self.find(name) {
            return Ok(index);
        }
        let index = self.all.len();
        let name = Vec::from_slice(self.rt.alloc(), name)?;
        self.all.push(Database::new(name))?;
        Ok(index)
    }

    /// Wants the reading of a path to go on in the file of an offset, if that is known.
    fn want_file(&self, path: &[u8], kept: Kept) -> Result<(), Memory> {
        match kept.identity {
            Some(identity) => self.identities.want(
                self.rt.alloc(),
                path,
                KeptFile {
                    identity,
                    offset: kept.place,
                },
            ),
            None => Ok(()),
        }
    }

    /// Returns the offset of a path in a database; no value if the database failed. The reading of the path
    /// goes on in the file of that offset.
    pub fn get(&mut self, db: &[u8], path: &[u8]) -> Result<Option<Option<u64>>, Memory> {
        let index = self.index_of(db)?;
        match value_of(self.all[index].get(&self.rt, self.journal, path))? {
            Some(Some(kept)) => {
                self.want_file(path, kept)?;
                Ok(Some(Some(kept.place)))
            }
            Some(None) => Ok(Some(None)),
            None => Ok(None),
        }
    }

    /// Puts the offset of a path into a database, with the file that stands for the path; no value if the
    /// database failed.
    pub fn put(&mut self, db: &[u8], path: &[u8], place: u64) -> Result<Option<()>, Memory>
        ensures { IfOk result (λ put. OnSome put (place < 2 ^ 63)) }
    {
        let index = self.index_of(db)?;
        let kept = Kept {
            place,
            identity: self.identities.current(path),
        };
        value_of(self.all[index].put(&self.rt, self.journal, path, kept))
    }
}
