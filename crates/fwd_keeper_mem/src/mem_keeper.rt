//! A keeper of offsets in memory.

ghost use Rattle.std.specs.Prelude.{◌≡◌, ℕ, ◌+◌, List, [], ◌∷◌, ◌++◌, Bool, IsErrOf, IfOk, OnOk, OnErr, Some};
ghost use Rattle.fwd_outside.specs.Log.{LogGrew, log_of_call};
ghost use Rattle.fwd_outside.specs.Cause.{HasCause};
ghost use Rattle.fwd_keeper.specs.Keeper as keeper;
ghost use Rattle.fwd_keeper.specs.Keeper.{KeeperGiven, IsConsistentLog, outcome};
ghost use Rattle.fwd_keeper.specs.declared.errors.KeepErr.TheVariants.{Failed};
ghost use Rattle.fwd_keeper_mem.specs.KeeperAnswers.{IsPlayed, answer_after};
ghost use Rattle.fwd_keeper_mem.specs.MemKeeper.{Answered, entries_of, log_of, offsets_by, offsets_now, with_note, works_now};
ghost use Rattle.fwd_keeper_mem.specs.Offsets.{SameOffsets};
ghost use Rattle.fwd_keeper_mem.specs.declared.mem_keeper.KeeperNote.TheVariants as note;

use crate::offsets::{Offset, copy_of, offset_of, set};
use fwd_base::{Bytes, Memory};
use fwd_keeper::{KeepErr, Keeper};
use std::alloc::Global;
use std::collections::BTreeSet;
use std::marker::Model;

/// An entry of the record of a keeper in memory: a call with its answer, or a setting.
#[derive(Debug, Drop)]
pub enum KeeperNote {
    /// A get. `None` if it failed.
    Get {
        db: Bytes,
        path: Bytes,
        place: Option<Option<u64>>,
    },
    /// A put. `None` if it failed.
    Put {
        db: Bytes,
        path: Bytes,
        place: u64,
        done: Option<()>,
    },
    /// The call of this number fails. Calls are counted from 1.
    FailAt {
        call: u64,
    },
}

/// A keeper in memory that records its calls.
#[derive(Debug, Drop)]
pub struct MemKeeper {
    alloc: Global,
    given: Vec<Offset>,
    current: Vec<Offset>,
    notes: Vec<KeeperNote>,
    calls: u64,
    fails: BTreeSet<u64>,
    faults: u64,
}

impl Model for MemKeeper {
    ghost use Rattle.fwd_keeper_mem.specs.KeeperState.{KeeperState};

    ghost Value = { KeeperState };

    ghost view = { λ m. record { given = m.given.items; notes = m.notes.items; faults = m.faults } };

    ghost use Rattle.fwd_keeper_mem.specs.MemKeeper.{IsKept};

    ghost invariant = { λ m. IsKept m.given.items m.current.items m.notes.items m.calls m.fails.keys };
}

/// Changes the offsets as a note says: a put that was done sets one. `Err` leaves them unchanged.
fn apply(alloc: Global, offsets: &mut Vec<Offset>, note: &KeeperNote) -> Result<(), Memory>
    ensures ok { OnOk result (SameOffsets offsets.new.items (offsets_by offsets.old.items note.now)) }
    ensures err { OnErr result (offsets.new.items ≡ offsets.old.items) }
{
    match note {
        KeeperNote::Put {
            db,
            path,
            place,
            done,
        } => match done {
            Some(_) => set(alloc, offsets, db.as_slice(), path.as_slice(), *place),
            None => Ok(()),
        },
        KeeperNote::Get { .. } | KeeperNote::FailAt { .. } => Ok(()),
    }
}

impl MemKeeper {
    /// Returns a keeper without offsets and faults.
    pub fn new(alloc: Global) -> Self
        ensures { result ≡ record { given = []; notes = []; faults = 0 } }
    {
        MemKeeper {
            alloc,
            given: Vec::new(alloc),
            current: Vec::new(alloc),
            notes: Vec::new(alloc),
            calls: 0,
            fails: BTreeSet::new(alloc),
            faults: 0,
        }
    }

    /// An honest keeper with the same first offsets may give the answers that this one gave.
    pub fn is_honest(&self)
        ensures { IsConsistentLog self.now.given [] (entries_of self.now.notes) }
    {
        let _ = &self.alloc;
    }

    /// Each answer is a function of the first offsets, the calls before it and the numbers that are to fail.
    pub fn is_played(&self)
        ensures { IsPlayed self.now.given [] (entries_of self.now.notes) }
    {
        let _ = &self.alloc;
    }

    /// Makes the call of this number fail. Calls are counted from 1. `Err` leaves the keeper unchanged.
    pub fn fail_at(&mut self, call: u64) -> Result<(), Memory>
        ensures ok { OnOk result (self.new ≡ with_note self.old (note.FailAt call)) }
        ensures err { OnErr result (self.new ≡ self.old) }
    {
        self.notes.reserve(1)?;
        self.fails.insert(call)?;
        self.notes.push_reserved(KeeperNote::FailAt { call });
        Ok(())
    }

    /// Returns a keeper of the same offsets, without calls, faults and failures to come.
    pub fn renewed(&self, alloc: Global) -> Result<MemKeeper, Memory>
        ensures same { IfOk result (λ renewed. SameOffsets (offsets_now self.now.given self.now.notes) renewed.given) }
        ensures notes { IfOk result (λ renewed. renewed.notes ≡ []) }
        ensures faults { IfOk result (λ renewed. renewed.faults ≡ 0) }
    {
        Ok(MemKeeper {
            alloc,
            given: copy_of(alloc, &self.current)?,
            current: copy_of(alloc, &self.current)?,
            notes: Vec::new(alloc),
            calls: 0,
            fails: BTreeSet::new(alloc),
            faults: 0,
        })
    }

    /// Whether the next call isn't to fail.
    fn works(&self) -> bool
        ensures { result ≡ works_now self.now }
    {
        !self.fails.contains(&(self.calls + 1))
    }

    /// Returns the answer to a get; `None` if it fails.
    fn place(&self, db: &[u8], path: &[u8]) -> Option<Option<u64>>
        ensures { result ≡ answer_after self.now.given (entries_of self.now.notes) (keeper.Get db.now path.now) }
    {
        if self.works() {
            Some(offset_of(&self.current, db, path))
        } else {
            None
        }
    }

    /// Returns the answer to a put; `None` if it fails.
    fn done(&self, db: &[u8], path: &[u8], place: u64) -> Option<()>
        ensures { result ≡ answer_after self.now.given (entries_of self.now.notes) (keeper.Put db.now path.now place) }
    {
        if self.works() { Some(()) } else { None }
    }
}

impl Keeper for MemKeeper {
    ghost faults = { λ m. m.faults };

    ghost call_log = { log_of };

    fn get(&mut self, db: &[u8], path: &[u8]) -> Result<Option<u64>, KeepErr>
        ensures answer { Answered result (answer_after self.old.given (entries_of self.old.notes) (keeper.Get db.now path.now)) (note.Get db.now path.now) self.old self.new }
        ensures call_log { LogGrew (log_of self.old) (log_of self.new) (log_of_call (keeper.Get db.now path.now) (outcome result)) }
        ensures cause { HasCause self.old.faults self.new.faults (IsErrOf result Failed) }
    {
        let answer = self.place(db, path);
        let db = Bytes::from_slice(self.alloc, db)?;
        let path = Bytes::from_slice(self.alloc, path)?;
        self.notes.push(KeeperNote::Get {
            db,
            path,
            place: answer,
        })?;
        self.calls += 1;
        match answer {
            Some(place) => Ok(place),
            None => {
                self.faults = self.faults.saturating_add(1);
                Err(KeepErr::Failed)
            }
        }
    }

    fn put(&mut self, db: &[u8], path: &[u8], place: u64) -> Result<(), KeepErr>
        ensures answer { Answered result (answer_after self.old.given (entries_of self.old.notes) (keeper.Put db.now path.now place)) (note.Put db.now path.now place) self.old self.new }
        ensures call_log { LogGrew (log_of self.old) (log_of self.new) (log_of_call (keeper.Put db.now path.now place) (outcome result)) }
        ensures cause { HasCause self.old.faults self.new.faults (IsErrOf result Failed) }
    {
        let answer = self.done(db, path, place);
        let db = Bytes::from_slice(self.alloc, db)?;
        let path = Bytes::from_slice(self.alloc, path)?;
        let note = KeeperNote::Put {
            db,
            path,
            place,
            done: answer,
        };
        self.notes.reserve(1)?;
        apply(self.alloc, &mut self.current, &note)?;
        self.notes.push_reserved(note);
        self.calls += 1;
        match answer {
            Some(done) => Ok(done),
            None => {
                self.faults = self.faults.saturating_add(1);
                Err(KeepErr::Failed)
            }
        }
    }
}
