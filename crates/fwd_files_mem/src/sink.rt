//! A sink in memory.

ghost use Rattle.std.specs.Prelude.{◌≡◌, List, [], ◌∷◌, ◌++◌, OnOk, OnErr, IsErrOf};
ghost use Rattle.std.specs.Ordering.{nat_cmp};
ghost use Rattle.std.specs.BTreeSet.{insert_key};
ghost use Rattle.fwd_outside.specs.Log.{LogGrew};
ghost use Rattle.fwd_outside.specs.Cause.{HasCause};
ghost use Rattle.fwd_outside.specs.declared.errors.SinkErr.TheVariants.{Failed};
ghost use Rattle.fwd_outside.specs.Sink.{SinkEntry, LogsWrite, written};
ghost use Rattle.fwd_files_mem.specs.MemSink.{Answered, entries_of, note_of, told_of};

use fwd_base::{Bytes, Memory};
use fwd_outside::{Sink, SinkErr};
use std::alloc::Global;
use std::collections::BTreeSet;
use std::marker::Model;

/// A write to a sink in memory.
#[derive(Debug, Drop)]
pub struct SinkNote {
    /// The bytes of the write.
    pub piece: Bytes,
    /// Whether all of the bytes were written; if not, none were.
    pub written: bool,
}

/// A sink in memory that records its writes.
#[derive(Debug, Drop)]
pub struct MemSink {
    alloc: Global,
    bytes: Bytes,
    notes: Vec<SinkNote>,
    fails: BTreeSet<u64>,
    faults: u64,
}

impl Model for MemSink {
    ghost use Rattle.std.specs.Prelude.{◌≡◌};
    ghost use Rattle.fwd_outside.specs.Sink.{written};
    ghost use Rattle.fwd_files_mem.specs.SinkState.{SinkState};

    ghost Value = { SinkState };

    ghost view = { λ s. record { notes = s.notes.items; fails = s.fails.keys; faults = s.faults } };

    ghost use Rattle.fwd_files_mem.specs.MemSink.{entries_of};

    ghost invariant = { λ s. s.bytes ≡ written (entries_of s.notes.items) };
}

impl MemSink {
    /// Returns an empty sink without faults.
    pub fn new(alloc: Global) -> Self
        ensures { result ≡ record { notes = []; fails = []; faults = 0 } }
    {
        MemSink {
            alloc,
            bytes: Bytes::new(alloc),
            notes: Vec::new(alloc),
            fails: BTreeSet::new(alloc),
            faults: 0,
        }
    }

    /// Returns all bytes written, in order.
    pub fn bytes(&self) -> &Bytes
        ensures { result.now ≡ written (entries_of self.entry.now.notes) }
    {
        &self.bytes
    }

    /// Makes the write of this number fail. Writes are counted from 1. `Err` leaves the sink unchanged.
    pub fn fail_at(&mut self, call: u64) -> Result<(), Memory>
        ensures ok { OnOk result (self.new ≡ record self.old { fails = insert_key nat_cmp self.old.fails call }) }
        ensures err { OnErr result (self.new ≡ self.old) }
    {
        self.fails.insert(call)?;
        Ok(())
    }
}

impl Sink for MemSink {
    ghost faults = { λ s. s.faults };

    ghost call_log = { told_of };

    fn write(&mut self, bytes: &[u8]) -> Result<(), SinkErr>
        ensures answer { Answered result bytes.now self.old self.new }
        ensures call_log { (entries : List SinkEntry) × LogsWrite bytes.now result entries × LogGrew (told_of self.old) (told_of self.new) entries }
        ensures cause { HasCause self.old.faults self.new.faults (IsErrOf result Failed) }
    {
        let number = self.notes.len() as u64 + 1;
        let piece = Bytes::from_slice(self.alloc, bytes)?;
        if self.fails.contains(&number) {
            note_write(&mut self.notes, piece, false)?;
            self.faults = self.faults.saturating_add(1);
            return Err(SinkErr::Failed);
        }
        let before = self.bytes.len();
        self.bytes.extend_from_slice(bytes)?;
        if let Err(memory) = note_write(&mut self.notes, piece, true) {
            self.bytes.truncate(before);
            return Err(memory.into());
        }
        Ok(())
    }
}

fn note_write(notes: &mut Vec<SinkNote>, piece: Bytes, written: bool) -> Result<(), Memory>
    ensures ok { OnOk result (notes.new.items ≡ notes.old.items ++ note_of piece written ∷ []) }
    ensures err { OnErr result (notes.new.items ≡ notes.old.items) }
{
    notes.push(SinkNote { piece, written })?;
    Ok(())
}
