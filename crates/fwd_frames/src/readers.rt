//! Line readers of streams, by number.

ghost use Rattle.std.specs.Prelude.{◌≡◌, ◌==◌, ◌++◌, ℕ, List, [], length, drop, IfOk, OnOk, OnErr, if◌then◌else◌};
ghost use Rattle.fwd_frames.specs.Lines.{kept, lines, last_line};
ghost use Rattle.fwd_frames.specs.Streams.{reader_state};

use crate::{Frames, Lines};
use fwd_base::Memory;
use std::alloc::Global;
use std::collections::BTreeMap;

/// The line readers of streams. A stream without one is at its beginning.
#[derive(Debug, Drop)]
pub struct Readers {
    readers: BTreeMap<u64, Frames>,
}

impl Readers {
    /// Creates a set in which all streams are at their beginnings.
    pub fn new(alloc: Global) -> Self
        ensures { (n : ℕ) → reader_state result n ≡ kept [] }
    {
        Readers {
            readers: BTreeMap::new(alloc),
        }
    }

    /// Takes the next bytes of a stream, and returns the lines that end in them. The others are unchanged;
    /// after `Memory` all are.
    pub fn feed(&mut self, alloc: Global, number: u64, piece: &[u8]) -> Result<Lines, Memory>
        ensures lines { (stream : List ℕ) → reader_state self.old number ≡ kept stream →
            IfOk result (λ given. given ≡ drop (length (lines stream)) (lines (stream ++ piece.now))) }
        ensures kept { (stream : List ℕ) → reader_state self.old number ≡ kept stream →
            OnOk result ((n : ℕ) → reader_state self.new n
            ≡ (if number == n then kept (stream ++ piece.now) else reader_state self.old n)) }
        ensures err { OnErr result ((n : ℕ) → reader_state self.new n ≡ reader_state self.old n) }
    {
        match self.readers.get_mut(&number) {
            Some(reader) => reader.feed(piece),
            None => {
                let mut reader = Frames::new(alloc);
                let lines = reader.feed(piece)?;
                self.readers.insert(number, reader)?;
                Ok(lines)
            }
        }
    }

    /// Ends a stream, and returns its rest as a last line, unless that is empty. The stream is then at its
    /// beginning. The others are unchanged; after `Memory` all are.
    pub fn finish(&mut self, alloc: Global, number: u64) -> Result<Lines, Memory>
        ensures last { (stream : List ℕ) → reader_state self.old number ≡ kept stream →
            IfOk result (λ given. given ≡ last_line stream) }
        ensures kept { OnOk result ((n : ℕ) → reader_state self.new n
            ≡ (if number == n then kept [] else reader_state self.old n)) }
        ensures err { OnErr result ((n : ℕ) → reader_state self.new n ≡ reader_state self.old n) }
    {
        match self.readers.get_mut(&number) {
            Some(reader) => {
                let lines = reader.finish()?;
                self.leave(number);
                Ok(lines)
            }
            None => Frames::new(alloc).finish(),
        }
    }

    /// Drops a stream and its rest: it is then at its beginning. The others are unchanged.
    pub fn leave(&mut self, number: u64)
        ensures { (n : ℕ) → reader_state self.new n
            ≡ (if number == n then kept [] else reader_state self.old n) }
    {
        self.readers.remove(&number);
    }
}
