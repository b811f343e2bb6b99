//! The open chunks.

ghost use Rattle.std.specs.Prelude.{◌≡◌, ℕ, ◌==◌, ◌&&◌, ◌<◌, ◌≤◌, ◌++◌, not, [], ◌∷◌, All, drop, map, OnOk, None};
ghost use Rattle.std.specs.Hash as fed;
ghost use Rattle.std.specs.Str.{bytes_eq};
ghost use Rattle.indexmap.specs.IndexMap.{index_map_len, spare};
ghost use Rattle.fwd_store.specs.OpenChunk.{open_for, without, first_of, NumbersRise};
ghost use Rattle.fwd_store.specs.Source.{opened_at};
ghost use Rattle.fwd_store.specs.SameSource.{same};

use fwd_base::{InputId, Memory};
use indexmap::{Equivalent, IndexMap};
use std::alloc::Global;
use std::marker::Model;

/// What a chunk is open for: an input and a tag.
#[derive(Debug, Drop, PartialEq, Eq, Hash)]
pub struct Source {
    pub input: InputId,
    pub tag: Vec<u8>,
}

impl Source {
    fn is_for(&self, input: InputId, tag: &[u8]) -> bool
        ensures { result ≡ (input.0 == self.now.input.0) && bytes_eq tag.now self.now.tag.items }
    {
        input == self.input && tag == self.tag.as_slice()
    }
}

/// A `Source` with a borrowed tag, for lookups.
#[derive(Clone, Copy, PartialEq, Eq, Hash)]
struct SourceRef<'a> {
    input: InputId,
    tag: &'a [u8],
}

impl<'a> Equivalent<Source> for SourceRef<'a> {
    ghost equivalent = { λ r s. (r.input.0 == s.input.0) && bytes_eq r.tag.now s.tag.items };

    ghost respects_hash = { λ r s. same (λ input tag. fed.u32 input ++ fed.slice fed.u8 tag) r.input.0 s.input.0 r.tag.now s.tag.items };

    ghost respects_eq = { λ r s t. same (λ input tag. (input == t.input.0) && bytes_eq tag t.tag.items) r.input.0 s.input.0 r.tag.now s.tag.items };

    fn equivalent(&self, key: &Source) -> bool {
        key.is_for(self.input, self.tag)
    }
}

/// The open chunks by input and tag, in the order of opening. Their numbers rise.
///
/// The first `closed` entries are closed already. They are removed together once they are about half of all
/// entries, so closing all chunks in their order takes linear time.
#[derive(Drop)]
pub struct OpenChunks {
    chunks: IndexMap<Source, u64>,
    closed: usize,
}

impl Model for OpenChunks {
    ghost use Rattle.std.specs.Prelude.{ℕ, ◌≤◌, map, drop};
    ghost use Rattle.indexmap.specs.IndexMap.{index_map_len, spare};
    ghost use Rattle.fwd_store.specs.OpenChunk.{OpenList, NumbersRise};

    ghost Value = { OpenList };

    ghost use Rattle.fwd_store.specs.Source.{opened_at};

    ghost view = { λ o. record { list = map opened_at (drop o.closed o.chunks.entries); spare = spare o.chunks } };

    ghost invariant = { λ o. (o.closed ≤ index_map_len o.chunks) × NumbersRise (map opened_at (drop o.closed o.chunks.entries)) };
}

/// Removes the first `closed` entries.
fn forget(chunks: &mut IndexMap<Source, u64>, closed: &mut usize)
    requires { closed.old ≤ index_map_len chunks.old }
    ensures none { closed.new ≡ 0 }
    ensures others { chunks.new.entries ≡ drop closed.old chunks.old.entries }
    ensures room { spare chunks.old ≤ spare chunks.new }
{
    drop(chunks.drain(..*closed));
    *closed = 0;
}

/// Removes the first `closed` entries if they are about half of all entries, or more.
fn forget_half(chunks: &mut IndexMap<Source, u64>, closed: &mut usize)
    requires { closed.old ≤ index_map_len chunks.old }
    ensures within { closed.new ≤ index_map_len chunks.new }
    ensures others { drop closed.new chunks.new.entries ≡ drop closed.old chunks.old.entries }
{
    if *closed >= chunks.len() / 2 {
        forget(chunks, closed);
    }
}

/// Removes the first `closed` entries if one of them has this source. No other entry has it.
fn forget_source(chunks: &mut IndexMap<Source, u64>, closed: &mut usize, source: &Source)
    requires within { closed.old ≤ index_map_len chunks.old }
    requires new { open_for (map opened_at (drop closed.old chunks.old.entries)) source.now.input.0 source.now.tag.items ≡ None }
    ensures new { open_for (map opened_at chunks.new.entries) source.now.input.0 source.now.tag.items ≡ None }
    ensures within { closed.new ≤ index_map_len chunks.new }
    ensures others { drop closed.new chunks.new.entries ≡ drop closed.old chunks.old.entries }
    ensures room { spare chunks.old ≤ spare chunks.new }
{
    if chunks.contains_key(source) {
        forget(chunks, closed);
    }
}

impl OpenChunks {
    pub fn new(alloc: Global) -> Self
        ensures { result.list ≡ [] }
    {
        OpenChunks {
            chunks: IndexMap::new(alloc),
            closed: 0,
        }
    }

    /// Returns the open chunk of this source.
    pub fn get(&self, source: &Source) -> Option<u64>
        ensures { result ≡ open_for self.now.list source.now.input.0 source.now.tag.items }
    {
        self.find(source.input, source.tag.as_slice())
    }

    /// Returns the chunk that is open for this input and tag. It allocates nothing.
    pub fn find(&self, input: InputId, tag: &[u8]) -> Option<u64>
        ensures { result ≡ open_for self.now.list input.0 tag.now }
    {
        // The length is what says that no two entries have one source.
        let _len = self.chunks.len();
        let (index, _, number) = self.chunks.get_full(SourceRef { input, tag })?;
        if index < self.closed {
            return None;
        }
        Some(*number)
    }

    /// Reserves room for one more chunk.
    pub fn reserve(&mut self) -> Result<(), Memory>
        ensures same { self.new.list ≡ self.old.list }
        ensures room { OnOk result (0 < self.new.spare) }
    {
        self.chunks.reserve(1)?;
        Ok(())
    }

    /// Appends a new chunk. There must be room for it, and its number must be above the others.
    pub fn push(&mut self, source: Source, chunk: u64)
        requires room { 0 < self.old.spare }
        requires new { open_for self.old.list source.input.0 source.tag.items ≡ None }
        requires numbers_rise { All (λ o. o.chunk < chunk) self.old.list }
        ensures { self.new.list ≡ self.old.list ++ record { input = source.input.0; tag = source.tag.items; chunk = chunk } ∷ [] }
    {
        forget_source(&mut self.chunks, &mut self.closed, &source);
        let inserted: Result<_, _> = self.chunks.insert(source, chunk);
        let _ = inserted.unwrap();
    }

    /// Removes the chunk of this number. Its cost is constant for the first open chunk, and for a number
    /// below it.
    pub fn close(&mut self, chunk: u64)
        ensures { self.new.list ≡ without chunk self.old.list }
    {
        self.numbers_rise();
        match self.first() {
            Some(first) => {
                if first == chunk {
                    self.close_first();
                } else if first < chunk {
                    self.remove_entry(chunk);
                }
            }
            None => {}
        }
    }

    /// Returns the number of the chunk that was opened first.
    pub fn first(&self) -> Option<u64>
        ensures { result ≡ first_of self.now.list }
    {
        let (_, chunk) = self.chunks.get_index(self.closed)?;
        Some(*chunk)
    }

    // The numbers rise.
    fn numbers_rise(&self)
        ensures { NumbersRise self.now.list }
    {
        let _ = &self.closed;
    }

    // Counts the first open entry as closed, if there is one.
    fn close_first(&mut self)
        ensures { self.new.list ≡ drop 1 self.old.list }
    {
        if self.closed == self.chunks.len() {
            return;
        }
        self.closed += 1;
        forget_half(&mut self.chunks, &mut self.closed);
    }

    // Removes the chunk of this number by a pass over all entries.
    fn remove_entry(&mut self, chunk: u64)
        ensures { self.new.list ≡ without chunk self.old.list }
    {
        forget(&mut self.chunks, &mut self.closed);
        self.chunks.retain(
            |_source: &Source, number: &mut u64| -> bool
                ensures { (result ≡ not (number.old == chunk)) × (number.new ≡ number.old) }
            { *number != chunk },
        );
    }
}
