ghost use Rattle.std.specs.Prelude.{◌≡◌, ◌<◌, Some, OnOk, OnErr, IsErrOf, IsSome};
ghost use Rattle.std.specs.Option.{option_copied};
ghost use Rattle.std.specs.FinMap as map;
ghost use Rattle.fwd_outside.specs.Log.{RunsFallible};
ghost use Rattle.fwd_outside.specs.Cause.{HasCause};
ghost use Rattle.fwd_outside.specs.Disk.{disk_outcome};
ghost use Rattle.fwd_outside.specs.declared.errors.DiskErr.TheVariants.{Failed};
ghost use Rattle.fwd_chunk.specs.declared.kept.Kept.{Kept};
ghost use Rattle.fwd_chunk.specs.Kept.{appends, after_append, HasRoom};

use fwd_chunk::Kept;
use fwd_outside::{Disk, DiskErr, Memory};
use std::alloc::Global;
use std::collections::HashMap;
use std::marker::Model;

/// Chunks by number.
#[derive(Drop)]
pub struct ChunkMap {
    chunks: HashMap<u64, Kept>,
}

impl Model for ChunkMap {
    ghost use Rattle.std.specs.FinMap.{from_entries};
    ghost use Rattle.std.specs.HashMap.{spare};
    ghost use Rattle.fwd_store.specs.StoreState.{KeptMapWithRoom};
    ghost use Rattle.fwd_store.specs.Codes.{held_list_code};

    ghost Value = { KeptMapWithRoom };

    ghost coded = { held_list_code };

    ghost view = { λ c. record { list = from_entries c.chunks.entries; spare = spare c.chunks } };
}

impl ChunkMap {
    pub fn new(alloc: Global) -> Self
        ensures { result.list ≡ map.empty }
    {
        ChunkMap {
            chunks: HashMap::new(alloc),
        }
    }

    /// Returns the chunk of this number.
    pub fn get(&self, number: u64) -> Option<&Kept>
        ensures { option_copied result ≡ map.get self.now.list number }
    {
        self.chunks.get(&number)
    }

    /// Reserves room for one more chunk.
    pub fn reserve(&mut self) -> Result<(), Memory>
        ensures same { self.new.list ≡ self.old.list }
        ensures room { OnOk result (0 < self.new.spare) }
    {
        self.chunks.reserve(1)?;
        Ok(())
    }

    /// Inserts a chunk. There must be room for it.
    pub fn insert(&mut self, number: u64, kept: Kept)
        requires { 0 < self.old.spare }
        ensures { self.new.list ≡ map.insert self.old.list number kept }
    {
        let inserted: Result<_, _> = self.chunks.insert(number, kept);
        let _ = inserted.unwrap();
    }

    /// Removes a chunk.
    pub fn remove(&mut self, number: u64)
        ensures { self.new.list ≡ map.remove self.old.list number }
    {
        let _ = self.chunks.remove(&number);
    }

    /// Appends a batch to a chunk of the map. An error leaves the map unchanged.
    pub fn append<D: Disk>(
        &mut self,
        disk: &mut D,
        number: u64,
        batch: &[u8],
        full: bool,
    ) -> Result<(), DiskErr>
        requires held { IsSome (map.get self.old.list number) }
        requires room { (kept : Kept) → map.get self.old.list number ≡ Some kept → HasRoom kept batch.now }
        ensures calls { (kept : Kept) → map.get self.old.list number ≡ Some kept → RunsFallible (D.call_log disk.old) (D.call_log disk.new) (appends kept batch.now full) (disk_outcome result) }
        ensures ok { (kept : Kept) → map.get self.old.list number ≡ Some kept → OnOk result (self.new.list ≡ map.insert self.old.list number (after_append kept batch.now)) }
        ensures err { OnErr result (self.new.list ≡ self.old.list) }
        ensures cause { HasCause (D.faults disk.old) (D.faults disk.new) (IsErrOf result Failed) }
    {
        match self.chunks.get_mut(&number) {
            Some(kept) => kept.append(disk, batch, full),
            None => unreachable!(),
        }
    }
}
