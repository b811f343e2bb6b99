//! Files by their names, as reads see them.

ghost use Rattle.std.specs.Prelude.{◌≡◌, [], ℕ, List, map, Some, None, OnOk, OnErr, MatchOption};
ghost use Rattle.fwd_outside.specs.File.{overwritten};
ghost use Rattle.fwd_disk_mem.specs.FileTable.{file_of, found, SetAt};

use crate::content::Content;
use fwd_outside::Memory;
use std::alloc::Global;
use std::collections::HashMap;
use std::marker::Model;

/// Files in a hash map by name.
#[derive(Drop)]
pub struct FileTable {
    files: HashMap<Vec<u8>, Content>,
}

impl Model for FileTable {
    ghost use Rattle.std.specs.Prelude.{List, map};
    ghost use Rattle.fwd_disk_mem.specs.FileTable.{MemFile};

    ghost Value = { List MemFile };

    ghost use Rattle.fwd_disk_mem.specs.FileTable.{file_of};

    ghost view = { λ t. map file_of t.files.entries };
}

impl FileTable {
    pub fn new(alloc: Global) -> Self
        ensures { result ≡ [] }
    {
        FileTable {
            files: HashMap::new(alloc),
        }
    }

    /// Returns the files with their names.
    pub fn files(&self) -> &HashMap<Vec<u8>, Content>
        ensures { map file_of result.now.entries ≡ self.now }
    {
        &self.files
    }

    /// Returns the bytes of a file.
    pub fn get(&self, name: &[u8]) -> Option<&[u8]>
        ensures { MatchOption result (found self.now name.now ≡ None) (λ bytes. found self.now name.now ≡ Some bytes.now) }
    {
        match self.files.get(name) {
            Some(content) => Some(content.as_slice()),
            None => None,
        }
    }

    /// Gives a file these bytes. `Err` leaves the files unchanged.
    pub fn put(&mut self, alloc: Global, name: &[u8], bytes: &[u8]) -> Result<(), Memory>
        ensures ok { OnOk result (SetAt self.old self.new name.now (Some bytes.now)) }
        ensures err { OnErr result (self.new ≡ self.old) }
    {
        let content = Content::from_slice(alloc, bytes)?;
        let name = Vec::from_slice(alloc, name)?;
        self.files.insert(name, content)?;
        Ok(())
    }

    /// Writes to an existing file. `Err` leaves the files unchanged.
    pub fn write(&mut self, name: &[u8], at: usize, bytes: &[u8]) -> Result<(), Memory>
        ensures ok { OnOk result ((old : List ℕ) → found self.old name.now ≡ Some old → SetAt self.old self.new name.now (Some (overwritten old at bytes.now))) }
        ensures absent { OnOk result (found self.old name.now ≡ None → self.new ≡ self.old) }
        ensures err { OnErr result (self.new ≡ self.old) }
    {
        let Some(content) = self.files.get_mut(name) else {
            return Ok(());
        };
        content.write(at, bytes)
    }

    /// Removes a file.
    pub fn remove_file(&mut self, name: &[u8])
        ensures { SetAt self.old self.new name.now None }
    {
        self.files.remove(name);
    }
}
