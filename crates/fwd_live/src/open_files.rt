//! Files that are kept open, by their names.

ghost use Rattle.std.specs.Prelude.{◌≡◌, ◌≢◌, ◌≤◌, [], All, Contains, IfSome, OnOk};
ghost use Rattle.std.specs.Vec.{vec_len};

use fwd_outside::{Bytes, Memory};
use std::alloc::Global;
use std::fs::File;

/// An open file, with its name.
#[derive(Drop)]
struct OpenFile {
    name: Bytes,
    file: File,
}

/// Open files by their names, at most so many. If one more is kept, the one that was used longest ago is
/// closed.
#[derive(Drop)]
pub struct OpenFiles {
    /// The file that was used last is the last one.
    files: Vec<OpenFile>,
    most: usize,

    ghost bounded: { vec_len files ≤ most },
    ghost useful: { 1 ≤ most },
}

impl OpenFiles {
    ghost use Rattle.fwd_live.specs.OpenFiles.{HasNameAt};

    /// Returns the table with no file open. It keeps at most `most` files, and one if that is 0.
    pub fn new(alloc: Global, most: usize) -> Self {
        OpenFiles {
            files: Vec::new(alloc),
            most: most.max(1),
        }
    }

    /// Returns the index of the file with a name, if it is open.
    fn index_of(&self, name: &[u8]) -> Option<usize>
        ensures { IfSome result (HasNameAt name.now self.now.files.items) }
    {
        for (index, open) in self.files.iter().enumerate() {
            if open.name.as_slice() == name {
                return Some(index);
            }
        }
        None
    }

    /// Returns whether the file with a name is open.
    pub fn contains(&self, name: &[u8]) -> bool {
        self.index_of(name).is_some()
    }

    /// Returns the file with a name, which counts as used now. `None` if it isn't open.
    pub fn get(&mut self, name: &[u8]) -> Option<&File>
        ensures { IfSome result (λ file.
            Contains self.old.files.items (record { name = name.now; file = file.now })) }
    {
        let index = self.index_of(name)?;
        let open = self.files.remove(index);
        // The vector has room for it, as it was in it before.
        self.files.push(open).ok()?;
        Some(&self.files.last()?.file)
    }

    /// Keeps a file open, in place of one with its name. Fails only if memory is out; the file is then
    /// closed.
    pub fn keep(&mut self, name: Bytes, file: File) -> Result<(), Memory>
        ensures { OnOk result (Contains self.new.files.items (record { name = name; file = file })) }
    {
        self.close(name.as_slice());
        if self.most <= self.files.len() {
            let _oldest = self.files.remove(0);
        }
        self.files.push(OpenFile { name, file })?;
        Ok(())
    }

    /// Closes the file with a name, if it is open.
    pub fn close(&mut self, name: &[u8])
        ensures { All (λ it. it.name ≢ name.now) self.new.files.items }
    {
        self.files.retain(|open| open.name.as_slice() != name);
    }

    /// Closes all files.
    pub fn clear(&mut self)
        ensures { self.new.files.items ≡ [] }
    {
        self.files.clear();
    }
}
