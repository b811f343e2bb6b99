//! Which files stand for followed paths, shared by those who read them and those who keep offsets in them.

use crate::identity::Identity;
use fwd_base::Memory;
use std::alloc::Global;
use std::cell::RefCell;
use std::collections::HashMap;

/// A file with an offset in it that was kept.
#[derive(Clone, Copy, Debug, PartialEq, Eq)]
pub struct KeptFile {
    pub identity: Identity,
    pub offset: u64,
}

/// The identities of followed files, by path. `main` makes one, and lends it to the followed files and to the
/// keeper of their offsets. What it has is in cells; no contract speaks of it.
#[derive(Drop)]
pub struct Identities {
    /// The file that stands for a path, if a handle of it is held.
    current: RefCell<HashMap<Vec<u8>, Identity>>,
    /// The file in which the reading of a path is to go on, until the path is first asked for.
    wanted: RefCell<HashMap<Vec<u8>, KeptFile>>,
}

impl Identities {
    /// Returns the identities of no files.
    pub fn new(alloc: Global) -> Self {
        Identities {
            current: RefCell::new(HashMap::new(alloc)),
            wanted: RefCell::new(HashMap::new(alloc)),
        }
    }

    /// Wants the reading of a path to go on in a file.
    pub fn want(&self, alloc: Global, path: &[u8], file: KeptFile) -> Result<(), Memory> {
        let path = Vec::from_slice(alloc, path)?;
        if let Ok(mut wanted) = self.wanted.try_borrow_mut() {
            wanted.insert(path, file)?;
        }
        Ok(())
    }

    /// Returns the file in which the reading of a path is to go on, once.
    pub fn take_wanted(&self, path: &[u8]) -> Option<KeptFile> {
        match self.wanted.try_borrow_mut() {
            Ok(mut wanted) => wanted.remove(path),
            Err(_) => None,
        }
    }

    /// Notes that a file stands for a path. It isn't noted if memory runs out.
    pub fn note(&self, alloc: Global, path: &[u8], identity: Identity) {
        let Ok(mut current) = self.current.try_borrow_mut() else {
            return;
        };
        if let Some(known) = current.get_mut(path) {
            *known = identity;
        } else if let Ok(path) = Vec::from_slice(alloc, path) {
            let _ = current.insert(path, identity);
        }
    }

    /// Forgets which file stands for a path.
    pub fn forget(&self, path: &[u8]) {
        if let Ok(mut current) = self.current.try_borrow_mut() {
            let _ = current.remove(path);
        }
    }

    /// Returns the file that stands for a path.
    pub fn current(&self, path: &[u8]) -> Option<Identity> {
        match self.current.try_borrow() {
            Ok(current) => current.get(path).copied(),
            Err(_) => None,
        }
    }
}
