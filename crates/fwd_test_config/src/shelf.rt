//! Files in memory, which give at most seven bytes at a time.

ghost use Rattle.std.specs.Prelude.{None};

use fwd_base::{Bytes, Memory};
use fwd_outside::{FileErr, Files};
use std::alloc::Global;

/// How many bytes one read gives at most.
const MOST: u64 = 7;

/// The arguments of a row: each path with its bytes after it. It records no calls.
#[derive(Drop)]
pub struct Shelf<'r> {
    pub files: &'r [Bytes],
    pub faults: u64,
}

impl Shelf<'_> {
    fn find(&self, path: &[u8]) -> Option<&[u8]> {
        for pair in self.files.chunks_exact(2) {
            if let [name, bytes] = pair {
                if name.as_slice() == path {
                    return Some(bytes.as_slice());
                }
            }
        }
        None
    }
}

impl Files for Shelf<'_> {
    ghost faults = { λ s. s.faults };

    ghost call_log = { λ _. None };

    fn length(&mut self, path: &[u8]) -> Result<u64, FileErr> {
        match self.find(path) {
            Some(bytes) => Ok(bytes.len() as u64),
            None => {
                self.faults = self.faults.saturating_add(1);
                Err(FileErr::Failed)
            }
        }
    }

    fn read_at(&mut self, alloc: Global, path: &[u8], at: u64, max: u64) -> Result<Bytes, FileErr> {
        let Some(bytes) = self.find(path) else {
            self.faults = self.faults.saturating_add(1);
            return Err(FileErr::Failed);
        };
        let from = at.min(bytes.len() as u64) as usize;
        let rest = &bytes[from..];
        let count = max.min(MOST).min(rest.len() as u64) as usize;
        Ok(Bytes::from_slice(alloc, &rest[..count])?)
    }
}
