//! The followed files of a run, by their paths.

ghost use Rattle.std.specs.Prelude.{◌≤◌, IfOk, length};

use crate::followed_path::FollowedPath;
use crate::identities::{Identities, KeptFile};
use fwd_base::Bytes;
use fwd_system::text;
use std::alloc::Global;
use std::collections::HashMap;
use std::io::{self, ErrorKind};
use std::time::Duration;

/// Files that are read by their paths, through rotations. A path gives a stream: the bytes of one file after
/// another, where the length is given as 0 once when the next one begins.
#[derive(Drop)]
pub struct FollowedFiles<'a> {
    rt: HostRuntime,
    identities: &'a Identities,
    paths: HashMap<Vec<u8>, FollowedPath>,
    linger: Duration,
    most: usize,
    handles: usize,
}

/// Returns a path without a file; an error if it isn't UTF-8.
fn followed_path(alloc: Global, path: &[u8], kept: Option<KeptFile>) -> io::Result<FollowedPath> {
    let path = String::from_str(alloc, text(path)?)?;
    Ok(FollowedPath::new(alloc, path, kept))
}

impl<'a> FollowedFiles<'a> {
    /// Returns the files with none open. A file that was read to its end is left when another one with bytes
    /// has had its path for `linger`. Paths get a handle while fewer than `most` are held; others are read by
    /// name, in the file that has the path at each call. A path for which `identities` want a file goes on in
    /// that one. They also get which file stands for a path while a handle of it is held.
    pub fn new(rt: HostRuntime, identities: &'a Identities, linger: Duration, most: usize) -> Self {
        FollowedFiles {
            rt,
            identities,
            paths: HashMap::new(rt.alloc()),
            linger,
            most,
            handles: 0,
        }
    }

    /// Returns how many handles the paths hold, or keep the right to.
    pub fn handles(&self) -> usize {
        self.handles
    }

    /// Adds a path, unless it is there.
    fn ensure_path(&mut self, path: &[u8]) -> io::Result<()> {
        if self.paths.contains_key(path) {
            return Ok(());
        }
        let alloc = self.rt.alloc();
        let followed = followed_path(alloc, path, self.identities.take_wanted(path))?;
        self.paths.insert(Vec::from_slice(alloc, path)?, followed)?;
        Ok(())
    }

    /// Notes how many handles a path has now, and had before.
    fn note_handles(&mut self, before: usize, now: usize) {
        self.handles = self.handles.saturating_sub(before).saturating_add(now);
    }

    /// Reads what has a path to its end, if that has no length, as a pipe. Its bytes stand for the path then.
    pub fn read_stream(&mut self, path: &[u8]) -> io::Result<()> {
        self.ensure_path(path)?;
        match self.paths.get_mut(path) {
            Some(followed) => followed.read_stream(&self.rt),
            None => Err(io::Error::from(ErrorKind::NotFound)),
        }
    }

    /// Returns the length of a path's stream; 0 where another file begins.
    pub fn length(&mut self, path: &[u8]) -> io::Result<u64> {
        self.ensure_path(path)?;
        let Some(followed) = self.paths.get_mut(path) else {
            return Err(io::Error::from(ErrorKind::NotFound));
        };
        let before = followed.handles();
        let length = followed.length(&self.rt, self.linger, self.handles < self.most);
        let now = followed.handles();
        followed.note_identity(self.rt.alloc(), path, self.identities);
        self.note_handles(before, now);
        length
    }

    /// Reads at most `max` bytes of a path's stream from a position on. No bytes mean the end.
    pub fn read_at(&mut self, alloc: Global, path: &[u8], at: u64, max: u64) -> io::Result<Bytes>
        ensures { IfOk result (λ bytes. length bytes ≤ max) }
    {
        self.ensure_path(path)?;
        let Some(followed) = self.paths.get_mut(path) else {
            return Err(io::Error::from(ErrorKind::NotFound));
        };
        let before = followed.handles();
        let read = followed.read_at(&self.rt, alloc, at, max);
        let now = followed.handles();
        followed.note_identity(self.rt.alloc(), path, self.identities);
        self.note_handles(before, now);
        read
    }
}
