//! A path, with the file that stands for it, and those that have had the path since.

ghost use Rattle.std.specs.Prelude.{◌≤◌, IfOk, length};

use crate::copies::find_copy;
use crate::identities::{Identities, KeptFile};
use crate::identity::{identity_at, identity_of};
use crate::kept_file::find_kept;
use crate::reading::{part_of, read_named, read_stream};
use crate::stream_file::{Finding, Progress, StreamFile};
use fwd_base::Bytes;
use std::alloc::Global;
use std::collections::VecDeque;
use std::time::{Duration, Instant};
use std::{fs, io};

/// How many newer files of a path are held open while an older one is read.
const MOST_NEWER: usize = 8;

/// How a path is read.
#[derive(Drop)]
enum Hold {
    /// No file is open. The next one is read from where this says.
    Closed(Progress),
    /// A file is open.
    Open(StreamFile),
    /// Each call opens the file that then has the path.
    Named,
    /// The path has no length, as a pipe. These are all its bytes.
    Stream(Bytes),
}

/// A file that has got the path while an older one is read.
#[derive(Drop)]
struct Newer {
    file: StreamFile,
    since: Instant,
}

/// The file in which the reading of a path is to go on.
#[derive(Clone, Copy)]
enum Wanted {
    /// Any file.
    Any,
    /// This one. It wasn't looked for yet.
    Kept(KeptFile),
    /// This one, which wasn't in the folder when the path had no file.
    Missing(KeptFile),
}

/// A path, with the file that stands for it.
#[derive(Drop)]
pub struct FollowedPath {
    path: String,
    hold: Hold,
    newer: VecDeque<Newer>,
    wanted: Wanted,
}

/// Adds the file that has the path now, if it has bytes and is none that is known. If the path names the file
/// that stands for it, no other is newer.
fn note_newer(
    rt: &HostRuntime,
    path: &str,
    current: &StreamFile,
    newer: &mut VecDeque<Newer>,
) -> io::Result<()> {
    let about = fs::metadata(rt, path)?;
    let identity = identity_of(&about);
    if identity == current.identity() {
        newer.clear();
        return Ok(());
    }
    let is_last = match newer.back() {
        Some(last) => last.file.identity() == identity,
        None => false,
    };
    if is_last || about.len() == 0 || MOST_NEWER <= newer.len() {
        return Ok(());
    }
    let file = StreamFile::open(rt, path, Progress::Restarted)?;
    let since = Instant::now(rt)?;
    newer.push_back(Newer { file, since })?;
    Ok(())
}

/// Returns whether a newer file has had the path for this long.
fn is_superseded(rt: &HostRuntime, newer: &VecDeque<Newer>, linger: Duration) -> bool {
    match (newer.front(), Instant::now(rt)) {
        (Some(next), Ok(now)) => linger <= now.duration_since(next.since),
        (Some(_), Err(_)) => false,
        (None, _) => false,
    }
}

impl FollowedPath {
    /// Returns the path, with no file open. If there is a kept file, its reading goes on in that one.
    pub fn new(alloc: Global, path: String, kept: Option<KeptFile>) -> Self {
        FollowedPath {
            path,
            hold: Hold::Closed(Progress::Unread),
            newer: VecDeque::new(alloc),
            wanted: match kept {
                Some(kept) => Wanted::Kept(kept),
                None => Wanted::Any,
            },
        }
    }

    /// Notes which file stands for the path. While none is open, the last one does.
    pub fn note_identity(&self, alloc: Global, path: &[u8], identities: &Identities) {
        match &self.hold {
            Hold::Open(file) => identities.note(alloc, path, file.identity()),
            Hold::Named | Hold::Stream(_) => identities.forget(path),
            Hold::Closed(_) => {}
        }
    }

    /// Returns how many handles the path has, with one that it keeps the right to.
    pub fn handles(&self) -> usize {
        let own = match &self.hold {
            Hold::Open(_) => 1,
            Hold::Closed(Progress::Restarted) => 1,
            Hold::Closed(Progress::Unread | Progress::Reading) => 0,
            Hold::Named | Hold::Stream(_) => 0,
        };
        self.newer.len().saturating_add(own)
    }

    /// Reads the path by name from now on.
    fn use_name(&mut self) {
        self.hold = Hold::Named;
        self.newer.clear();
    }

    /// Opens the file of the path if none is open, unless it is read by name, as it is without a handle.
    fn ensure_open(&mut self, rt: &HostRuntime, may_hold: bool) -> io::Result<()> {
        let progress = match &self.hold {
            Hold::Closed(progress) => *progress,
            Hold::Open(_) | Hold::Named | Hold::Stream(_) => return Ok(()),
        };
        if may_hold || progress == Progress::Restarted {
            let opened = StreamFile::open(rt, self.path.as_str(), progress)?;
            self.hold = Hold::Open(opened);
        } else {
            self.use_name();
        }
        Ok(())
    }

    /// Looks for the kept file in the folder, unless it wasn't there before. Returns whether it is open now.
    fn open_kept(&mut self, rt: &HostRuntime, kept: KeptFile) -> bool {
        if let Wanted::Missing(_) = self.wanted {
            return false;
        }
        match find_kept(rt, self.path.as_str(), kept) {
            Ok(Some(file)) => {
                self.hold = Hold::Open(file);
                true
            }
            Ok(None) | Err(_) => false,
        }
    }

    /// Decides, before the first read, where it goes on: in the kept file, if the path names it or it is in
    /// the folder, else at the beginning of the file that has the path. A path without a handle is read by
    /// name.
    fn settle_wanted(&mut self, rt: &HostRuntime, may_hold: bool) -> io::Result<()> {
        let (Wanted::Kept(kept) | Wanted::Missing(kept)) = self.wanted else {
            return Ok(());
        };
        let own = identity_at(rt, self.path.as_str());
        let is_own = match &own {
            Ok(identity) => *identity == kept.identity,
            Err(_) => false,
        };
        if may_hold && !is_own && !self.open_kept(rt, kept) {
            self.wanted = Wanted::Missing(kept);
            let _ = own?;
            self.hold = Hold::Closed(Progress::Restarted);
        }
        self.wanted = Wanted::Any;
        Ok(())
    }

    /// Asks the open file, after the path's own. A path that is read by name has no identity. A file that
    /// can't be asked is read by name from then on, as its handle may be of no use any more.
    fn find(&mut self, rt: &HostRuntime) -> io::Result<Finding> {
        let found = match &mut self.hold {
            Hold::Open(file) => {
                let _ = note_newer(rt, self.path.as_str(), file, &mut self.newer);
                file.find()
            }
            Hold::Stream(bytes) => Ok(Finding::Length(bytes.len() as u64)),
            Hold::Closed(_) | Hold::Named => Ok(Finding::Unidentified),
        };
        if found.is_err() {
            self.use_name();
        }
        found
    }

    /// Returns the length of a file that was truncated: it goes on in its copy if there is one, and begins
    /// anew if not.
    fn after_truncation(&mut self, rt: &HostRuntime) -> io::Result<u64> {
        let Hold::Open(file) = &mut self.hold else {
            return Ok(0);
        };
        if let Ok(Some((copy, identity))) = find_copy(rt, self.path.as_str(), file) {
            file.go_on_in(copy, identity);
            if let Finding::Length(length) = file.find()? {
                return Ok(length);
            }
        }
        file.restart();
        Ok(0)
    }

    /// Returns whether the file, which was read to its end, is to be left.
    fn is_left(&mut self, rt: &HostRuntime, has_name: bool, linger: Duration) -> bool {
        let Hold::Open(file) = &mut self.hold else {
            return false;
        };
        if !self.newer.is_empty() {
            return file.is_copy() || is_superseded(rt, &self.newer, linger);
        }
        !has_name && file.was_removed(rt, linger)
    }

    /// Returns whether the last line of the file is unfinished. The next read then ends it.
    fn end_line(&mut self) -> bool {
        match &mut self.hold {
            Hold::Open(file) => file.end_line(),
            Hold::Closed(_) | Hold::Named | Hold::Stream(_) => false,
        }
    }

    /// Leaves the file for the next one of the path.
    fn leave(&mut self, rt: &HostRuntime) -> io::Result<()> {
        self.hold = match self.newer.pop_front() {
            Some(next) => Hold::Open(next.file),
            None => Hold::Closed(Progress::Restarted),
        };
        self.ensure_open(rt, true)
    }

    /// Reads what has the path to its end, if that has no length, as a pipe. Its bytes stand for the path then.
    pub fn read_stream(&mut self, rt: &HostRuntime) -> io::Result<()> {
        if let Hold::Closed(_) = self.hold {
            let about = fs::metadata(rt, self.path.as_str())?;
            if !about.is_file() && !about.is_dir() {
                self.hold = Hold::Stream(read_stream(rt, self.path.as_str())?);
            }
        }
        Ok(())
    }

    /// Returns the length of the path's stream. It is 0 where another file begins. If the path has no handle
    /// yet, it gets one where it may.
    pub fn length(
        &mut self,
        rt: &HostRuntime,
        linger: Duration,
        may_hold: bool,
    ) -> io::Result<u64> {
        self.settle_wanted(rt, may_hold)?;
        self.ensure_open(rt, may_hold)?;
        match self.find(rt)? {
            Finding::Length(length) => Ok(length),
            Finding::End(length, has_name) => {
                if !self.is_left(rt, has_name, linger) {
                    return Ok(length);
                }
                if self.end_line() {
                    return Ok(length.saturating_add(1));
                }
                self.leave(rt)?;
                Ok(0)
            }
            Finding::Truncated => self.after_truncation(rt),
            Finding::Unidentified => {
                self.use_name();
                Ok(fs::metadata(rt, self.path.as_str())?.len())
            }
        }
    }

    /// Returns whether a read at this position follows the last one.
    fn is_expected(&self, at: u64) -> bool {
        match &self.hold {
            Hold::Open(file) => file.is_expected(at),
            Hold::Closed(_) | Hold::Named | Hold::Stream(_) => true,
        }
    }

    /// Reads at most `max` bytes of the path's stream from a position on. A read that doesn't follow the last
    /// one is of another reader of the path, so that the path is read by name from then on.
    pub fn read_at(
        &mut self,
        rt: &HostRuntime,
        alloc: Global,
        at: u64,
        max: u64,
    ) -> io::Result<Bytes>
        ensures { IfOk result (λ bytes. length bytes ≤ max) }
    {
        if !self.is_expected(at) {
            self.use_name();
        }
        match &mut self.hold {
            Hold::Open(file) => file.read_at(alloc, at, max),
            Hold::Stream(bytes) => part_of(alloc, bytes.as_slice(), at, max),
            Hold::Closed(_) | Hold::Named => read_named(rt, alloc, self.path.as_str(), at, max),
        }
    }
}
