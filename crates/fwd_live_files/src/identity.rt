//! Which file it is.

use std::fs::{self, Metadata};
use std::io;
use std::os::unix::fs::MetadataExt;

/// The device and the inode of a file, which a rename doesn't change.
#[derive(Clone, Copy, Debug, PartialEq, Eq)]
pub struct Identity {
    pub device: u64,
    pub inode: u64,
}

/// Returns the identity that the metadata has.
pub fn identity_of(about: &Metadata) -> Identity {
    Identity {
        device: about.dev(),
        inode: about.ino(),
    }
}

/// Returns the identity of the file that has a path now.
pub fn identity_at(rt: &HostRuntime, path: &str) -> io::Result<Identity> {
    Ok(identity_of(&fs::metadata(rt, path)?))
}

/// The time of a file's last change, in seconds and nanoseconds.
#[derive(Clone, Copy, Debug, PartialEq, Eq)]
pub struct ChangeTime {
    seconds: i64,
    nanos: i64,
}

impl ChangeTime {
    /// Returns the time that the metadata has.
    pub fn of(about: &Metadata) -> ChangeTime {
        ChangeTime {
            seconds: about.mtime(),
            nanos: about.mtime_nsec(),
        }
    }

    /// Returns whether this time is before another one.
    pub fn is_before(self, other: ChangeTime) -> bool {
        self.seconds < other.seconds || (self.seconds == other.seconds && self.nanos < other.nanos)
    }
}
