//! Followed files, read through rotations. A path stands for one file after another: a file that was renamed
//! is read to its end first, and only then the one that has its path.
//!
//! `FollowedFiles` gives lengths and bytes by path, `FollowedPath` decides which file stands for a path, and
//! a `StreamFile` is such a file with what was read of it. `find_copy` finds the copy of a file that was
//! truncated. `Identities` are shared with those who keep offsets: a path whose offset was kept in another
//! file than it names now goes on in that one, if it is still in the folder.
#![tactic(auto)]

mod copies;
mod followed_files;
mod followed_path;
mod identities;
mod identity;
mod kept_file;
mod reading;
mod stream_file;

pub use followed_files::FollowedFiles;
pub use identities::{Identities, KeptFile};
pub use identity::{Identity, identity_at};
pub use reading::{LAST_OFFSET, read_to};
