//! Followed files and a sink in memory, which record their calls. Any call can be made to fail.
//!
//! Each answer of the files is a function of their initial content, their changes, the calls before it and
//! the numbers of the calls that are to fail (`is_played`), and is one that honest files may give
//! (`is_honest`). The sink keeps exactly the bytes of the writes that succeeded.
#![tactic(auto)]

mod change;
mod files;
mod sink;

pub use change::{FileChange, FileChanges};
pub use files::{FilesNote, MemFiles};
pub use sink::{MemSink, SinkNote};
