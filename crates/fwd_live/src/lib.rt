//! The devices of a live run: a disk of folders, the followed files, standard output, a file for the record
//! of the run, and the event loop.
//! Each has a ghost log of its calls with their answers, which isn't kept at run time.
//!
//! They implement the traits of `fwd_outside`, so the theorems about devices with a log hold for the
//! shipped program, for whatever the system answers. It is trusted that each method makes the call that it
//! logs, and tested what the devices do with it.
#![tactic(auto)]

mod answer;
mod disk_calls;
mod disk_log;
mod file_name;
mod file_sink;
mod files_calls;
mod folder_disk;
mod folder_files;
mod folders;
mod live_loop;
mod loop_calls;
mod open_files;
mod shared;
mod sink_calls;
mod std_sink;
mod storage_root;
mod whole_write;

pub use disk_calls::{DiskCalls, DiskRecord, DiskStart};
pub use file_sink::FileSink;
pub use files_calls::{FilesCalls, FilesRecord, FilesStart};
pub use folder_disk::FolderDisk;
pub use folder_files::FolderFiles;
pub use fwd_live_files::Identities;
pub use fwd_live_sockets::{Patience, USUAL_PATIENCE};
pub use live_loop::LiveLoop;
pub use loop_calls::{LoopCalls, LoopRecord, LoopScript};
pub use shared::Shared;
pub use sink_calls::{SinkCalls, SinkRecord};
pub use std_sink::StdSink;
pub use storage_root::Access;
