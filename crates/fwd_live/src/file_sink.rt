//! `Sink` on a file.

ghost use Rattle.std.specs.Prelude.{Some, [], ◌≡◌, ◌≤◌, length, IfErr};

use crate::sink_calls::SinkCalls;
use crate::storage_root::FILE_MODE;
use crate::whole_write::write_whole;
use fwd_outside::{Bytes, Sink, SinkErr};
use fwd_system::text;
use std::fs::{File, OpenOptions};
use std::io;
use std::os::unix::fs::OpenOptionsExt;

/// A file that is created at its first write, for its owner alone, or emptied if it is there. Without a name
/// each write fails.
#[derive(Drop)]
pub struct FileSink {
    rt: HostRuntime,
    name: Option<Bytes>,
    file: Option<File>,
    faults: u64,
    calls: SinkCalls,
}

impl FileSink {
    /// Returns the sink with an empty log. Nothing is opened yet.
    pub fn new(rt: HostRuntime, name: Option<Bytes>) -> Self
        ensures { result.calls.entries ≡ [] }
    {
        FileSink {
            rt,
            name,
            file: None,
            faults: 0,
            calls: SinkCalls::new(),
        }
    }
}

/// Creates a file, or empties it if it is there.
fn create(rt: &HostRuntime, name: &[u8]) -> io::Result<File> {
    let mut how = OpenOptions::new();
    how.write(true).create(true).truncate(true).mode(FILE_MODE);
    how.open(rt, text(name)?)
}

/// Creates the file, unless it is open already. It stays closed without a name, or if it can't be created.
fn ensure_open(rt: &HostRuntime, name: &Option<Bytes>, file: &mut Option<File>) {
    if file.is_some() {
        return;
    }
    if let Some(name) = name {
        *file = create(rt, name.as_slice()).ok();
    }
}

/// Writes all bytes to an open file. `Err` has the number of bytes written before the failure.
fn write_to(file: &mut Option<File>, bytes: &[u8]) -> Result<(), usize>
    ensures { IfErr result (λ taken. taken ≤ length bytes.now) }
{
    match file {
        Some(file) => write_whole(file, bytes),
        None => Err(0),
    }
}

impl Sink for FileSink {
    ghost faults = { λ sink. sink.faults };

    ghost call_log = { λ sink. Some (tt, sink.calls.entries) };

    fn write(&mut self, bytes: &[u8]) -> Result<(), SinkErr> {
        ensure_open(&self.rt, &self.name, &mut self.file);
        let stopped = write_to(&mut self.file, bytes).err();
        self.calls = self.calls.then(&(bytes, stopped));
        match stopped {
            None => Ok(()),
            Some(_) => {
                self.faults = self.faults.saturating_add(1);
                Err(SinkErr::Failed)
            }
        }
    }
}
