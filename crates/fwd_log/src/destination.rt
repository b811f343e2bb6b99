//! Where the lines of a log go.

use std::fs::{File, OpenOptions};
use std::io::{self, ErrorKind, Write};

/// Where lines go.
#[derive(Drop)]
pub enum Destination {
    Stderr,
    /// A file, at its end.
    File(File),
}

impl Destination {
    /// Writes a whole line.
    pub fn write(&mut self, rt: &HostRuntime, line: &[u8]) -> io::Result<()> {
        match self {
            Destination::Stderr => rt.stderr().write_all(line),
            Destination::File(file) => file.write_all(line),
        }
    }
}

/// Opens a file to write at its end. It is made if there is none.
pub fn open_at_end(rt: &HostRuntime, path: &[u8]) -> io::Result<File> {
    match str::from_utf8(path) {
        Ok(path) => {
            let mut how = OpenOptions::new();
            how.append(true).create(true);
            how.open(rt, path)
        }
        Err(_) => Err(io::Error::from(ErrorKind::InvalidInput)),
    }
}
