//! The arguments and the environment of the program.

use fwd_outside::Memory;
use fwd_top::Status;
use std::alloc::Global;
use std::env::{self, Env, FillError};
use std::io::{self, ErrorKind};

/// The initial buffer size for an environment variable.
const ROOM: usize = 256;

/// Returns the status of a run whose arguments can't be had.
fn status_without_arguments(error: &io::Error) -> Status {
    match error.kind() {
        ErrorKind::OutOfMemory => Status::Memory,
        _ => Status::Usage,
    }
}

/// Returns the arguments after the program's name. Arguments that aren't text aren't part of a command.
pub fn words(rt: &HostRuntime) -> Result<Vec<String>, Status> {
    let args = match env::args(rt) {
        Ok(args) => args,
        Err(error) => return Err(status_without_arguments(&error)),
    };
    let mut words = Vec::new(rt.alloc());
    for word in args.skip(1) {
        if words.push(word).is_err() {
            return Err(Status::Memory);
        }
    }
    Ok(words)
}

/// The entry at an index of the environment.
#[derive(Drop)]
enum Entry {
    /// A variable, as its bytes.
    Is(Vec<u8>),
    /// A variable that is longer than its buffer.
    TooLong,
    /// No entry: the environment ends before this index.
    Over,
}

fn entry_within(rt: &HostRuntime, place: usize, room: usize) -> Result<Entry, Memory> {
    let mut bytes = Vec::new(rt.alloc());
    bytes.resize(room, 0)?;
    match rt.var_at(place, &mut bytes) {
        Ok(length) => {
            bytes.truncate(length);
            Ok(Entry::Is(bytes))
        }
        Err(FillError::TooLong) => Ok(Entry::TooLong),
        Err(FillError::NotPresent) => Ok(Entry::Over),
    }
}

/// Returns the bytes of the environment at an index; `None` after the last.
fn entry_at(rt: &HostRuntime, place: usize) -> Result<Option<Vec<u8>>, Memory> {
    let mut room = ROOM;
    for _ in 0..usize::BITS {
        match entry_within(rt, place, room)? {
            Entry::Is(bytes) => return Ok(Some(bytes)),
            Entry::Over => return Ok(None),
            Entry::TooLong => room = room.saturating_mul(2),
        }
    }
    Err(Memory)
}

/// Returns the name and the value of a variable; `None` if it isn't text or has no name.
fn parse_variable(alloc: Global, bytes: &[u8]) -> Result<Option<(String, String)>, Memory> {
    let Ok(text) = str::from_utf8(bytes) else {
        return Ok(None);
    };
    match text.split_once('=') {
        Some((name, value)) if !name.is_empty() => Ok(Some((
            String::from_str(alloc, name)?,
            String::from_str(alloc, value)?,
        ))),
        _ => Ok(None),
    }
}

/// Returns the environment without the variables that aren't text.
pub fn environment(rt: &HostRuntime) -> Result<Vec<(String, String)>, Memory> {
    let mut all = Vec::new(rt.alloc());
    for place in 0..usize::MAX {
        let Some(bytes) = entry_at(rt, place)? else {
            break;
        };
        if let Some(found) = parse_variable(rt.alloc(), &bytes)? {
            all.push(found)?;
        }
    }
    Ok(all)
}
