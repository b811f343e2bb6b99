//! Paths as text, and their parts.

use std::alloc::Global;
use std::io::{self, ErrorKind};

/// Returns the bytes as text; an error if they aren't UTF-8.
pub fn text(bytes: &[u8]) -> io::Result<&str> {
    match str::from_utf8(bytes) {
        Ok(text) => Ok(text),
        Err(_) => Err(io::Error::from(ErrorKind::InvalidInput)),
    }
}

/// Returns the path of a file in a folder; an empty folder is the current one.
pub fn path_in(alloc: Global, folder: &str, file: &str) -> io::Result<String> {
    let mut path = String::from_str(alloc, folder)?;
    if !folder.is_empty() && !folder.ends_with('/') {
        path.push('/')?;
    }
    path.push_str(file)?;
    Ok(path)
}

/// Returns the folder of a path, and the name in it. A path without a folder is in the current one.
pub fn folder_and_name(path: &str) -> (&str, &str) {
    match path.rsplit_once('/') {
        Some((folder, name)) if !folder.is_empty() => (folder, name),
        Some((_, name)) => ("/", name),
        None => (".", path),
    }
}

/// Returns the folder of a file or a folder.
pub fn folder_of(path: &str) -> &str {
    let (folder, _) = folder_and_name(path);
    folder
}
