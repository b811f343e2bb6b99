//! Patterns and sizes.

use crate::encoded::put_error;
use fwd_base::{Capture, Memory, Pattern, Search, parse_size};
use fwd_test_rows::put_bytes;
use std::alloc::Global;

fn put_groups(out: &mut String, groups: &[Capture<'_, '_>]) -> Result<(), Memory> {
    out.push_str("match")?;
    for group in groups {
        out.push(' ')?;
        put_bytes(out, group.name)?;
        out.push('=')?;
        put_bytes(out, group.bytes)?;
    }
    Ok(())
}

fn put_found(
    alloc: Global,
    out: &mut String,
    search: &mut Search<'_>,
    text: &[u8],
) -> Result<(), Memory> {
    match search.captures(alloc, text)? {
        Some(groups) => put_groups(out, groups.as_slice()),
        None => Ok(out.push_str("no match")?),
    }
}

fn put_searched(
    alloc: Global,
    out: &mut String,
    pattern: &Pattern,
    text: &[u8],
) -> Result<(), Memory> {
    let mut search = pattern.search(alloc)?;
    put_found(alloc, out, &mut search, text)
}

/// Appends the groups of the first match of a pattern, or why it is no pattern.
pub fn put_captures(
    alloc: Global,
    out: &mut String,
    pattern: &[u8],
    text: &[u8],
) -> Result<(), Memory> {
    match Pattern::new(alloc, pattern) {
        Ok(pattern) => put_searched(alloc, out, &pattern, text),
        Err(error) => put_error(out, &error),
    }
}

/// Appends the number of bytes that a size denotes.
pub fn put_size(out: &mut String, text: &[u8]) -> Result<(), Memory> {
    match parse_size(text) {
        Ok(size) => put_error(out, &size),
        Err(error) => put_error(out, &error),
    }
}
