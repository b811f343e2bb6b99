//! What each operation prints.

use crate::choices::{put_parts, put_rule, put_value};
use crate::loaded::{put_endpoints, put_loaded, put_settings};
use fwd_base::{Bytes, Memory};
use fwd_test_rows::{argument, arguments};
use std::alloc::Global;

/// Appends what comes of an operation; the row itself if it begins with none.
fn put_answer(
    alloc: Global,
    out: &mut String,
    row: &str,
    arguments: &[Bytes],
) -> Result<(), Memory> {
    let first = argument(arguments, 1);
    let second = argument(arguments, 2);
    let files = arguments.get(1..).unwrap_or(&[]);
    match str::from_utf8(argument(arguments, 0)).unwrap_or("") {
        "value" => put_value(out, first, second),
        "rule" => put_rule(alloc, out, first, second),
        "parts" => put_parts(alloc, out, first),
        "load" => put_loaded(alloc, out, files),
        "set" => put_settings(alloc, out, files),
        "endpoints" => put_endpoints(alloc, out, files),
        _ => Ok(out.push_str(row)?),
    }
}

fn put_row(alloc: Global, out: &mut String, row: &str) -> Result<(), Memory> {
    let arguments = arguments(alloc, row)?;
    put_answer(alloc, out, row, arguments.as_slice())
}

/// What comes of a row.
pub fn answer(alloc: Global, row: &str) -> Result<String, Memory> {
    let mut out = String::new(alloc);
    put_row(alloc, &mut out, row)?;
    Ok(out)
}
