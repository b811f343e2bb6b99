//! Values of the log settings that can't be read.

use fwd_base::parse_size;
use fwd_config::{Entry, Section};
use fwd_settings_schema::{port, same_name, truth};
use std::alloc::{AllocError, Global};

/// The words of `Log_Level`.
const LEVELS: &[&str] = &["off", "error", "warn", "warning", "info", "debug", "trace"];

fn is_level(value: &[u8]) -> bool {
    for word in LEVELS {
        if same_name(value, word.as_bytes()) {
            return true;
        }
    }
    false
}

/// Returns what the value of a key of the log settings has to be, if it isn't.
fn wanted_of(key: &[u8], value: &[u8]) -> Option<&'static str> {
    if same_name(key, b"log_level") && !is_level(value) {
        return Some("one of off, error, warn, info, debug, trace");
    }
    if same_name(key, b"http_port") && port(value).is_none() {
        return Some("a port from 1 to 65535");
    }
    if same_name(key, b"forward.mem_limit") && parse_size(value).is_err() {
        return Some("a size, as 500000 or 5M");
    }
    let is_truth = same_name(key, b"http_server") || same_name(key, b"health_check");
    if is_truth && truth(value).is_none() {
        return Some("On or Off");
    }
    None
}

/// Returns whether a section sets the service.
fn is_service(section: &Section) -> bool {
    same_name(section.name.as_slice(), b"service")
}

/// Appends that the value of an entry counts as not given.
fn push_unread(
    alloc: Global,
    text: &mut String,
    entry: &Entry,
    wanted: &str,
) -> Result<(), AllocError> {
    let file = String::from_utf8_lossy(alloc, entry.place.file.as_slice())?;
    let key = String::from_utf8_lossy(alloc, entry.key.as_slice())?;
    let value = String::from_utf8_lossy(alloc, entry.value.as_slice())?;
    let line = entry.place.line;
    let gap = if text.is_empty() { "" } else { "; " };
    let more = format!(in alloc;
        "{gap}{file}:{line}: {key} {value} counts as not given: {wanted}"
    )?;
    text.push_str(more.as_str())
}

/// Returns which values of the log settings can't be read, and what they have to be; empty if all can.
pub fn unread_text(alloc: Global, sections: &[Section]) -> Result<String, AllocError> {
    let mut text = String::new(alloc);
    for section in sections {
        if is_service(section) {
            for entry in section.entries.as_slice() {
                if let Some(wanted) = wanted_of(entry.key.as_slice(), entry.value.as_slice()) {
                    push_unread(alloc, &mut text, entry, wanted)?;
                }
            }
        }
    }
    Ok(text)
}
