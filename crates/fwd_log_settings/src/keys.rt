//! The settings of the log, the pages and unfinished messages.

ghost use Rattle.std.specs.Prelude.{◌≡◌, IfOk};
ghost use Rattle.fwd_log_settings.specs.Entry.{last_value};
ghost use Rattle.fwd_log_settings.specs.LogSettings.{host_of, is_on, level_named, level_of, log_settings_of, port_at, server_of, unfinished_limit_of};

use crate::entry::last_value;
use fwd_base::{Bytes, Memory, parse_size};
use fwd_config::{Section, Sections};
use fwd_log::Level;
use fwd_settings_values::{port, same_name, truth};
use std::alloc::Global;

/// The most bytes that the unfinished messages of all connections may have together if no limit is given.
pub const UNFINISHED_LIMIT: u64 = 64_000_000;

/// Where the pages are served.
#[derive(Debug, Drop, PartialEq, Eq)]
pub struct PageServer {
    pub host: Bytes,
    pub port: u16,
}

/// What a configuration says about the log, the pages and unfinished messages.
#[derive(Debug, Drop, PartialEq, Eq)]
pub struct LogSettings {
    /// The least important lines that are written; `None` if the log is off.
    pub level: Option<Level>,
    /// The file to which the lines are appended; `None` for standard error.
    pub file: Option<Bytes>,
    /// Where the pages are served; `None` if they aren't.
    pub server: Option<PageServer>,
    /// Whether the page of health says that chunks were given up.
    pub checks_health: bool,
    /// The most bytes that the unfinished forward messages of all connections may have together.
    pub unfinished_limit: u64,
}

/// Returns the level of a word, case ignored; info for any other word.
fn level_named(word: &[u8]) -> Option<Level>
    ensures { result ≡ level_named word.now }
{
    if same_name(word, b"off") {
        return None;
    }
    if same_name(word, b"error") {
        return Some(Level::Error);
    }
    if same_name(word, b"warn") || same_name(word, b"warning") {
        return Some(Level::Warn);
    }
    if same_name(word, b"debug") || same_name(word, b"trace") {
        return Some(Level::Debug);
    }
    Some(Level::Info)
}

fn level_of(sections: &[Section]) -> Option<Level>
    ensures { result ≡ level_of sections.now }
{
    match last_value(sections, b"log_level") {
        Some(word) => level_named(word),
        None => Some(Level::Info),
    }
}

/// Returns whether the last value of a key is a word for true.
fn is_on(sections: &[Section], key: &[u8]) -> bool
    ensures { result ≡ is_on key.now sections.now }
{
    match last_value(sections, key) {
        Some(word) => truth(word).unwrap_or(false),
        None => false,
    }
}

fn port_at(sections: &[Section]) -> u16
    ensures { result ≡ port_at sections.now }
{
    match last_value(sections, b"http_port") {
        Some(text) => port(text).unwrap_or(2020),
        None => 2020,
    }
}

fn unfinished_limit_of(sections: &[Section]) -> u64
    ensures { result ≡ unfinished_limit_of sections.now }
{
    match last_value(sections, b"forward.mem_limit") {
        Some(text) => parse_size(text).unwrap_or(UNFINISHED_LIMIT),
        None => UNFINISHED_LIMIT,
    }
}

/// Returns a copy of the last value of a key.
fn copy_at(alloc: Global, sections: &[Section], key: &[u8]) -> Result<Option<Bytes>, Memory>
    ensures { IfOk result (λ text. text ≡ last_value key.now sections.now) }
{
    match last_value(sections, key) {
        Some(text) => Ok(Some(Bytes::from_slice(alloc, text)?)),
        None => Ok(None),
    }
}

fn host_of(alloc: Global, sections: &[Section]) -> Result<Bytes, Memory>
    ensures { IfOk result (λ host. host ≡ host_of sections.now) }
{
    match last_value(sections, b"http_listen") {
        Some(text) => Bytes::from_slice(alloc, text),
        None => Bytes::from_slice(alloc, b"0.0.0.0"),
    }
}

fn server_of(alloc: Global, sections: &[Section]) -> Result<Option<PageServer>, Memory>
    ensures { IfOk result (λ server. server ≡ server_of sections.now) }
{
    if !is_on(sections, b"http_server") {
        return Ok(None);
    }
    Ok(Some(PageServer {
        host: host_of(alloc, sections)?,
        port: port_at(sections),
    }))
}

/// Returns what the SERVICE sections say about the log, the pages and unfinished messages. The only error is
/// out of memory.
pub fn log_settings(alloc: Global, sections: &Sections) -> Result<LogSettings, Memory>
    ensures { IfOk result (λ settings. settings ≡ log_settings_of sections.now) }
{
    let sections = sections.as_slice();
    Ok(LogSettings {
        level: level_of(sections),
        file: copy_at(alloc, sections, b"log_file")?,
        server: server_of(alloc, sections)?,
        checks_health: is_on(sections, b"health_check"),
        unfinished_limit: unfinished_limit_of(sections),
    })
}
