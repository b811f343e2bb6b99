//! What a configuration says about the log of a run, its pages and unfinished forward messages: `Log_Level`,
//! `Log_File`, `HTTP_Server`, `HTTP_Listen`, `HTTP_Port`, `Health_Check` and `forward.mem_limit` of the
//! SERVICE sections.
//!
//! `log_settings` returns exactly `log_settings_of`: of a key given twice the last entry counts. It refuses
//! nothing: a value that it can't read counts as not given, and the watcher warns of it at its place. The
//! engine's settings don't have these values, so no contract of a run speaks of its log.
#![tactic(auto)]

mod entry;
mod keys;

pub use keys::{LogSettings, PageServer, UNFINISHED_LIMIT, log_settings};
