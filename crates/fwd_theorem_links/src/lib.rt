//! The numbers of links are names: a run doesn't depend on them.
//!
//! With other numbers the run is the same, and so are the table and the counts of the report. A run without
//! followed files makes no call on files, and none on the databases of offsets.
#![tactic(auto)]

mod files;
mod links;

pub use files::nothing_is_asked_without_followed_files;
pub use links::{links_are_names, renaming_changes_no_count};
