//! Loads a configuration in the classic format: reads its files into sections of entries. The lines of an
//! included file replace the line that includes it, variables are replaced by their values, and each entry
//! keeps its file and line, so that later errors can name them.
//!
//! `load` returns the sections, which are a function of the files' bytes, the path and the environment, or
//! the first error with its place. Its contract also says which calls it makes on the files.
#![tactic(auto)]

mod fault;
mod line;
mod loader;
mod outline;
mod section;
mod variables;

pub use fault::{ConfigFault, ConfigKind};
pub use loader::load;
pub use section::{Entries, Entry, Place, Section, Sections};
