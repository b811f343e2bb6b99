//! Reads the entries of a section by the table of keys, and the PARSER sections that they name.
//!
//! `read_entries` returns the entries with their values, or the first error with its place. An entry that
//! names a parser has the parser of that PARSER section as its value. The definitions leave one thing open:
//! whether a text is a pattern.
#![tactic(auto)]

mod entries;
mod parsers;
mod read_err;
mod values;

pub use entries::{read_entries, refuse};
pub use parsers::{name_entry, timeless};
pub use read_err::ReadErr;
