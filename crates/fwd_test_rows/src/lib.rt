//! Rows of the vector tests, as the programs `fwd_test_*` read them from `stdin`, and bytes as they print
//! them.
//!
//! A row is an operation and its arguments, separated by `|`. In an argument `~` and two hex digits denote a
//! byte. A part between two `¦` is a count, a space and a text that is repeated that often.
#![tactic(auto)]

mod read;
mod shown;

pub use read::{argument, arguments};
pub use shown::{put_bytes, put_word};
