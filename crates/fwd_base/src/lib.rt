//! Types that every crate of Fuztreb uses: byte strings, lists, the ids of inputs, outputs, connections,
//! links and chunks, the out-of-memory error, the limits of the program, and the sizes and patterns of a
//! configuration.
//!
//! Contracts see bytes and lists as mathematical lists. Each limit is one constant and one definition with
//! the same number (`limits_are_defined`). `parse_size` and `number` read exactly the sizes and decimal
//! numbers of their definitions. A `Pattern` is what the grammar of `regex` reads from the rewritten text. A
//! `Search`, built once for many texts, finds its matches by `hits` and `captures`. Bytes, names and
//! patterns are `Send` and `Sync` (`bytes_are_send_sync`, `names_are_send_sync`, `patterns_are_send_sync`).
#![tactic(auto)]

mod bytes;
mod ids;
mod items;
pub mod limits;
mod masks;
mod memory;
mod numbers;
mod output_options;
mod pattern;
mod rewrite;
mod search;
mod size;
mod text;

pub use bytes::{Bytes, Names, bytes_are_send_sync, clone_optional, crosses, names_are_send_sync};
pub use ids::{ChunkId, ConnId, InputId, LinkId, OutputId};
pub use items::Items;
pub use masks::is_set;
pub use memory::Memory;
pub use numbers::{is_digits, number};
pub use output_options::{Form, Retries};
pub use pattern::{Pattern, PatternErr, patterns_are_send_sync};
pub use search::{Capture, Search};
pub use size::{NotASize, parse_size};
pub use text::{index_of, index_of_blank, is_blank, is_utf8, skip_blanks};
