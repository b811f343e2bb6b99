//! JSON: parsing a log line into the pairs of a record, and writing a value as one line of text, whatever
//! bytes it has.
//!
//! `pairs_of_json` returns the pairs of a line, or the first error in a fixed order, and a `JsonReader` those of
//! many lines. `json_text` writes a
//! value, `map_text` and `more_pairs_text` write pairs without a `Value`, and `string_text` and `key_text`
//! write bytes. `Floats` says what numbers that aren't whole are. A finite float that is written as a number is
//! read as the same float.
#![tactic(auto)]

mod floats;
mod members;
mod numbers;
mod reading;
mod text;
mod theorems;

pub use floats::{Floats, PayloadForm};
pub use fwd_base::{Bytes, Form, Memory};
pub use fwd_value::{Below, Pairs, Value, Values};
pub use reading::{JsonErr, JsonReader, pairs_of_json};
pub use text::{json_text, key_text, map_text, more_pairs_text, string_text, value_text};
pub use theorems::floats_are_read_back;
