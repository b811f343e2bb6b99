//! The value type, which has the data model of MessagePack: nil, booleans, numbers, texts, byte strings,
//! extensions, lists and maps. The fields of a log record are such values.
//!
//! Lookup in a record by key. A record is a list of key-value pairs in which a key may occur more than once;
//! filters and parsers use its first pair.
#![tactic(auto)]

mod below;
mod keys;
mod value;

pub use below::Below;
pub use keys::{has, index_of, is_text, value_of};
pub use value::{Pairs, Value, Values, values_are_send_sync};
