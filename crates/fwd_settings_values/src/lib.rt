//! Readers of the text of a value: numbers, truth values, words, tags, statuses, types of fields, and the
//! rules of filters.
//!
//! A reader returns `None` for a text that isn't of its kind, and fails only if an allocation fails.
//! Which key is read by which reader is decided in the table of keys, and the kind of error where the
//! entry is read.
#![tactic(auto)]

mod numbers;
mod rules;
mod statuses;
mod texts;
mod truth_words;
mod types;
mod words;

pub use numbers::{flush_ms, port, positive, retries};
pub use rules::{ChangeWord, change, condition, header, key_and_rest};
pub use statuses::status_ranges;
pub use texts::{is_hostname, is_id, is_plain, is_tag, is_uri, is_visible, parts_at, same_name};
pub use truth_words::{is_false, truth};
pub use types::field_types;
pub use words::{
    LineFormat, Operation, file_form, line_format, nest_operation, parser_format, record_form,
    store, sync,
};
