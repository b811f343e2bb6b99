//! Terms of HTTP that a configuration names: fields of a request's head, and ranges of a reply's statuses.
#![tactic(auto)]

mod fields;
mod statuses;

pub use fields::{HeaderField, HeaderFields, is_field_name, is_field_value};
pub use statuses::{StatusRange, StatusRanges, copy_of, is_retried};
