//! Parsers of log lines. The record of an event is the whole line, the pairs of a JSON object, or the named
//! groups of a pattern with types. Its time is read from a field by a format of directives, or is the
//! clock's.
//!
//! `Parser::parse`, and for many lines the reader that a parser makes, return the event that the definition
//! gives for the parser, the line and the clock, or out of memory and no other error. `LineReader::write` appends
//! the encoding of that event to bytes, without the event itself. `time_of` returns the
//! moment of a text under a format. The calendar is that of `jiff`, JSON that of `serde_json`, floats in
//! texts those of `fast_float`, patterns that of `regex`.
#![tactic(auto)]

mod calendar;
mod digits;
mod directives;
mod encoding;
mod event_time;
mod fields;
mod lent_fields;
mod parser;
mod reader;
mod shapes;
mod time;

pub use fwd_base::{Bytes, Memory, Pattern};
pub use fwd_event::{Event, Pairs, Value};
pub use fwd_json::Floats;
pub use parser::{FieldType, FieldTypes, Parser, Shape, TimeRule, TypeKind};
pub use reader::LineReader;
pub use time::time_of;
