//! The parsers of a configuration.

use crate::LineReader;
use fwd_base::{Bytes, Items, Memory, Pattern};
use fwd_event::Event;
use fwd_json::Floats;
use std::alloc::Global;

/// How to read the event of a line.
#[derive(Debug, Drop)]
pub struct Parser {
    pub shape: Shape,

    /// The field with the event's time. Without it, the event has the time of the clock.
    pub time: Option<TimeRule>,

    /// Whether floats are read.
    pub floats: Floats,
}

/// What to read a line as.
#[derive(Debug, Drop)]
pub enum Shape {
    /// The whole line, under `log`.
    Plain,
    /// A JSON object, whose pairs are the record.
    Json,
    /// A text that a pattern matches, whose named groups are the record.
    Groups {
        pattern: Pattern,
        types: FieldTypes,
        /// Whether to leave out a group that matched no bytes.
        skip_empty: bool,
    },
}

/// The type of a field of the record.
#[derive(Debug, Drop)]
pub struct FieldType {
    pub key: Bytes,
    pub kind: TypeKind,
}

/// What to read the text of a field as.
#[derive(Clone, Copy, Debug, PartialEq, Eq)]
pub enum TypeKind {
    /// A whole number in decimal.
    Integer,
    /// A whole number in hexadecimal.
    Hex,
    /// `true` or `false`.
    Bool,
    /// A float of 64 bits, if floats are read.
    Float,
    /// The text itself.
    Text,
}

/// Types of fields. If a key is given twice, the last counts.
pub type FieldTypes = Items<FieldType>;

/// The field of the record that has the event's time.
#[derive(Debug, Drop)]
pub struct TimeRule {
    pub key: Bytes,
    pub format: Bytes,
    /// Whether the field stays in the record.
    pub keep: bool,
}

impl Parser {
    ghost use Rattle.std.specs.Prelude.{◌≡◌, IfOk, IsTrue, None};
    ghost use Rattle.fwd_parser.specs.LineEvent.{parsed};
    ghost use Rattle.fwd_parser.specs.declared.parser.Shape.TheVariants as shape;

    /// Returns whether each line is kept whole, with the time of the clock.
    pub(crate) fn keeps_lines(&self) -> bool
        ensures { IsTrue result → (self.now.shape ≡ shape.Plain) × (self.now.time ≡ None) }
    {
        match self.shape {
            Shape::Plain => self.time.is_none(),
            Shape::Json | Shape::Groups { .. } => false,
        }
    }

    /// Returns a reader for many lines.
    pub fn reader(&self, alloc: Global) -> Result<LineReader<'_>, Memory>
        ensures { IfOk result (λ reader. reader ≡ self.now) }
    {
        LineReader::new(alloc, self)
    }

    /// Returns the event of one line. `now` is the greatest reading of the clock so far, in milliseconds
    /// since 1970 in UTC; above 4,294,967,295,999 it counts as this. A line that doesn't have the parser's
    /// shape is kept whole under `log`. The program doesn't use it (it makes one reader for a batch): it is
    /// for callers that have one line.
    pub fn parse(&self, alloc: Global, line: &[u8], now: u64) -> Result<Event, Memory>
        ensures { IfOk result (λ event. event ≡ parsed self.now line.now now) }
    {
        let mut reader = self.reader(alloc)?;
        reader.read(alloc, line, now)
    }
}
