use fwd_base::{Bytes, Items, Memory};

/// A line, without its line feed.
#[derive(Debug, Drop, PartialEq, Eq)]
pub struct Line {
    /// The bytes of the line, without a trailing carriage return unless the line is cut.
    pub bytes: Bytes,

    /// Whether the line had more than `LONGEST_LINE` bytes, and was cut to the first ones.
    pub cut: bool,
}

/// Lines, in order.
pub type Lines = Items<Line>;
