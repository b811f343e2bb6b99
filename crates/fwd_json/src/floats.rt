//! How floats are read and written, and payloads with them.

use fwd_base::Form;

/// What a number that isn't an integer of at most 64 bits is in JSON.
#[derive(Clone, Copy, Debug, PartialEq, Eq)]
pub enum Floats {
    /// None is read. A float is written as a string with a tag and the hex digits of its bits.
    Tagged,
    /// It is a float of 64 bits. A float is written as a number, and as `null` if it isn't finite.
    Numbers,
}

/// The form of a payload, and what its floats are if it is text.
#[derive(Clone, Copy, Debug, PartialEq, Eq)]
pub struct PayloadForm {
    pub form: Form,
    pub floats: Floats,
}
