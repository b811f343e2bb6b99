//! Theorems about floats.

ghost use Rattle.fwd_json.specs.FloatLaws.{ReadsBack};

use fwd_float::{texts_are_plain, texts_read_back};

/// A float of 64 bits that is written as a number is read as the same float, unless it is infinite or NaN.
pub fn floats_are_read_back()
    ensures { ReadsBack }
{
    texts_read_back();
    texts_are_plain();
}
