//! Laws of the text. Each is the contract of a function that does nothing.

ghost use Rattle.std.specs.Float.Ieee.{Format};
ghost use Rattle.fwd_float.specs.Laws.{ReadsBack, IsPlainText, HasParts, IsNullOtherwise, IsAsciiText, HasFewestDigits, IsNearest};

/// The text of each finite float is read as that float, in either format.
pub fn texts_read_back()
    ensures { (f : Format) → ReadsBack f }
{}

/// The text of each finite float is a number of JSON's grammar, with a point or an exponent.
pub fn texts_are_plain()
    ensures plain { (f : Format) → IsPlainText f }
    ensures parts { (f : Format) → HasParts f }
{}

/// The text of an infinity and of a NaN is `null`.
pub fn others_are_null()
    ensures { (f : Format) → IsNullOtherwise f }
{}

/// The text of each float is ASCII.
pub fn texts_are_ascii()
    ensures { (f : Format) → IsAsciiText f }
{}

/// No decimal with fewer digits reads as the float, and none with the power that is written is nearer to it.
pub fn decimals_are_shortest()
    ensures fewest { (f : Format) → HasFewestDigits f }
    ensures nearest { (f : Format) → IsNearest f }
{}
