//! Floats as JSON text: the shortest decimal that reads back as the float, in the layout of the crate `ryu`
//! (`0.5`, `-0.0`, `1e-7`, `1.7976931348623157e308`), and `null` for an infinity or a NaN.
//!
//! `text64` and `text32` take a float's bits and return its text, which has at most 25 bytes. The text is a
//! function of the bits, `float_text`, defined in exact arithmetic: of the decimals that read as the float, those
//! with the greatest power of ten, and of these the nearest. The laws say that `float_text` reads back as the
//! float and is a number of JSON's grammar, and that no decimal with fewer digits reads as the float.
//!
//! One division of exact numbers gives 18 to 20 digits, of which the last are then cut off, one by one, as long
//! as the parser of `fast_float` reads back the float. The division begins with guesses in 128 bits; a wrong
//! guess costs time only.
#![tactic(auto)]

mod big;
mod float;
mod guess;
mod laws;
mod layout;
mod precision;
mod ratio;
mod shortest;
mod text;
mod window;

pub use float::{text32, text64};
pub use laws::{
    decimals_are_shortest, others_are_null, texts_are_ascii, texts_are_plain, texts_read_back,
};
pub use text::FloatText;
