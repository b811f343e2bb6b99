//! Numbers of JSON as values.

ghost use Rattle.std.specs.Prelude.{◌≡◌, ◌==◌, ◌<◌, IsTrue, length, slice_index, option_map, true, false};
ghost use Rattle.serde_json.specs.Read.{number_of, number_from, float_of};
ghost use Rattle.fwd_value.specs.View.{val_of};
ghost use Rattle.fwd_json.specs.LinePairs.{number_value};
ghost use Rattle.fwd_json.specs.declared.floats.Floats.TheVariants.{Numbers};

use fast_float::Numeral;
use fwd_value::{Below, Value};
use std::num::f64_to_bits_with_nan;

/// Returns the value of the text of a number, if a float can hold it.
pub(crate) fn number(text: &str) -> Option<Value>
    ensures { option_map val_of result ≡ option_map (number_value Numbers) (number_of text.now) }
{
    let bytes = text.as_bytes();
    if has_minus(bytes) {
        negative(&Numeral::scan(&bytes[1..]))
    } else {
        unsigned(&Numeral::scan(bytes))
    }
}

fn has_minus(bytes: &[u8]) -> bool
    ensures value { result ≡ (slice_index bytes.now 0 == 45) }
    ensures some { IsTrue result → 0 < length bytes.now }
{
    !bytes.is_empty() && bytes[0] == b'-'
}

fn unsigned(numeral: &Numeral<'_>) -> Option<Value>
    ensures { option_map val_of result ≡ option_map (number_value Numbers) (number_from false numeral.now) }
{
    match numeral.to_u64() {
        Some(n) => Some(Value::Uint(n)),
        None => nearest(false, numeral),
    }
}

fn negative(numeral: &Numeral<'_>) -> Option<Value>
    ensures { option_map val_of result ≡ option_map (number_value Numbers) (number_from true numeral.now) }
{
    match numeral.to_i64(true).and_then(Below::of) {
        Some(n) => Some(Value::Neg(n)),
        None => nearest(true, numeral),
    }
}

/// Returns the nearest float, if it is finite.
fn nearest(negative: bool, numeral: &Numeral<'_>) -> Option<Value>
    ensures { option_map val_of result ≡ option_map (number_value Numbers) (float_of negative numeral.now) }
{
    let x = numeral.to_float::<f64>(negative);
    if x.is_finite() {
        Some(Value::Float64(f64_to_bits_with_nan(x)))
    } else {
        None
    }
}
