//! Lookup of a pair of a record by its key.

ghost use Rattle.std.specs.Prelude.{◌≡◌, position, option_map};
ghost use Rattle.fwd_value.specs.View.{val_of};
ghost use Rattle.fwd_value.specs.Keys.{is_text, has_key, key as key_of, has};

use crate::{Pairs, Value};
use fwd_base::Bytes;

/// Returns whether the value is this text.
pub fn is_text(value: &Value, text: &Bytes) -> bool
    ensures { result ≡ is_text text.now (val_of value.now) }
{
    let Value::Text(bytes) = value else {
        return false;
    };
    bytes == text
}

/// Returns the index of the first pair with the key.
pub fn index_of(body: &Pairs, key: &Bytes) -> Option<usize>
    ensures { result ≡ position (has_key key.now) body.now }
{
    body.iter().position(|pair| is_text(&pair.0, key))
}

/// Returns whether there is a pair with the key.
pub fn has(body: &Pairs, key: &Bytes) -> bool
    ensures { result ≡ has body.now key.now }
{
    body.iter().any(|pair| is_text(&pair.0, key))
}

/// Returns the value of the first pair with the key.
pub fn value_of<'b>(body: &'b Pairs, key: &Bytes) -> Option<&'b Value>
    ensures { option_map (λ v. val_of v.now) result ≡ option_map (λ p. p.1) (key_of body.now key.now) }
{
    match body.iter().find(|pair| is_text(&pair.0, key)) {
        Some(pair) => Some(&pair.1),
        None => None,
    }
}
