//! Tests on keys, and records without keys.

ghost use Rattle.std.specs.Prelude.{◌≡◌, IfOk, filter, not};
ghost use Rattle.fwd_value.specs.Val.{text as text_val};
ghost use Rattle.fwd_value.specs.View.{val_of};
ghost use Rattle.fwd_value.specs.Keys.{has_key};
ghost use Rattle.fwd_reshape.specs.Rules.{begins_with};

use fwd_base::{Bytes, Memory};
use fwd_value::{Pairs, Value, is_text};
use std::alloc::Global;

/// Returns a value that is this text.
pub fn text(alloc: Global, bytes: &Bytes) -> Result<Value, Memory>
    ensures { IfOk result (λ value. val_of value ≡ text_val bytes.now) }
{
    Ok(Value::Text(bytes.try_clone(alloc)?))
}

/// Returns whether the value is a text that begins with this one.
pub fn begins_with(value: &Value, text: &Bytes) -> bool
    ensures { result ≡ begins_with text.now (val_of value.now) }
{
    let Value::Text(bytes) = value else {
        return false;
    };
    bytes.as_slice().starts_with(text.as_slice())
}

/// Returns the record without the pairs with the key.
pub fn without(body: Pairs, key: &Bytes) -> Pairs
    ensures { result ≡ filter (λ p. not (has_key key.now p)) body }
{
    let mut pairs = body.into_vec();
    pairs.retain(|pair| !is_text(&pair.0, key));
    Pairs::from_vec(pairs)
}

/// Returns the record without the pairs whose key is a text that begins with this one.
pub fn without_keys_beginning(body: Pairs, key: &Bytes) -> Pairs
    ensures { result ≡ filter (λ p. not (begins_with key.now p.0)) body }
{
    let mut pairs = body.into_vec();
    pairs.retain(|pair| !begins_with(&pair.0, key));
    Pairs::from_vec(pairs)
}
