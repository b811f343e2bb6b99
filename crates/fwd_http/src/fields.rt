//! Fields of a request's head besides those that it always has.

ghost use Rattle.std.specs.Prelude.{◌≡◌};
ghost use Rattle.std.specs.List.{list_all};
ghost use Rattle.httparse.specs.Grammar.{is_token_byte};
ghost use Rattle.fwd_http.specs.Fields.{is_mark, is_field_name, is_field_value, is_printable};

use fwd_base::{Bytes, Items};

/// A field of a request's head.
#[derive(Debug, Drop, PartialEq, Eq)]
pub struct HeaderField {
    pub name: Bytes,
    pub value: Bytes,
}

/// Fields, in order.
pub type HeaderFields = Items<HeaderField>;

fn is_mark(byte: u8) -> bool
    ensures { result ≡ is_mark byte }
{
    b"!#$%&'*+-.^_`|~".iter().any(|mark| *mark == byte)
}

/// Returns whether a byte may stand in the name of a field.
#[tactic(auto, unfolding(httparse::specs::Grammar::is_token_byte))]
fn is_token_byte(byte: u8) -> bool
    ensures { result ≡ is_token_byte byte }
{
    byte.is_ascii_alphanumeric() || is_mark(byte)
}

fn are_token_bytes(name: &[u8]) -> bool
    ensures { result ≡ list_all is_token_byte name.now }
{
    name.iter().all(|byte| is_token_byte(*byte))
}

/// Returns whether a text may be the name of a field: letters and digits of ASCII and the marks of a token.
pub fn is_field_name(name: &[u8]) -> bool
    ensures { result ≡ is_field_name name.now }
{
    !name.is_empty() && are_token_bytes(name)
}

fn is_printable(byte: u8) -> bool
    ensures { result ≡ is_printable byte }
{
    matches!(byte, b' '..=b'~')
}

/// Returns whether a text may be the value of a field: printable ASCII.
pub fn is_field_value(value: &[u8]) -> bool
    ensures { result ≡ is_field_value value.now }
{
    value.iter().all(|byte| is_printable(*byte))
}
