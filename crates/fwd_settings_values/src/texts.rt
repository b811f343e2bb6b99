//! Tests on texts, and parts of texts.

ghost use Rattle.std.specs.Prelude.{◌≡◌, IfOk};
ghost use Rattle.std.specs.Str.{str_eq_ignore_ascii_case};
ghost use Rattle.fwd_settings_values.specs.Text.{is_tag_text, is_id_text, is_hostname_text, has_blank, is_plain_text, is_visible_text, is_uri_text, is_one_of, parts_of, first_word, rest};

use fwd_base::limits::{LONGEST_NAME, LONGEST_TAG};
use fwd_base::{Bytes, Memory, Names, index_of_blank, is_blank, is_utf8, skip_blanks};
use std::alloc::Global;
use std::mem;

/// The most bytes of a host name.
const LONGEST_HOSTNAME: usize = 255;

/// Returns whether a text may be a tag: 1 to 1,024 bytes of UTF-8.
pub fn is_tag(text: &[u8]) -> bool
    ensures { result ≡ is_tag_text text.now }
{
    !text.is_empty() && text.len() <= LONGEST_TAG && is_utf8(text)
}

/// Returns whether a text may be the id of an output: 1 to 255 bytes of UTF-8 without blanks.
pub fn is_id(text: &[u8]) -> bool
    ensures { result ≡ is_id_text text.now }
{
    !text.is_empty() && text.len() <= LONGEST_NAME && is_utf8(text) && !has_blank(text)
}

/// Returns whether a text may be a host name: at most 255 bytes.
pub fn is_hostname(text: &[u8]) -> bool
    ensures { result ≡ is_hostname_text text.now }
{
    text.len() <= LONGEST_HOSTNAME
}

fn has_blank(text: &[u8]) -> bool
    ensures { result ≡ has_blank text.now }
{
    text.iter().any(|byte| is_blank(*byte))
}

/// Returns whether two names are the same, case ignored.
pub fn same_name(name: &[u8], other: &[u8]) -> bool
    ensures { result ≡ str_eq_ignore_ascii_case name.now other.now }
{
    name.eq_ignore_ascii_case(other)
}

/// Returns whether a text has only visible ASCII characters.
pub fn is_visible(text: &[u8]) -> bool
    ensures { result ≡ is_visible_text text.now }
{
    text.iter().all(|byte| byte.is_ascii_graphic())
}

/// Returns whether a text may be the URI of a request: a slash, then only visible ASCII characters.
pub fn is_uri(text: &[u8]) -> bool
    ensures { result ≡ is_uri_text text.now }
{
    match text {
        [b'/', rest @ ..] => is_visible(rest),
        _ => false,
    }
}

/// Returns whether a text has no star.
pub fn is_plain(text: &[u8]) -> bool
    ensures { result ≡ is_plain_text text.now }
{
    !is_one_of(text, b'*')
}

fn is_one_of(some: &[u8], byte: u8) -> bool
    ensures { result ≡ is_one_of some.now byte }
{
    some.iter().any(|other| byte == *other)
}

/// Returns the parts of a text between separators, also the empty ones.
pub fn parts_at(alloc: Global, separators: &[u8], text: &[u8]) -> Result<Names, Memory>
    ensures { IfOk result (λ parts. parts ≡ parts_of separators.now text.now) }
{
    let mut parts = Names::new(alloc);
    let mut part = Bytes::new(alloc);
    for byte in text {
        if is_one_of(separators, *byte) {
            let whole = mem::replace(&mut part, Bytes::new(alloc));
            parts.push(whole)?;
            continue;
        }
        part.push(*byte)?;
    }
    parts.push(part)?;
    Ok(parts)
}

/// Returns a text's first word, and what follows it and the blanks after it.
pub fn split_word(text: &[u8]) -> (&[u8], &[u8])
    ensures word { result.0.now ≡ first_word text.now }
    ensures rest { result.1.now ≡ rest text.now }
{
    let text = skip_blanks(text);
    let end = index_of_blank(text);
    (&text[..end], skip_blanks(&text[end..]))
}
