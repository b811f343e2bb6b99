//! Rules of the filters `grep` and `modify`, and header fields.

ghost use Rattle.std.specs.Prelude.{◌≡◌, IfOk, option_map};
ghost use Rattle.fwd_settings_values.specs.Rule.{is_key, one_key, key_and_rest_of, two_keys, header_of, condition_of, change_of};

use crate::texts::{same_name, split_word};
use fwd_base::{Bytes, Memory};
use fwd_http::{HeaderField, is_field_name, is_field_value};
use fwd_reshape::{Change, Condition};
use std::alloc::Global;

/// The change that a rule of `modify` makes.
#[derive(Clone, Copy, Debug, PartialEq, Eq)]
pub enum ChangeWord {
    Set,
    Add,
    Remove,
    RemoveWildcard,
    Rename,
    HardRename,
    Copy,
    HardCopy,
}

/// Returns whether a text may be a key: it isn't empty and doesn't begin with a dollar.
fn is_key(text: &[u8]) -> bool
    ensures { result ≡ is_key text.now }
{
    match text {
        [] => false,
        [first, ..] => *first != b'$',
    }
}

/// Returns the key of a text that is one key and nothing else.
fn one_key(alloc: Global, text: &[u8]) -> Result<Option<Bytes>, Memory>
    ensures { IfOk result (λ key. key ≡ one_key text.now) }
{
    let (key, rest) = split_word(text);
    if !is_key(key) || !rest.is_empty() {
        return Ok(None);
    }
    Ok(Some(Bytes::from_slice(alloc, key)?))
}

/// Returns a key, and the whole rest of the text after it, if both are there.
pub fn key_and_rest(alloc: Global, text: &[u8]) -> Result<Option<(Bytes, Bytes)>, Memory>
    ensures { IfOk result (λ parts. parts ≡ key_and_rest_of text.now) }
{
    let (key, rest) = split_word(text);
    if !is_key(key) || rest.is_empty() {
        return Ok(None);
    }
    Ok(Some((
        Bytes::from_slice(alloc, key)?,
        Bytes::from_slice(alloc, rest)?,
    )))
}

/// Returns a key, and the whole rest of the text as another key.
fn two_keys(alloc: Global, text: &[u8]) -> Result<Option<(Bytes, Bytes)>, Memory>
    ensures { IfOk result (λ parts. parts ≡ two_keys text.now) }
{
    let (key, other) = split_word(text);
    if !is_key(key) || !is_key(other) {
        return Ok(None);
    }
    Ok(Some((
        Bytes::from_slice(alloc, key)?,
        Bytes::from_slice(alloc, other)?,
    )))
}

/// Parses the name and the value of a header field: the first word, and the whole rest after it. `None` if
/// one of them isn't there or has other characters.
pub fn header(alloc: Global, text: &[u8]) -> Result<Option<HeaderField>, Memory>
    ensures { IfOk result (λ field. field ≡ header_of text.now) }
{
    let (name, value) = split_word(text);
    if !is_field_name(name) || value.is_empty() || !is_field_value(value) {
        return Ok(None);
    }
    Ok(Some(HeaderField {
        name: Bytes::from_slice(alloc, name)?,
        value: Bytes::from_slice(alloc, value)?,
    }))
}

/// Parses a condition of `modify`, whose first word ignores case. `None` if the text isn't one.
pub fn condition(alloc: Global, text: &[u8]) -> Result<Option<Condition>, Memory>
    ensures { IfOk result (λ condition. condition ≡ condition_of text.now) }
{
    let (word, rest) = split_word(text);
    if same_name(word, b"key_exists") {
        return Ok(one_key(alloc, rest)?.map(|key| Condition::KeyExists { key }));
    }
    if same_name(word, b"key_does_not_exist") {
        return Ok(one_key(alloc, rest)?.map(|key| Condition::KeyDoesNotExist { key }));
    }
    if same_name(word, b"key_value_equals") {
        return Ok(key_and_rest(alloc, rest)?.map(|(key, value)| Condition::KeyValueEquals {
            key,
            value,
        }));
    }
    if same_name(word, b"key_value_does_not_equal") {
        return Ok(key_and_rest(alloc, rest)?.map(|(key, value)| Condition::KeyValueDoesNotEqual {
            key,
            value,
        }));
    }
    Ok(None)
}

/// Parses the change of a rule of `modify`. `None` if the text isn't one.
pub fn change(alloc: Global, word: ChangeWord, text: &[u8]) -> Result<Option<Change>, Memory>
    ensures { IfOk result (λ change. change ≡ change_of word text.now) }
{
    Ok(match word {
        ChangeWord::Set => {
            key_and_rest(alloc, text)?.map(|(key, value)| Change::Set { key, value })
        }
        ChangeWord::Add => {
            key_and_rest(alloc, text)?.map(|(key, value)| Change::Add { key, value })
        }
        ChangeWord::Remove => one_key(alloc, text)?.map(|key| Change::Remove { key }),
        ChangeWord::RemoveWildcard => {
            one_key(alloc, text)?.map(|key| Change::RemoveWildcard { key })
        }
        ChangeWord::Rename => two_keys(alloc, text)?.map(|(key, to)| Change::Rename { key, to }),
        ChangeWord::HardRename => {
            two_keys(alloc, text)?.map(|(key, to)| Change::HardRename { key, to })
        }
        ChangeWord::Copy => two_keys(alloc, text)?.map(|(key, to)| Change::Copy { key, to }),
        ChangeWord::HardCopy => two_keys(alloc, text)?.map(|(key, to)| Change::HardCopy {
            key,
            to,
        }),
    })
}
