//! Types of a parser's fields.

ghost use Rattle.std.specs.Prelude.{◌≡◌, IfOk};
ghost use Rattle.fwd_settings_values.specs.Types.{type_of, field_type_of, types_of_words, types_of};

use crate::texts::parts_at;
use fwd_base::{Bytes, Memory, Names, index_of};
use fwd_parser::{FieldType, FieldTypes, TypeKind};
use std::alloc::Global;

/// Parses types of fields: words `key:type` separated by blanks. `None` if a word has no colon.
pub fn field_types(alloc: Global, text: &[u8]) -> Result<Option<FieldTypes>, Memory>
    ensures { IfOk result (λ types. types ≡ types_of text.now) }
{
    let words = parts_at(alloc, b" \t", text)?;
    types_of_words(alloc, &words)
}

fn types_of_words(alloc: Global, words: &Names) -> Result<Option<FieldTypes>, Memory>
    ensures { IfOk result (λ types. types ≡ types_of_words words.now) }
{
    let mut types = FieldTypes::new(alloc);
    for word in words.as_slice() {
        let word = word.as_slice();
        if word.is_empty() {
            continue;
        }
        match field_type(alloc, word)? {
            Some(field) => types.push(field)?,
            None => return Ok(None),
        }
    }
    Ok(Some(types))
}

fn field_type(alloc: Global, word: &[u8]) -> Result<Option<FieldType>, Memory>
    ensures { IfOk result (λ field. field ≡ field_type_of word.now) }
{
    let end = index_of(word, b':');
    if end < word.len() {
        Ok(Some(FieldType {
            key: Bytes::from_slice(alloc, &word[..end])?,
            kind: type_kind(&word[end + 1..]),
        }))
    } else {
        Ok(None)
    }
}

fn type_kind(name: &[u8]) -> TypeKind
    ensures { result ≡ type_of name.now }
{
    if name == b"integer".as_slice() {
        TypeKind::Integer
    } else if name == b"hex".as_slice() {
        TypeKind::Hex
    } else if name == b"bool".as_slice() {
        TypeKind::Bool
    } else if name == b"float".as_slice() {
        TypeKind::Float
    } else {
        TypeKind::Text
    }
}
