//! Single values of a configuration.

use fwd_base::{Memory, Names, Retries, number};
use fwd_settings_schema::{
    ChangeWord, change, condition, field_types, flush_ms, is_false, is_hostname, is_plain, is_tag,
    is_uri, is_visible, key_and_rest, parts_at, port, positive, retries, same_name, truth,
};
use fwd_test_rows::{put_bytes, put_word};
use std::alloc::Global;

fn times(retries: Retries) -> u64 {
    match retries {
        Retries::Times(times) => times,
        Retries::Unlimited => u64::MAX,
    }
}

/// What is read: a truth value as 0 or 1, retries without a limit as the greatest number.
fn read(kind: &str, text: &[u8]) -> Option<u64> {
    match kind {
        "number" => number(text),
        "positive" => positive(text),
        "port" => port(text).map(|port| u64::from(port)),
        "flush" => flush_ms(text),
        "truth" => truth(text).map(|truth| u64::from(truth)),
        "retries" => retries(text).map(|retries| times(retries)),
        _ => Some(u64::from(passes(kind, text))),
    }
}

fn passes(kind: &str, text: &[u8]) -> bool {
    match kind {
        "false" => is_false(text),
        "name" => same_name(text, b"nginx"),
        "plain" => is_plain(text),
        "visible" => is_visible(text),
        "uri" => is_uri(text),
        "hostname" => is_hostname(text),
        _ => is_tag(text),
    }
}

/// `value|KIND|TEXT`: what is read.
pub fn put_value(out: &mut String, kind: &[u8], text: &[u8]) -> Result<(), Memory> {
    match read(str::from_utf8(kind).unwrap_or(""), text) {
        Some(u64::MAX) => out.push_str("greatest")?,
        Some(value) => write!(out, "{value}")?,
        None => out.push_str("refused")?,
    }
    Ok(())
}

fn is_taken(alloc: Global, rule: &str, text: &[u8]) -> Result<bool, Memory> {
    match rule {
        "set" => Ok(change(alloc, ChangeWord::Set, text)?.is_some()),
        "remove" => Ok(change(alloc, ChangeWord::Remove, text)?.is_some()),
        "rename" => Ok(change(alloc, ChangeWord::Rename, text)?.is_some()),
        "grep" => Ok(key_and_rest(alloc, text)?.is_some()),
        "condition" => Ok(condition(alloc, text)?.is_some()),
        _ => Ok(field_types(alloc, text)?.is_some()),
    }
}

/// `rule|KIND|TEXT`: whether the text is such a rule.
pub fn put_rule(alloc: Global, out: &mut String, rule: &[u8], text: &[u8]) -> Result<(), Memory> {
    let taken = is_taken(alloc, str::from_utf8(rule).unwrap_or(""), text)?;
    put_word(out, taken, "taken", "refused")
}

fn put_all_parts(out: &mut String, parts: &Names) -> Result<(), Memory> {
    for part in parts.as_slice() {
        put_bytes(out, part.as_slice())?;
        out.push(';')?;
    }
    Ok(())
}

fn parts(alloc: Global, text: &[u8]) -> Result<String, Memory> {
    let mut shown = String::new(alloc);
    put_all_parts(&mut shown, &parts_at(alloc, b",", text)?)?;
    Ok(shown)
}

/// `parts|TEXT`: the parts between commas, each with a semicolon after it.
pub fn put_parts(alloc: Global, out: &mut String, text: &[u8]) -> Result<(), Memory> {
    let shown = parts(alloc, text)?;
    put_bytes(out, shown.as_str().as_bytes())
}
