//! Reading of values that are neither patterns nor parsers.

ghost use Rattle.std.specs.Prelude.{◌≡◌, ◌≢◌, IfOk, IfErr};
ghost use Rattle.fwd_settings_schema.specs.declared.error_kind.SettingKind.TheVariants.{Memory};
ghost use Rattle.fwd_settings_schema.specs.declared.error_kind.SettingKind.TheVariants.{BadNumber, BadChoice};
ghost use Rattle.fwd_settings_entries.specs.Values.{value_of, or_else, when};
ghost use Rattle.fwd_settings_schema.specs.declared.keys.Plain.TheVariants as plain;

use fwd_base::{Bytes, Form, number, parse_size};
use fwd_http::is_field_value;
use fwd_settings_schema::{
    ChangeWord, LineFormat, Plain, SettingKind, Value, change, condition, field_types, file_form,
    flush_ms, header, is_false, is_hostname, is_plain, is_tag, is_uri, is_visible, line_format,
    nest_operation, parser_format, port, positive, record_form, retries, status_ranges, store,
    sync, truth,
};
use std::alloc::Global;

/// Returns a number, if there is one.
fn numeral(number: Option<u64>) -> Result<Value, SettingKind>
    ensures { result ≡ or_else BadNumber Value.Number number }
{
    match number {
        Some(number) => Ok(Value::Number(number)),
        None => Err(SettingKind::BadNumber),
    }
}

fn read_port(text: &[u8]) -> Result<Value, SettingKind>
    ensures { result ≡ value_of plain.Port text.now }
{
    match port(text) {
        Some(port) => Ok(Value::Port(port)),
        None => Err(SettingKind::BadNumber),
    }
}

fn read_retries(text: &[u8]) -> Result<Value, SettingKind>
    ensures { result ≡ value_of plain.Retries text.now }
{
    match retries(text) {
        Some(retries) => Ok(Value::Retries(retries)),
        None => Err(SettingKind::BadNumber),
    }
}

fn read_size(text: &[u8]) -> Result<Value, SettingKind>
    ensures { result ≡ value_of plain.Size text.now }
{
    match parse_size(text) {
        Ok(size) => Ok(Value::Number(size)),
        Err(_) => Err(SettingKind::BadSize),
    }
}

fn read_truth(truth: Option<bool>) -> Result<Value, SettingKind>
    ensures { result ≡ or_else BadChoice Value.Truth truth }
{
    match truth {
        Some(truth) => Ok(Value::Truth(truth)),
        None => Err(SettingKind::BadChoice),
    }
}

fn read_false(text: &[u8]) -> Result<Value, SettingKind>
    ensures { result ≡ value_of plain.False text.now }
{
    if is_false(text) {
        Ok(Value::Truth(false))
    } else {
        Err(SettingKind::BadChoice)
    }
}

fn read_format(format: Option<LineFormat>) -> Result<Value, SettingKind>
    ensures { result ≡ or_else BadChoice Value.Format format }
{
    match format {
        Some(format) => Ok(Value::Format(format)),
        None => Err(SettingKind::BadChoice),
    }
}

fn read_form(form: Option<Form>) -> Result<Value, SettingKind>
    ensures { result ≡ or_else BadChoice Value.Form form }
{
    match form {
        Some(form) => Ok(Value::Form(form)),
        None => Err(SettingKind::BadChoice),
    }
}

fn read_operation(text: &[u8]) -> Result<Value, SettingKind>
    ensures { result ≡ value_of plain.Operation text.now }
{
    match nest_operation(text) {
        Some(operation) => Ok(Value::Operation(operation)),
        None => Err(SettingKind::BadChoice),
    }
}

/// Returns a copy of the text, if the test passed.
fn text_if(alloc: Global, takes: bool, text: &[u8]) -> Result<Value, SettingKind>
    ensures ok { IfOk result (λ value. or_else BadChoice Value.Text (when takes text.now) ≡ Ok value) }
    ensures err { IfErr result (λ kind. kind ≢ Memory → or_else BadChoice Value.Text (when takes text.now) ≡ Err kind) }
{
    if takes {
        Ok(Value::Text(Bytes::from_slice(alloc, text)?))
    } else {
        Err(SettingKind::BadChoice)
    }
}

fn read_types(alloc: Global, text: &[u8]) -> Result<Value, SettingKind>
    ensures ok { IfOk result (λ value. value_of plain.Types text.now ≡ Ok value) }
    ensures err { IfErr result (λ kind. kind ≢ Memory → value_of plain.Types text.now ≡ Err kind) }
{
    text_if(alloc, field_types(alloc, text)?.is_some(), text)
}

fn read_statuses(alloc: Global, text: &[u8]) -> Result<Value, SettingKind>
    ensures ok { IfOk result (λ value. value_of plain.Statuses text.now ≡ Ok value) }
    ensures err { IfErr result (λ kind. kind ≢ Memory → value_of plain.Statuses text.now ≡ Err kind) }
{
    text_if(alloc, status_ranges(alloc, text)?.is_some(), text)
}

fn read_header(alloc: Global, text: &[u8]) -> Result<Value, SettingKind>
    ensures ok { IfOk result (λ value. value_of plain.Header text.now ≡ Ok value) }
    ensures err { IfErr result (λ kind. kind ≢ Memory → value_of plain.Header text.now ≡ Err kind) }
{
    match header(alloc, text)? {
        Some(field) => Ok(Value::Header(field)),
        None => Err(SettingKind::BadChoice),
    }
}

fn read_condition(alloc: Global, text: &[u8]) -> Result<Value, SettingKind>
    ensures ok { IfOk result (λ value. value_of plain.Condition text.now ≡ Ok value) }
    ensures err { IfErr result (λ kind. kind ≢ Memory → value_of plain.Condition text.now ≡ Err kind) }
{
    match condition(alloc, text)? {
        Some(condition) => Ok(Value::Condition(condition)),
        None => Err(SettingKind::BadChoice),
    }
}

fn read_change(alloc: Global, word: ChangeWord, text: &[u8]) -> Result<Value, SettingKind>
    ensures ok { IfOk result (λ value. value_of (plain.Change word) text.now ≡ Ok value) }
    ensures err { IfErr result (λ kind. kind ≢ Memory → value_of (plain.Change word) text.now ≡ Err kind) }
{
    match change(alloc, word, text)? {
        Some(change) => Ok(Value::Change(change)),
        None => Err(SettingKind::BadChoice),
    }
}

/// Reads a value that is neither a pattern nor a parser.
pub fn read_plain(alloc: Global, plain: Plain, text: &[u8]) -> Result<Value, SettingKind>
    ensures ok { IfOk result (λ value. value_of plain text.now ≡ Ok value) }
    ensures err { IfErr result (λ kind. kind ≢ Memory → value_of plain text.now ≡ Err kind) }
{
    match plain {
        Plain::Ignored => Ok(Value::Nothing),
        Plain::Number => numeral(number(text)),
        Plain::Positive => numeral(positive(text)),
        Plain::Flush => numeral(flush_ms(text)),
        Plain::Port => read_port(text),
        Plain::Retries => read_retries(text),
        Plain::Size => read_size(text),
        Plain::Truth => read_truth(truth(text)),
        Plain::False => read_false(text),
        Plain::Sync => read_truth(sync(text)),
        Plain::Store => read_truth(store(text)),
        Plain::LineFormat => read_format(line_format(text)),
        Plain::ParserFormat => read_format(parser_format(text)),
        Plain::RecordForm => read_form(record_form(text)),
        Plain::FileForm => read_form(file_form(text)),
        Plain::Operation => read_operation(text),
        Plain::Text => Ok(Value::Text(Bytes::from_slice(alloc, text)?)),
        Plain::Tag => text_if(alloc, is_tag(text), text),
        Plain::PlainTag => text_if(alloc, is_plain(text) && is_tag(text), text),
        Plain::Paths => text_if(alloc, is_plain(text), text),
        Plain::Visible => text_if(alloc, is_visible(text), text),
        Plain::Uri => text_if(alloc, is_uri(text), text),
        Plain::Hostname => text_if(alloc, is_hostname(text), text),
        Plain::Types => read_types(alloc, text),
        Plain::Statuses => read_statuses(alloc, text),
        Plain::Header => read_header(alloc, text),
        Plain::Printable => text_if(alloc, is_field_value(text), text),
        Plain::Condition => read_condition(alloc, text),
        Plain::Change(word) => read_change(alloc, word, text),
        Plain::Wildcard => Ok(Value::Wildcard(Bytes::from_slice(alloc, text)?)),
    }
}
