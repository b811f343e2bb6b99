//! The words that values choose from, case ignored.

ghost use Rattle.std.specs.Prelude.{◌≡◌};
ghost use Rattle.fwd_settings_values.specs.Words.{sync_of, store_of, line_format_of, parser_format_of, record_form_of, file_form_of, operation_of};

use crate::texts::same_name;
use fwd_base::Form;

/// The format of lines.
#[derive(Clone, Copy)]
pub enum LineFormat {
    /// An object of JSON.
    Json,
    /// A text that a pattern matches.
    Regex,
    /// Any text.
    Plain,
}

/// What the filter `nest` does.
#[derive(Clone, Copy)]
pub enum Operation {
    Nest,
    Lift,
}

/// Returns whether each append is fsynced: `full`, or `normal` for no.
pub fn sync(text: &[u8]) -> Option<bool>
    ensures { result ≡ sync_of text.now }
{
    if same_name(text, b"full") {
        return Some(true);
    }
    if same_name(text, b"normal") {
        Some(false)
    } else {
        None
    }
}

/// Returns whether chunks are file-backed: `filesystem`, or `memory` for no.
pub fn store(text: &[u8]) -> Option<bool>
    ensures { result ≡ store_of text.now }
{
    if same_name(text, b"filesystem") {
        return Some(true);
    }
    if same_name(text, b"memory") {
        Some(false)
    } else {
        None
    }
}

/// Returns the format of a tcp input's lines: `json` or `none`.
pub fn line_format(text: &[u8]) -> Option<LineFormat>
    ensures { result ≡ line_format_of text.now }
{
    if same_name(text, b"json") {
        return Some(LineFormat::Json);
    }
    if same_name(text, b"none") {
        Some(LineFormat::Plain)
    } else {
        None
    }
}

/// Returns the format of a parser's lines: `json`, `none` or `regex`.
pub fn parser_format(text: &[u8]) -> Option<LineFormat>
    ensures { result ≡ parser_format_of text.now }
{
    if same_name(text, b"regex") {
        Some(LineFormat::Regex)
    } else {
        line_format(text)
    }
}

/// Returns the form of records for a stream: `json_lines` or `msgpack`.
pub fn record_form(text: &[u8]) -> Option<Form>
    ensures { result ≡ record_form_of text.now }
{
    if same_name(text, b"json_lines") {
        return Some(Form::JsonLines);
    }
    if same_name(text, b"msgpack") {
        Some(Form::MsgPack)
    } else {
        None
    }
}

/// Returns the form of records in a file: `out_file` or `json_lines`.
pub fn file_form(text: &[u8]) -> Option<Form>
    ensures { result ≡ file_form_of text.now }
{
    if same_name(text, b"out_file") {
        return Some(Form::OutFile);
    }
    if same_name(text, b"json_lines") {
        Some(Form::JsonLines)
    } else {
        None
    }
}

/// Returns the operation of `nest`: `nest` or `lift`.
pub fn nest_operation(text: &[u8]) -> Option<Operation>
    ensures { result ≡ operation_of text.now }
{
    if same_name(text, b"nest") {
        return Some(Operation::Nest);
    }
    if same_name(text, b"lift") {
        Some(Operation::Lift)
    } else {
        None
    }
}
