//! Parsing of one line of a configuration file.

ghost use Rattle.std.specs.Prelude.{◌≡◌, ◌<◌, ◌∷◌, length};
ghost use Rattle.std.specs.Str.{str_eq_ignore_ascii_case};
ghost use Rattle.std.specs.Str.Lines.{strip_carriage_return};
ghost use Rattle.fwd_config.specs.Line.{lines_of, form_of, heading_of, command_of, setting_of, word, value, drop_end_blanks};
ghost use Rattle.fwd_config.specs.Representation.{form};

use fwd_base::{index_of, index_of_blank, is_blank, skip_blanks};

/// A parsed line. Its parts are slices of the line.
pub enum Line<'a> {
    /// An empty line or a comment.
    Nothing,
    /// The lines of another file come here.
    Include { path: &'a [u8] },
    /// A variable gets a value.
    Set { name: &'a [u8], value: &'a [u8] },
    /// A section begins.
    Header { name: &'a [u8] },
    /// An entry: a key with its value.
    Pair { key: &'a [u8], value: &'a [u8] },
    /// A line that begins with `[` and isn't a header.
    BadHeader,
    /// A line that begins with `@` and isn't a command.
    BadCommand,
}

/// Returns the first line of a text that isn't empty, without its line feed and a carriage return before
/// it, and the text after it.
pub fn first_line(text: &[u8]) -> (&[u8], &[u8])
    requires { 0 < length text.now }
    ensures first { lines_of text.now ≡ result.0.now ∷ lines_of result.1.now }
    ensures shorter { length result.1.now < length text.now }
{
    let end = index_of(text, b'\n');
    if end < text.len() {
        (without_return(&text[..end]), &text[end + 1..])
    } else {
        (without_return(text), &text[end..])
    }
}

fn without_return(line: &[u8]) -> &[u8]
    ensures { result.now ≡ strip_carriage_return line.now }
{
    match line {
        [front @ .., b'\r'] => front,
        _ => line,
    }
}

/// Parses a line.
pub fn read_line(line: &[u8]) -> Line<'_>
    ensures { form result ≡ form_of line.now }
{
    let text = skip_blanks(line);
    match text {
        [] | [b'#', ..] => Line::Nothing,
        [b'[', header @ ..] => read_header(without_end_blanks(header)),
        [b'@', command @ ..] => read_command(command),
        _ => {
            let (key, value) = split_word(text);
            Line::Pair { key, value }
        }
    }
}

/// Parses a header after its `[`, without the blanks at the end of the line.
fn read_header(text: &[u8]) -> Line<'_>
    ensures { form result ≡ heading_of text.now }
{
    let end = index_of(text, b']');
    if end > 0 && end < text.len() && end + 1 == text.len() {
        Line::Header { name: &text[..end] }
    } else {
        Line::BadHeader
    }
}

/// Parses a command after its `@`.
fn read_command(command: &[u8]) -> Line<'_>
    ensures { form result ≡ command_of (word command.now) (value command.now) }
{
    let (name, value) = split_word(command);
    if same_name(name, b"include") {
        return Line::Include { path: value };
    }
    if same_name(name, b"set") {
        return read_set(value);
    }
    Line::BadCommand
}

/// Returns whether a name of a command, a section or a key is the known one, case ignored.
pub fn same_name(name: &[u8], known: &[u8]) -> bool
    ensures { result ≡ str_eq_ignore_ascii_case name.now known.now }
{
    name.eq_ignore_ascii_case(known)
}

/// Parses what follows `@SET`.
fn read_set(text: &[u8]) -> Line<'_>
    ensures { form result ≡ setting_of text.now }
{
    let end = index_of(text, b'=');
    if end > 0 && end < text.len() {
        Line::Set {
            name: &text[..end],
            value: &text[end + 1..],
        }
    } else {
        Line::BadCommand
    }
}

/// Returns a text's first word and its value: what follows the word, without the blanks around it.
fn split_word(text: &[u8]) -> (&[u8], &[u8])
    ensures word { result.0.now ≡ word text.now }
    ensures value { result.1.now ≡ value text.now }
{
    let end = index_of_blank(text);
    let behind = skip_blanks(&text[end..]);
    (&text[..end], without_end_blanks(behind))
}

fn without_end_blanks(text: &[u8]) -> &[u8]
    ensures { result.now ≡ drop_end_blanks text.now }
{
    let mut end = text.len();
    while end > 0 && is_blank(text[end - 1]) {
        end -= 1;
    }
    &text[..end]
}
