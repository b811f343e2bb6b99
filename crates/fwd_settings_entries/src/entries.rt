//! Reading of entries by the table of keys.

ghost use Rattle.fwd_settings_values.specs.Rule.{key_and_rest_of};
ghost use Rattle.fwd_settings_entries.specs.Reading.{ReturnsResult, known, fault, at};
ghost use Rattle.fwd_settings_entries.specs.Values.{value_of, pattern_property, grep_of, id_value, property_value, entry_property, entry_properties};
ghost use Rattle.fwd_settings_entries.specs.Parsers.{no_parser, parser_named};

use crate::parsers::parser_named;
use crate::read_err::ReadErr;
use crate::values::read_plain;
use fwd_base::{Bytes, Pattern, PatternErr};
use fwd_config::{Entry, Place, Section};
use fwd_grep::GrepRule;
use fwd_parser::Floats;
use fwd_settings_schema::{
    Kind, Plain, Properties, Property, SettingFault, SettingKind, Target, Value, is_id,
    key_and_rest, key_of,
};
use std::alloc::Global;

/// Returns the error of this kind, with a copy of the place.
pub fn refuse<T>(alloc: Global, kind: SettingKind, place: &Place) -> Result<T, ReadErr>
    ensures { ReturnsResult {X = T} (known (Err (fault kind place.now))) result }
{
    match place.try_clone(alloc) {
        Ok(place) => Err(ReadErr::Refused(SettingFault { kind, place })),
        Err(_) => Err(ReadErr::Memory),
    }
}

/// Reads a value that is neither a pattern nor a parser.
fn read_plain_value(alloc: Global, plain: Plain, entry: &Entry) -> Result<Value, ReadErr>
    ensures { ReturnsResult (known (at entry.now.place (value_of plain entry.now.value))) result }
{
    match read_plain(alloc, plain, entry.value.as_slice()) {
        Ok(value) => Ok(value),
        Err(SettingKind::Memory) => Err(ReadErr::Memory),
        Err(kind) => refuse(alloc, kind, &entry.place),
    }
}

/// Reads a pattern.
fn read_pattern(alloc: Global, entry: &Entry) -> Result<Value, ReadErr>
    ensures { ReturnsResult (pattern_property entry.now) result }
{
    match Pattern::new(alloc, entry.value.as_slice()) {
        Ok(pattern) => Ok(Value::Pattern(pattern)),
        Err(PatternErr::Refused) => refuse(alloc, SettingKind::PatternRefused, &entry.place),
        Err(PatternErr::Memory) => Err(ReadErr::Memory),
    }
}

/// Returns a rule of `grep` with this key and pattern.
fn build_grep_rule(
    alloc: Global,
    exclude: bool,
    place: &Place,
    key: Bytes,
    text: &[u8],
) -> Result<Value, ReadErr>
    ensures { ReturnsResult (grep_of exclude place.now (Some (key, text.now))) result }
{
    match Pattern::new(alloc, text) {
        Ok(pattern) => Ok(Value::Grep(GrepRule {
            exclude,
            key,
            pattern,
            floats: Floats::Tagged,
        })),
        Err(PatternErr::Refused) => refuse(alloc, SettingKind::PatternRefused, place),
        Err(PatternErr::Memory) => Err(ReadErr::Memory),
    }
}

/// Reads a rule of `grep`.
fn read_grep(alloc: Global, exclude: bool, entry: &Entry) -> Result<Value, ReadErr>
    ensures { ReturnsResult (grep_of exclude entry.now.place (key_and_rest_of entry.now.value)) result }
{
    match key_and_rest(alloc, entry.value.as_slice())? {
        Some((key, text)) => build_grep_rule(alloc, exclude, &entry.place, key, text.as_slice()),
        None => refuse(alloc, SettingKind::BadChoice, &entry.place),
    }
}

/// Reads the id of an output.
fn read_id(alloc: Global, entry: &Entry) -> Result<Value, ReadErr>
    ensures { ReturnsResult (known (id_value entry.now)) result }
{
    if !is_id(entry.value.as_slice()) {
        return refuse(alloc, SettingKind::BadChoice, &entry.place);
    }
    Ok(Value::Id {
        name: entry.value.try_clone(alloc)?,
        place: entry.place.try_clone(alloc)?,
    })
}

/// Reads a value of a PARSER section.
fn read_parser_value(alloc: Global, kind: Kind, entry: &Entry) -> Result<Value, ReadErr>
    ensures { ReturnsResult (property_value no_parser kind entry.now) result }
{
    match kind {
        Kind::Plain(plain) => read_plain_value(alloc, plain, entry),
        Kind::Pattern => read_pattern(alloc, entry),
        Kind::Grep { exclude } => read_grep(alloc, exclude, entry),
        Kind::Id => read_id(alloc, entry),
        Kind::Parser => refuse(alloc, SettingKind::BadChoice, &entry.place),
    }
}

/// Reads a value of a section that isn't a PARSER.
fn value(alloc: Global, all: &[Section], kind: Kind, entry: &Entry) -> Result<Value, ReadErr>
    ensures { ReturnsResult (property_value (parser_named all.now) kind entry.now) result }
{
    match kind {
        Kind::Plain(plain) => read_plain_value(alloc, plain, entry),
        Kind::Pattern => read_pattern(alloc, entry),
        Kind::Grep { exclude } => read_grep(alloc, exclude, entry),
        Kind::Id => read_id(alloc, entry),
        Kind::Parser => {
            let parser = parser_named(alloc, all, entry)?;
            Ok(Value::Parser(parser))
        }
    }
}

fn read_parser_entry(alloc: Global, entry: &Entry) -> Result<Property, ReadErr>
    ensures { ReturnsResult (entry_property no_parser Target.Parser entry.now) result }
{
    let Some((key, kind)) = key_of(Target::Parser, entry.key.as_slice()) else {
        return refuse(alloc, SettingKind::UnknownKey, &entry.place);
    };
    let value = read_parser_value(alloc, kind, entry)?;
    Ok(Property { key, value })
}

fn read_entry(
    alloc: Global,
    all: &[Section],
    target: Target,
    entry: &Entry,
) -> Result<Property, ReadErr>
    ensures { ReturnsResult (entry_property (parser_named all.now) target entry.now) result }
{
    let Some((key, kind)) = key_of(target, entry.key.as_slice()) else {
        return refuse(alloc, SettingKind::UnknownKey, &entry.place);
    };
    let value = value(alloc, all, kind, entry)?;
    Ok(Property { key, value })
}

/// Reads the entries of a PARSER section.
pub fn read_parser_entries(alloc: Global, entries: &[Entry]) -> Result<Properties, ReadErr>
    ensures { ReturnsResult (entry_properties no_parser Target.Parser entries.now) result }
{
    let mut properties = Properties::new(alloc);
    for entry in entries {
        let item = read_parser_entry(alloc, entry)?;
        properties.push(item)?;
    }
    Ok(properties)
}

/// Reads the entries of another section. An entry that names a parser gives the parser, whose section is
/// checked there.
pub fn read_entries(
    alloc: Global,
    all: &[Section],
    target: Target,
    entries: &[Entry],
) -> Result<Properties, ReadErr>
    ensures { ReturnsResult (entry_properties (parser_named all.now) target entries.now) result }
{
    let mut properties = Properties::new(alloc);
    for entry in entries {
        let item = read_entry(alloc, all, target, entry)?;
        properties.push(item)?;
    }
    Ok(properties)
}
