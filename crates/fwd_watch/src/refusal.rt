//! What is wrong with a refused configuration, in a line.

use crate::choices::{expectation_of, has_key, key_names, plugins_of};
use fwd_config::{Entry, Place, Section};
use fwd_settings_schema::{InputPlugin, SectionKind, SettingKind, Target, same_name};
use std::alloc::{AllocError, Global};

/// Appends bytes, or their readable part.
fn push_text(alloc: Global, text: &mut String, bytes: &[u8]) -> Result<(), AllocError> {
    let shown = String::from_utf8_lossy(alloc, bytes)?;
    text.push_str(shown.as_str())
}

fn is_at(place: &Place, other: &Place) -> bool {
    place.line == other.line && place.file.as_slice() == other.file.as_slice()
}

fn entry_at<'a>(section: &'a Section, place: &Place) -> Option<&'a Entry> {
    for entry in section.entries.as_slice() {
        if is_at(&entry.place, place) {
            return Some(entry);
        }
    }
    None
}

/// Returns the section that is or has the line at a place.
fn section_at<'a>(sections: &'a [Section], place: &Place) -> Option<&'a Section> {
    for section in sections {
        if is_at(&section.place, place) || entry_at(section, place).is_some() {
            return Some(section);
        }
    }
    None
}

/// Returns the value of the last entry with a key.
fn value_of<'a>(section: &'a Section, key: &[u8]) -> Option<&'a [u8]> {
    let mut value = None;
    for entry in section.entries.as_slice() {
        if same_name(entry.key.as_slice(), key) {
            value = Some(entry.value.as_slice());
        }
    }
    value
}

fn target_of(section: &Section) -> Option<Target> {
    let kind = SectionKind::of(section.name.as_slice())?;
    match kind {
        SectionKind::Service => Some(Target::Service),
        SectionKind::Parser => Some(Target::Parser),
        SectionKind::Input | SectionKind::Filter | SectionKind::Output => {
            kind.plugin(value_of(section, b"name")?)
        }
    }
}

/// Appends what a section configures: its plugin, or its own name.
fn push_part(alloc: Global, text: &mut String, section: &Section) -> Result<(), AllocError> {
    match value_of(section, b"name") {
        Some(name) => push_text(alloc, text, name),
        None => push_text(alloc, text, section.name.as_slice()),
    }
}

/// Appends the names of the keys that a section or plugin has.
fn push_keys(text: &mut String, target: Target) -> Result<(), AllocError> {
    let mut is_first = true;
    for name in key_names() {
        if has_key(target, name.as_bytes()) {
            if !is_first {
                text.push_str(", ")?;
            }
            is_first = false;
            text.push_str(name)?;
        }
    }
    Ok(())
}

/// Appends an entry whose value isn't one that its key takes.
fn push_value(
    alloc: Global,
    text: &mut String,
    section: &Section,
    kind: SettingKind,
    entry: &Entry,
) -> Result<(), AllocError> {
    push_text(alloc, text, entry.key.as_slice())?;
    text.push(' ')?;
    push_text(alloc, text, entry.value.as_slice())?;
    text.push_str(": ")?;
    text.push_str(expectation_of(target_of(section), kind, entry.key.as_slice()))
}

fn push_unknown_key(
    alloc: Global,
    text: &mut String,
    section: &Section,
    entry: &Entry,
) -> Result<(), AllocError> {
    push_part(alloc, text, section)?;
    text.push_str(" has no key ")?;
    push_text(alloc, text, entry.key.as_slice())?;
    if let Some(target) = target_of(section) {
        text.push_str("; it has ")?;
        push_keys(text, target)?;
    }
    Ok(())
}

fn push_unknown_plugin(
    alloc: Global,
    text: &mut String,
    section: &Section,
) -> Result<(), AllocError> {
    text.push_str("Name ")?;
    if let Some(name) = value_of(section, b"name") {
        push_text(alloc, text, name)?;
    }
    text.push_str(": one of ")?;
    text.push_str(plugins_of(SectionKind::of(section.name.as_slice())))
}

/// Appends which key a section lacks.
fn push_missing(alloc: Global, text: &mut String, section: &Section) -> Result<(), AllocError> {
    push_part(alloc, text, section)?;
    if value_of(section, b"name").is_none() {
        return text.push_str(" has no Name");
    }
    match target_of(section) {
        Some(Target::Input(InputPlugin::Tail)) if value_of(section, b"path").is_none() => {
            text.push_str(" has no Path")
        }
        Some(Target::Input(_)) => {
            text.push_str(" has storage.type filesystem, and no SERVICE section has a storage.path")
        }
        Some(Target::Parser) => text.push_str(" has no Format, or a regex parser no Regex"),
        Some(Target::Filter(_)) => text.push_str(" has no Operation, Nest_under or Nested_under"),
        Some(Target::Service) | Some(Target::Output(_)) | None => text.push_str(" lacks a key"),
    }
}

/// Appends what is wrong with a section or one of its entries.
fn push_reason(
    alloc: Global,
    text: &mut String,
    section: &Section,
    kind: SettingKind,
    place: &Place,
) -> Result<(), AllocError> {
    match (kind, entry_at(section, place)) {
        (SettingKind::UnknownKey, Some(entry)) => push_unknown_key(alloc, text, section, entry),
        (SettingKind::UnknownPlugin, _) => push_unknown_plugin(alloc, text, section),
        (SettingKind::Missing, None) => push_missing(alloc, text, section),
        (SettingKind::UnknownSection, _) => {
            push_text(alloc, text, section.name.as_slice())?;
            text.push_str(": one of SERVICE, INPUT, PARSER, FILTER, OUTPUT")
        }
        (SettingKind::TooMany, _) => text.push_str(
            "more than 64 inputs or outputs, or 32 Header entries",
        ),
        (_, Some(entry)) => push_value(alloc, text, section, kind, entry),
        (_, None) => {
            push_part(alloc, text, section)?;
            let why = format!(in alloc; ": {kind}")?;
            text.push_str(why.as_str())
        }
    }
}

/// Appends a place, if there is one: a fault such as too little memory has none.
fn push_place(alloc: Global, text: &mut String, place: &Place) -> Result<(), AllocError> {
    if place.line == 0 {
        return Ok(());
    }
    push_text(alloc, text, place.file.as_slice())?;
    let line = place.line;
    let number = format!(in alloc; ":{line}: ")?;
    text.push_str(number.as_str())
}

/// Returns the line that says why settings are refused: the place, and the section's part, key, value and
/// choices.
pub fn refusal_text(
    alloc: Global,
    sections: &[Section],
    kind: SettingKind,
    place: &Place,
) -> Result<String, AllocError> {
    let mut text = String::new(alloc);
    push_place(alloc, &mut text, place)?;
    match section_at(sections, place) {
        Some(section) => push_reason(alloc, &mut text, section, kind, place)?,
        None => {
            let why = format!(in alloc; "{kind}")?;
            text.push_str(why.as_str())?;
        }
    }
    Ok(text)
}
