//! Whether floats are numbers in JSON, as the SERVICE sections say, wherever they stand.

ghost use Rattle.std.specs.Prelude.{◌≡◌};
ghost use Rattle.fwd_settings_schema.specs.Keys.{head_of};
ghost use Rattle.fwd_settings.specs.Floats.{floats_by, is_floats_entry, floats_entry, after_entry, after_entries, after_section, floats_in};
ghost use Rattle.fwd_settings.specs.Inputs.{is_service_head};

use crate::inputs::is_service;
use fwd_config::{Entry, Section};
use fwd_json::Floats;
use fwd_settings_schema::{Key, Target, key_of, truth};

fn floats_by(value: Option<bool>, former: Floats) -> Floats
    ensures { result ≡ floats_by value former }
{
    match value {
        Some(true) => Floats::Numbers,
        Some(false) => Floats::Tagged,
        None => former,
    }
}

fn is_floats_entry(entry: &Entry) -> bool
    ensures { result ≡ is_floats_entry entry.now }
{
    match key_of(Target::Service, entry.key.as_slice()) {
        Some((key, _)) => Key::JsonFloats.is_same(key),
        None => false,
    }
}

/// Returns the value of an entry that is `json.floats`.
fn floats_entry(entry: &Entry) -> Option<bool>
    ensures { result ≡ floats_entry entry.now }
{
    if is_floats_entry(entry) {
        truth(entry.value.as_slice())
    } else {
        None
    }
}

/// Returns what the floats are after one more entry.
fn after_entry(former: Floats, entry: &Entry) -> Floats
    ensures { result ≡ after_entry former entry.now }
{
    floats_by(floats_entry(entry), former)
}

#[tactic(auto, unfolding(crate::specs::Floats::after_entries))]
fn after_entries(former: Floats, entries: &[Entry]) -> Floats
    ensures { result ≡ after_entries former entries.now }
{
    let mut floats = former;
    for entry in entries {
        floats = after_entry(floats, entry);
    }
    floats
}

/// Returns what the floats are after one more section.
fn after_section(former: Floats, section: &Section) -> Floats
    ensures { result ≡ after_section former section.now }
{
    if is_service(section) {
        after_entries(former, section.entries.as_slice())
    } else {
        former
    }
}

/// Returns what the floats are by the last `json.floats` of all SERVICE sections. By default, they aren't
/// numbers.
#[tactic(auto, unfolding(crate::specs::Floats::floats_in))]
pub fn floats_in(all: &[Section]) -> Floats
    ensures { result ≡ floats_in all.now }
{
    let mut floats = Floats::Tagged;
    for section in all {
        floats = after_section(floats, section);
    }
    floats
}
