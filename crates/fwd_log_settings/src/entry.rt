//! Entries of the SERVICE sections.

ghost use Rattle.std.specs.Prelude.{◌≡◌};
ghost use Rattle.std.specs.Option.{option_copied};
ghost use Rattle.fwd_log_settings.specs.Entry.{last_value, value_in, value_of_section};

use fwd_config::{Entry, Section};
use fwd_settings_values::same_name;

/// Returns the value of the last entry with a key, or the one before.
fn value_in<'a>(entries: &'a [Entry], key: &[u8], before: Option<&'a [u8]>) -> Option<&'a [u8]>
    ensures { option_copied result ≡ value_in key.now (option_copied before.entry) entries.now }
{
    let mut last = before;
    for entry in entries {
        if same_name(entry.key.as_slice(), key) {
            last = Some(entry.value.as_slice());
        }
    }
    last
}

/// Returns the value of a section's last entry with a key, if it is a SERVICE section, or the one before.
fn value_of_section<'a>(
    section: &'a Section,
    key: &[u8],
    before: Option<&'a [u8]>,
) -> Option<&'a [u8]>
    ensures { option_copied result ≡ value_of_section key.now (option_copied before.entry) section.now }
{
    if same_name(section.name.as_slice(), b"service") {
        value_in(section.entries.as_slice(), key, before)
    } else {
        before
    }
}

/// Returns the value of the last entry with a key in the SERVICE sections.
pub fn last_value<'a>(sections: &'a [Section], key: &[u8]) -> Option<&'a [u8]>
    ensures { option_copied result ≡ last_value key.now sections.now }
{
    let mut last = None;
    for section in sections {
        last = value_of_section(section, key, last);
    }
    last
}
