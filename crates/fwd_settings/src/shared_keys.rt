//! Reads the shared key of an input or an output, from the entries of its section.

ghost use Rattle.std.specs.Prelude.{◌≡◌, IfOk};
ghost use Rattle.fwd_settings.specs.SharedKeys.{shared_key_of};

use crate::SharedKey;
use fwd_base::Memory;
use fwd_settings_schema::{Key, Property, own_text, text_or};
use std::alloc::Global;

/// Returns the shared key, if there is one, with the name of this host.
pub fn shared_key_of(alloc: Global, properties: &[Property]) -> Result<Option<SharedKey>, Memory>
    ensures { IfOk result (λ shared. shared ≡ shared_key_of properties.now) }
{
    let Some(key) = own_text(alloc, properties, Key::SharedKey)? else {
        return Ok(None);
    };
    let host = text_or(alloc, properties, Key::SelfHostname, b"localhost")?;
    Ok(Some(SharedKey { key, host }))
}
