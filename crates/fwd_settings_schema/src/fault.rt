//! Errors in the sections of a configuration, with their places.

ghost use Rattle.std.specs.Prelude.{◌≡◌};
ghost use Rattle.fwd_settings_schema.specs.declared.error_kind.SettingKind.TheVariants as kinds;

use crate::SettingKind;
use fwd_base::Bytes;
use fwd_config::Place;
use std::alloc::Global;
use thiserror::Error;

/// What is wrong with the sections of a configuration, and where. If an allocation fails, the place is
/// empty.
#[derive(Debug, Drop, PartialEq, Eq, Error)]
#[error("configuration refused: {kind}")]
pub struct SettingFault {
    pub kind: SettingKind,
    pub place: Place,
}

impl SettingFault {
    /// Returns the error of a failed allocation.
    pub fn out_of_memory(alloc: Global) -> Self
        ensures { result.kind ≡ kinds.Memory }
    {
        SettingFault {
            kind: SettingKind::Memory,
            place: Place {
                file: Bytes::new(alloc),
                line: 0,
            },
        }
    }
}
