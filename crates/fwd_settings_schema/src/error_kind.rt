//! Kinds of errors in the settings of a configuration.

ghost use Rattle.std.specs.Prelude.{◌≡◌};
ghost use Rattle.fwd_settings_schema.specs.declared.error_kind.SettingKind.TheVariants as kinds;

use fwd_base::Memory;
use thiserror::Error;

/// What is wrong with a section or an entry.
#[derive(Clone, Copy, Debug, PartialEq, Eq, Error)]
pub enum SettingKind {
    /// A section names an unknown plugin.
    #[error("an unknown plugin")]
    UnknownPlugin,
    /// A section has a key that it can't have.
    #[error("an unknown key")]
    UnknownKey,
    /// A value isn't a number, or not one that the key takes.
    #[error("not a number")]
    BadNumber,
    /// A value isn't a size.
    #[error("not a size")]
    BadSize,
    /// A value isn't among those that the key takes.
    #[error("not a choice")]
    BadChoice,
    /// A required key is missing.
    #[error("a key is missing")]
    Missing,
    /// There are more inputs or outputs, or Header entries of an output, than the limit.
    #[error("too many")]
    TooMany,
    /// A value isn't a pattern.
    #[error("not a pattern")]
    PatternRefused,
    /// An allocation failed.
    #[error("out of memory")]
    Memory,
    /// A section has an unknown name.
    #[error("an unknown section")]
    UnknownSection,
}

impl From<Memory> for SettingKind {
    ghost from_gives = { λ _ kind. kind ≡ kinds.Memory };

    fn from(_: Memory) -> Self {
        SettingKind::Memory
    }
}
