//! Errors of loading a configuration, each with its place.

ghost use Rattle.std.specs.Prelude.{◌≡◌};
ghost use Rattle.fwd_config.specs.declared.fault.ConfigKind.TheVariants as kinds;

use crate::Place;
use fwd_base::Memory;
use std::alloc::AllocFailed;
use thiserror::Error;

/// What is wrong with a configuration. If a line has several errors, the first of them in this order is
/// reported.
#[derive(Clone, Copy, Debug, PartialEq, Eq, Error)]
pub enum ConfigKind {
    /// An entry comes before the first section.
    #[error("an entry stands before every section")]
    EntryOutsideSection,
    /// An entry or an `@INCLUDE` has no value.
    #[error("a value is missing")]
    NoValue,
    /// A line begins with `[` and isn't a header.
    #[error("not a section")]
    BadSection,
    /// Includes are nested more than eight deep.
    #[error("included too deep")]
    IncludeTooDeep,
    /// A line begins with `@` and is neither `@INCLUDE` nor an `@SET` that names a variable.
    #[error("not a command")]
    BadSet,
    /// A `${` has no `}` after it.
    #[error("an open brace")]
    OpenBrace,
    /// A file isn't UTF-8.
    #[error("not UTF-8")]
    NotUtf8,
    /// A file can't be read.
    #[error("a file can't be read")]
    FileFault,
    /// An allocation failed.
    #[error("out of memory")]
    Memory,
}

impl From<Memory> for ConfigKind {
    ghost from_gives = { λ _ kind. kind ≡ kinds.Memory };

    fn from(_: Memory) -> Self {
        ConfigKind::Memory
    }
}

impl<T: Drop> From<AllocFailed<T>> for ConfigKind {
    ghost from_gives = { λ _ kind. kind ≡ kinds.Memory };

    fn from(_: AllocFailed<T>) -> Self {
        ConfigKind::Memory
    }
}

/// Why a configuration is refused, and where. A file that isn't UTF-8 or can't be read is refused at its
/// line 0. If an allocation fails, the place is empty.
#[derive(Debug, Drop, PartialEq, Eq, Error)]
#[error("configuration refused: {kind}")]
pub struct ConfigFault {
    pub kind: ConfigKind,
    pub place: Place,
}
