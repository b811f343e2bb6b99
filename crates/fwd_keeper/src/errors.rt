//! The error of a keeper. It tells a failure of the keeper from memory that is out.

ghost use Rattle.std.specs.Prelude.{◌≡◌};
ghost use Rattle.fwd_keeper.specs.declared.errors.KeepErr.TheVariants as keep_err;

use fwd_base::Memory;
use std::alloc::{AllocError, AllocFailed};
use thiserror::Error;

/// Why a call on a `Keeper` failed.
#[derive(Clone, Copy, Debug, PartialEq, Eq, Error)]
pub enum KeepErr {
    #[error("the database has failed")]
    Failed,
    #[error("out of memory")]
    Memory,
}

impl From<Memory> for KeepErr {
    ghost from_gives = { λ _ e. e ≡ keep_err.Memory };

    fn from(_: Memory) -> Self {
        KeepErr::Memory
    }
}

impl From<AllocError> for KeepErr {
    ghost from_gives = { λ _ e. e ≡ keep_err.Memory };

    fn from(_: AllocError) -> Self {
        KeepErr::Memory
    }
}

impl<T: Drop> From<AllocFailed<T>> for KeepErr {
    ghost from_gives = { λ _ e. e ≡ keep_err.Memory };

    fn from(_: AllocFailed<T>) -> Self {
        KeepErr::Memory
    }
}
