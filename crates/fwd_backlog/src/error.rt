//! The error of loading.

ghost use Rattle.std.specs.Prelude.{◌≡◌};
ghost use Rattle.fwd_outside.specs.declared.errors.DiskErr.{DiskErr};
ghost use Rattle.fwd_backlog.specs.declared.error.LoadErr.TheVariants as load_err;
ghost use Rattle.fwd_backlog.specs.LoadResult.{load_error_of};

use fwd_base::Memory;
use fwd_outside::DiskErr;
use std::alloc::{AllocError, AllocFailed};
use thiserror::Error;

/// Why loading stopped.
#[derive(Clone, Copy, Debug, PartialEq, Eq, Error)]
pub enum LoadErr {
    #[error("the disk has failed")]
    DiskFailed,
    #[error("out of memory")]
    Memory,
}

impl From<DiskErr> for LoadErr {
    ghost from_gives = { λ error e. e ≡ load_error_of error };

    fn from(error: DiskErr) -> Self {
        match error {
            DiskErr::Failed => LoadErr::DiskFailed,
            DiskErr::Memory => LoadErr::Memory,
        }
    }
}

impl From<Memory> for LoadErr {
    ghost from_gives = { λ _ e. e ≡ load_err.Memory };

    fn from(_: Memory) -> Self {
        LoadErr::Memory
    }
}

impl From<AllocError> for LoadErr {
    ghost from_gives = { λ _ e. e ≡ load_err.Memory };

    fn from(_: AllocError) -> Self {
        LoadErr::Memory
    }
}

impl<T: Drop> From<AllocFailed<T>> for LoadErr {
    ghost from_gives = { λ _ e. e ≡ load_err.Memory };

    fn from(_: AllocFailed<T>) -> Self {
        LoadErr::Memory
    }
}
