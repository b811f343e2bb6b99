//! Errors of the platform traits. Each tells a failure of the device from memory that is out.

ghost use Rattle.std.specs.Prelude.{◌≡◌};
ghost use Rattle.fwd_outside.specs.declared.errors.DiskErr.TheVariants as disk_err;
ghost use Rattle.fwd_outside.specs.declared.errors.FileErr.TheVariants as file_err;
ghost use Rattle.fwd_outside.specs.declared.errors.SinkErr.TheVariants as sink_err;

use fwd_base::Memory;
use std::alloc::{AllocError, AllocFailed};
use thiserror::Error;

/// Why a call on a `Disk` failed.
#[derive(Clone, Copy, Debug, PartialEq, Eq, Error)]
pub enum DiskErr {
    #[error("the disk has failed")]
    Failed,
    #[error("out of memory")]
    Memory,
}

impl From<Memory> for DiskErr {
    ghost from_gives = { λ _ e. e ≡ disk_err.Memory };

    fn from(_: Memory) -> Self {
        DiskErr::Memory
    }
}

impl From<AllocError> for DiskErr {
    ghost from_gives = { λ _ e. e ≡ disk_err.Memory };

    fn from(_: AllocError) -> Self {
        DiskErr::Memory
    }
}

impl<T: Drop> From<AllocFailed<T>> for DiskErr {
    ghost from_gives = { λ _ e. e ≡ disk_err.Memory };

    fn from(_: AllocFailed<T>) -> Self {
        DiskErr::Memory
    }
}

/// Why a call on `Files` failed.
#[derive(Clone, Copy, Debug, PartialEq, Eq, Error)]
pub enum FileErr {
    #[error("the file can't be read")]
    Failed,
    #[error("out of memory")]
    Memory,
}

impl From<Memory> for FileErr {
    ghost from_gives = { λ _ e. e ≡ file_err.Memory };

    fn from(_: Memory) -> Self {
        FileErr::Memory
    }
}

impl From<AllocError> for FileErr {
    ghost from_gives = { λ _ e. e ≡ file_err.Memory };

    fn from(_: AllocError) -> Self {
        FileErr::Memory
    }
}

impl<T: Drop> From<AllocFailed<T>> for FileErr {
    ghost from_gives = { λ _ e. e ≡ file_err.Memory };

    fn from(_: AllocFailed<T>) -> Self {
        FileErr::Memory
    }
}

/// Why a write to a `Sink` failed.
#[derive(Clone, Copy, Debug, PartialEq, Eq, Error)]
pub enum SinkErr {
    #[error("the output can't be written")]
    Failed,
    #[error("out of memory")]
    Memory,
}

impl From<Memory> for SinkErr {
    ghost from_gives = { λ _ e. e ≡ sink_err.Memory };

    fn from(_: Memory) -> Self {
        SinkErr::Memory
    }
}
