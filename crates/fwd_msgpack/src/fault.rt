//! Errors inside the decoder, which count bytes from the end of the input.

ghost use Rattle.fwd_msgpack.specs.declared.fault.ReadErr.TheVariants.{Memory as NoMemory};
ghost use Rattle.std.specs.Prelude.{◌≡◌};

use fwd_base::Memory;
use std::alloc::{AllocError, AllocFailed};

/// Why decoding stops. The number counts the bytes from the offending one to the end.
#[derive(Clone, Copy)]
pub enum FormatErr {
    Short,
    Unused(usize),
    TooDeep(usize),
}

#[derive(Drop)]
pub enum ReadErr {
    Memory,
    Format(FormatErr),
}

impl From<Memory> for ReadErr {
    ghost from_gives = { λ _ e. e ≡ NoMemory };

    fn from(_: Memory) -> ReadErr {
        ReadErr::Memory
    }
}

impl From<AllocError> for ReadErr {
    ghost from_gives = { λ _ e. e ≡ NoMemory };

    fn from(_: AllocError) -> ReadErr {
        ReadErr::Memory
    }
}

impl<T: Drop> From<AllocFailed<T>> for ReadErr {
    ghost from_gives = { λ _ e. e ≡ NoMemory };

    fn from(_: AllocFailed<T>) -> ReadErr {
        ReadErr::Memory
    }
}
