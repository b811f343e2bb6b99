ghost use Rattle.std.specs.Prelude.{◌≡◌};
ghost use Rattle.fwd_event.specs.declared.errors.EventErr.TheVariants as event_err;

use fwd_base::Memory;
use thiserror::Error;

/// Why bytes aren't a list of events. `at` is an offset from their start, in bytes.
#[derive(Clone, Copy, Debug, PartialEq, Eq, Error)]
pub enum EventErr {
    /// The bytes end within a value.
    #[error("the bytes end within an event")]
    Short,
    /// The byte c1, which begins no value, is at the beginning of a value.
    #[error("the byte at {at} begins no value")]
    Unused { at: u64 },
    /// A list or map is nested in 64 others.
    #[error("the value at {at} is nested too deep")]
    TooDeep { at: u64 },
    #[error("out of memory")]
    Memory,
    /// The value at this offset is whole, but isn't an event.
    #[error("the value at {at} is no event")]
    NotAnEvent { at: u64 },
}

impl From<Memory> for EventErr {
    ghost from_gives = { λ _ e. e ≡ event_err.Memory };

    fn from(_: Memory) -> Self {
        EventErr::Memory
    }
}
