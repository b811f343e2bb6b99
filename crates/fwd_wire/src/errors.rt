ghost use Rattle.std.specs.Prelude.{◌≡◌};
ghost use Rattle.fwd_wire.specs.declared.errors.WireErr.TheVariants as wire_err;

use fwd_base::Memory;
use thiserror::Error;

/// Why bytes don't begin a message. Positions count bytes from the start.
#[derive(Clone, Copy, Debug, PartialEq, Eq, Error)]
pub enum WireErr {
    /// The bytes end inside a value, and are fewer than a message may have.
    #[error("the bytes end within a message")]
    Short,
    /// There is no value, or one that isn't a message.
    #[error("no message stands at {at}")]
    NotAMessage { at: u64 },
    /// The entries of the message are compressed.
    #[error("the message is compressed")]
    Compressed,
    /// As many bytes as a message may have end inside a value.
    #[error("the message is too long")]
    TooLong,
    #[error("out of memory")]
    Memory,
}

impl From<Memory> for WireErr {
    ghost from_gives = { λ _ e. e ≡ wire_err.Memory };

    fn from(_: Memory) -> Self {
        WireErr::Memory
    }
}
