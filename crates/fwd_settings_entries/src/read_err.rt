//! Why a reading ends early.

ghost use Rattle.std.specs.Prelude.{◌≡◌};
ghost use Rattle.fwd_settings_entries.specs.declared.read_err.ReadErr.TheVariants as read_err;

use fwd_base::Memory;
use fwd_settings_schema::SettingFault;

/// Why a reading ends early.
#[derive(Drop)]
pub enum ReadErr {
    /// An allocation failed.
    Memory,
    /// The configuration is refused.
    Refused(SettingFault),
}

impl From<Memory> for ReadErr {
    ghost from_gives = { λ _ err. err ≡ read_err.Memory };

    fn from(_: Memory) -> Self {
        ReadErr::Memory
    }
}
