ghost use Rattle.std.specs.Prelude.{◌≡◌};
ghost use Rattle.fwd_script.specs.declared.refusal.ScheduleKind.TheVariants as kind;

use fwd_base::Memory;
use thiserror::Error;

/// What is wrong in a line.
#[derive(Clone, Copy, Debug, PartialEq, Eq, Error)]
pub enum ScheduleKind {
    #[error("UnknownWord")]
    UnknownWord,
    #[error("BadNumber")]
    BadNumber,
    #[error("BadHex")]
    BadHex,
    #[error("BadOrder")]
    BadOrder,
    #[error("out of memory")]
    Memory,
}

impl From<Memory> for ScheduleKind {
    ghost from_gives = { λ _ e. e ≡ kind.Memory };

    fn from(_: Memory) -> Self {
        ScheduleKind::Memory
    }
}

/// The first refusal of a text, with the number of its line, counted from 1. For `Memory` the line is 0.
#[derive(Clone, Copy, Debug, PartialEq, Eq, Error)]
#[error("{kind} at line {line}")]
pub struct ScheduleRefused {
    pub kind: ScheduleKind,
    pub line: u64,
}

impl From<Memory> for ScheduleRefused {
    ghost from_gives = { λ _ e. e ≡ record { kind = kind.Memory; line = 0 } };

    fn from(_: Memory) -> Self {
        ScheduleRefused {
            kind: ScheduleKind::Memory,
            line: 0,
        }
    }
}
