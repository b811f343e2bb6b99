//! The call that fails.

use crate::outcome::{Came, Ended};
use fwd_outside::Memory;
use std::cell::Cell;

/// Counts the calls of all devices of a run. The call with a given number fails.
#[derive(Drop)]
pub struct Refusal {
    call: u64,
    asked: Cell<u64>,
}

impl Refusal {
    /// Makes the call with this number fail, counted from 1.
    pub fn at(call: u64) -> Refusal {
        Refusal {
            call,
            asked: Cell::new(0),
        }
    }

    /// Returns the result of a run that ended so.
    pub fn came(&self, ended: Ended) -> Came {
        let asked = self.asked.get();
        match ended {
            Ended::Memory if asked == self.call => Came::Refused,
            Ended::Done if asked < self.call => Came::Unharmed,
            _ => Came::Wrong { asked },
        }
    }

    /// Counts a call. Returns `Err` for the one that has to fail.
    pub(crate) fn ask(&self) -> Result<(), Memory> {
        let number = self.asked.get().saturating_add(1);
        self.asked.set(number);
        if number == self.call {
            return Err(Memory);
        }
        Ok(())
    }
}
