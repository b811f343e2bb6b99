//! A gate that tells whether two threads ran at the same time.

use fwd_outside::Gate;
use rayon::prelude::*;
use std::alloc::{AllocError, Global};
use std::sync::atomic::{AtomicBool, Ordering};
use std::thread::Threads;

/// The number of items, which is that of the files in one group.
pub const COUNT: u64 = 4096;

/// How often a side looks for the other one.
const TURNS: u64 = 100_000_000;

/// Whether a side came, and whether it saw the other one.
#[derive(Drop)]
struct Side {
    came: AtomicBool,
    saw: AtomicBool,
}

impl Side {
    fn new() -> Self {
        Side {
            came: AtomicBool::new(false),
            saw: AtomicBool::new(false),
        }
    }

    fn meet(&self, other: &Side) {
        self.came.store(true, Ordering::SeqCst);
        for _ in 0..TURNS {
            if other.came.load(Ordering::SeqCst) {
                self.saw.store(true, Ordering::SeqCst);
                return;
            }
        }
    }
}

/// A gate for two places. Both sides see each other only if two threads pass it.
#[derive(Drop)]
pub struct Meeting {
    first: u64,
    second: u64,
    one: Side,
    other: Side,
}

impl Meeting {
    pub fn new(first: u64, second: u64) -> Self {
        Meeting {
            first,
            second,
            one: Side::new(),
            other: Side::new(),
        }
    }

    /// Whether both sides saw each other.
    pub fn has_met(&self) -> bool {
        let one = self.one.saw.load(Ordering::SeqCst);
        let other = self.other.saw.load(Ordering::SeqCst);
        one && other
    }
}

impl Gate for Meeting {
    fn pass(&self, item: u64) {
        if item == self.first {
            self.one.meet(&self.other);
        } else if item == self.second {
            self.other.meet(&self.one);
        }
    }
}

/// Whether a plain map over the numbers passes the first and the last place in two threads on this machine.
pub fn plain_map_meets(rt: &(impl Threads + Sync), alloc: Global) -> Result<bool, AllocError> {
    let meeting = Meeting::new(0, COUNT - 1);
    let gate = &meeting;
    let _numbers = (0..COUNT)
        .into_par_iter()
        .map(|place: u64| -> u64 {
            gate.pass(place);
            place
        })
        .collect::<Vec<u64>>(rt, alloc)?;
    Ok(meeting.has_met())
}
