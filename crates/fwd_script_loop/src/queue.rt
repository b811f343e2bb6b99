//! The loop events that were skipped because their inputs were paused.

ghost use Rattle.std.specs.Prelude.{◌≡◌, ℕ, ◌<◌, ◌++◌, ◌∷◌, [], MatchOption, OnOk, OnErr, slice_index_or, find, length, remove, true, false};
ghost use Rattle.std.specs.Slice.{IsItemAt};
ghost use Rattle.fwd_script_loop.specs.PauseMask.{comes, hears};
ghost use Rattle.fwd_script_loop.specs.FirstMatch.{IsFirst};
ghost use Rattle.fwd_script_loop.specs.declared.queue.Coming.{Coming};

use crate::masks::is_heard;
use fwd_base::Memory;
use fwd_outside::Happening;
use std::alloc::Global;
use std::collections::VecDeque;
use std::marker::Model;

/// A loop event that is still to come.
#[derive(Debug, Drop)]
pub struct Coming {
    /// The index of its line in the run.
    pub line: usize,
    /// How many clock readings of its line follow it.
    pub behind: u64,
    pub happening: Happening,
}

/// Loop events in the order of their lines. For one mask it remembers how many of the first events are
/// paused, so a call doesn't search them again.
#[derive(Debug, Drop)]
pub struct Queue {
    items: VecDeque<Coming>,
    quiet: u64,
    known: usize,
}

impl Model for Queue {
    ghost use Rattle.std.specs.Prelude.{List};
    ghost use Rattle.fwd_script_loop.specs.declared.queue.Coming.{Coming};

    ghost Value = { List Coming };

    ghost view = { λ q. q.items.items };

    ghost use Rattle.fwd_script_loop.specs.QueueInvariant.{IsQueued};

    ghost invariant = { λ q. IsQueued q.items.items q.quiet q.known };
}

impl Queue {
    pub fn new(alloc: Global) -> Self
        ensures { result ≡ [] }
    {
        Queue {
            items: VecDeque::new(alloc),
            quiet: 0,
            known: 0,
        }
    }

    /// Returns the number of events.
    pub fn len(&self) -> usize
        ensures { result ≡ length self.now }
    {
        self.items.len()
    }

    /// Returns the index of the first event whose input isn't paused.
    pub fn first_unpaused(&self, paused: u64) -> Option<usize>
        ensures { MatchOption result (find (hears paused) self.now ≡ None) (IsFirst (hears paused) self.now) }
    {
        if paused == self.quiet {
            unpaused_from(&self.items, self.known, paused)
        } else {
            unpaused_from(&self.items, 0, paused)
        }
    }

    /// Returns the event at an index.
    pub fn get(&self, at: usize) -> Option<&Coming>
        ensures { IsItemAt self.now at result }
    {
        self.items.get(at)
    }

    /// Appends an event. `Err` leaves the queue unchanged.
    pub fn push(&mut self, coming: Coming) -> Result<(), Memory>
        requires { comes coming.happening ≡ true }
        ensures ok { OnOk result (self.new ≡ self.old ++ coming ∷ []) }
        ensures err { OnErr result (self.new ≡ self.old) }
    {
        self.items.push_back(coming)?;
        Ok(())
    }

    /// Removes and returns the first event whose input isn't paused.
    pub fn take(&mut self, paused: u64, at: usize) -> Coming
        requires { IsFirst (hears paused) self.old at }
        ensures value { result ≡ slice_index_or self.old at result }
        ensures rest { self.new ≡ remove self.old at }
        ensures comes { comes result.happening ≡ true }
    {
        if self.known <= at {
            self.quiet = paused;
            self.known = at;
        } else {
            self.known -= 1;
        }
        match self.items.remove(at) {
            Some(coming) => coming,
            None => unreachable!(),
        }
    }
}

/// Returns the index of the first event from `from` whose input isn't paused.
fn unpaused_from(items: &VecDeque<Coming>, from: usize, paused: u64) -> Option<usize>
    requires { (k : ℕ) (d : Coming) → k < from → hears paused (slice_index_or items.now.items k d) ≡ false }
    ensures { MatchOption result (find (hears paused) items.now.items ≡ None) (IsFirst (hears paused) items.now.items) }
{
    for i in from..items.len() {
        if let Some(coming) = items.get(i) {
            if is_heard(paused, &coming.happening) {
                return Some(i);
            }
        }
    }
    None
}
