//! The stack of lists and maps that the scanner is inside.

ghost use Rattle.std.specs.Prelude.{◌≡◌, ◌<◌, [], ◌∷◌, length, IfOk, IsTrue, ◌↔◌};
ghost use Rattle.fwd_msgpack.specs.Levels.{MissesOne, one_less, closed};
ghost use Rattle.fwd_msgpack.specs.SmallValues.{innermost, fewer};

use fwd_base::Memory;
use fwd_base::limits::DEEPEST;
use std::alloc::Global;
use std::marker::Model;

/// The most levels: the value itself, and the lists and maps that may be open in it.
pub const MOST_LEVELS: usize = DEEPEST as usize + 1;

/// The number of values still missing at each open level, innermost first. `new` allocates all levels.
#[derive(Drop)]
pub struct Levels {
    counts: Vec<u64>,
    depth: usize,
}

impl Model for Levels {
    ghost use Rattle.std.specs.Prelude.{◌≡◌, ◌≤◌, List, ℕ, length};
    ghost use Rattle.fwd_msgpack.specs.Levels.{innermost_counts};

    ghost Value = { List ℕ };

    ghost view = { λ o. innermost_counts o.counts.items o.depth };

    ghost invariant = { λ o. (length o.counts.items ≡ 65) × (o.depth ≤ 65) };
}

impl Levels {
    /// One value is missing.
    pub fn new(alloc: Global) -> Result<Levels, Memory>
        ensures { IfOk result (λ levels. levels ≡ 1 ∷ []) }
    {
        Ok(Levels {
            counts: vec![in alloc; 1; MOST_LEVELS]?,
            depth: 1,
        })
    }

    #[inline(always)]
    pub fn len(&self) -> usize
        ensures { result ≡ length self.now }
    {
        self.depth
    }

    #[inline(always)]
    pub fn is_empty(&self) -> bool
        ensures { IsTrue result ↔ (self.now ≡ []) }
    {
        self.depth == 0
    }

    /// Counts the beginning of a value at the innermost level.
    #[inline(always)]
    pub fn count_value(&mut self)
        requires { MissesOne self.old }
        ensures { self.new ≡ one_less self.old }
    {
        self.counts[self.depth - 1] -= 1;
    }

    /// Returns the number of values that the innermost level misses.
    #[inline(always)]
    pub fn missing(&self) -> u64
        requires { MissesOne self.now }
        ensures { result ≡ innermost self.now }
    {
        self.counts[self.depth - 1]
    }

    /// Counts `n` values at the innermost level, which misses more.
    #[inline(always)]
    pub fn count_values(&mut self, n: u64)
        requires { n < innermost self.old }
        ensures { self.new ≡ fewer n self.old }
    {
        self.counts[self.depth - 1] -= n;
    }

    /// Opens a list or map of `wanted` values.
    #[inline(always)]
    pub fn push(&mut self, wanted: u64)
        requires { length self.old < 65 }
        ensures { self.new ≡ wanted ∷ self.old }
    {
        self.counts[self.depth] = wanted;
        self.depth += 1;
    }

    /// Closes the innermost levels that are complete.
    #[inline(always)]
    pub fn close(&mut self)
        ensures { self.new ≡ closed self.old }
    {
        while self.depth > 0 {
            if self.counts[self.depth - 1] > 0 {
                return;
            }
            self.depth -= 1;
        }
    }
}
