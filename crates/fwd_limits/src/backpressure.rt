//! Backpressure on inputs.

ghost use Rattle.std.specs.Prelude.{◌≡◌, ◌↔◌, ℕ, ◌<◌, ◌≤◌, length, IsBitSet};
ghost use Rattle.fwd_base.specs.Limits.{most_inputs};
ghost use Rattle.fwd_table.specs.Usage.{memory_of};
ghost use Rattle.fwd_limits.specs.Backpressure.{reaches, IsPaused};

use fwd_base::{InputId, Items};
use fwd_table::Table;

/// The bytes of memory that the chunks of each input may use, in the order of the configuration; `None`
/// without a limit.
pub type MemLimits = Items<Option<u64>>;

/// Returns whether an input has reached its limit, if it has one.
fn is_reached(table: &Table, input: InputId, limit: Option<u64>) -> bool
    requires { input.0 < most_inputs }
    ensures { result ≡ reaches limit (memory_of input.0 table.now.rows) }
{
    match limit {
        Some(limit) => u128::from(limit) <= table.memory_bytes(input),
        None => false,
    }
}

/// Returns the paused inputs: bit `i` is set exactly if input `i` has a limit and its open and pending
/// chunks in memory have at least as many bytes. Requires at most 64 limits.
pub fn paused(table: &Table, limits: &MemLimits) -> u64
    requires { length limits.now ≤ most_inputs }
    ensures { (i : ℕ) → IsBitSet result i ↔ IsPaused limits.now table.now.rows i }
{
    let mut mask: u64 = 0;
    for (i, limit) in limits.as_slice().iter().enumerate() {
        if is_reached(table, InputId(i as u32), *limit) {
            mask |= 1 << i;
        }
    }
    mask
}
