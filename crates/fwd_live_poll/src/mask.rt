//! Sets of inputs as masks.

ghost use Rattle.std.specs.Prelude.{◌≡◌, ◌==◌, not, true};
ghost use Rattle.std.specs.Int.{bit_at};
ghost use Rattle.fwd_outside.specs.Loop.{IsNotPaused};

use fwd_base::is_set;
use fwd_outside::InputId;

/// Returns whether an input isn't paused.
pub fn is_heard(paused: u64, input: InputId) -> bool
    ensures value { result ≡ not (bit_at paused input.0 == 1) }
    ensures heard { result ≡ true → IsNotPaused paused input }
{
    !is_set(paused, input.0)
}
