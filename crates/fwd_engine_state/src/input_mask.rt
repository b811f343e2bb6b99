ghost use Rattle.std.specs.Prelude.{◌≡◌, ◌↔◌, ℕ, ◌<◌, ◌≤◌, IsBitSet};
ghost use Rattle.fwd_base.specs.Limits.{most_inputs};

/// Returns the mask of the first `inputs` inputs.
pub fn first_inputs(inputs: usize) -> u64
    requires { inputs ≤ most_inputs }
    ensures { (i : ℕ) → IsBitSet result i ↔ ((i < inputs) × Unit {0}) }
{
    let mut mask: u64 = 0;
    for i in 0..inputs {
        mask |= 1 << i;
    }
    mask
}
