//! The clock of a run.

ghost use Rattle.std.specs.Prelude.{◌≡◌, ◌⊎◌, ◌≤◌, ℕ, min, Contains};
ghost use Rattle.fwd_base.specs.Limits.{latest_time};
ghost use Rattle.fwd_outside.specs.declared.happening.Happening.TheVariants as happening;
ghost use Rattle.fwd_model.specs.Fact.{History, Happened};
ghost use Rattle.fwd_model.specs.Clock.{clock};

/// The clock is the greatest time of a tick so far, in milliseconds, and 0 before the first. A time after
/// `latest_time` counts as that.
pub fn clock_is_latest_tick()
    ensures greatest { (h : History) (now : ℕ) → Contains h (Happened (happening.Tick now)) → min now latest_time ≤ clock h }
    ensures ticked { (h : History) → (clock h ≡ 0) ⊎ ((now : ℕ) × Contains h (Happened (happening.Tick now)) × (clock h ≡ min now latest_time)) }
{}
