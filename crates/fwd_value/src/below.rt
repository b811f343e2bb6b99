//! The negative whole numbers of a value: `Value::Uint` has the others, so each number has one form.

ghost use Rattle.std.specs.Prelude.{◌≡◌, IfSome, IfNone, ℤ, pos, ◌≤ℤ◌, ◌<ℤ◌};

use std::marker::Model;

/// A negative number. Contracts see it as an integer.
#[derive(Clone, Copy, Debug, PartialEq, Eq)]
pub struct Below {
    n: i64,
}

impl Model for Below {
    ghost use Rattle.std.specs.Prelude.{ℤ, pos, ◌<ℤ◌};

    ghost Value = { ℤ };

    ghost view = { λ b. b.n };

    ghost invariant = { λ b. b.n <ℤ pos 0 };

    ghost inverse = { λ n. record { n = n } };
}

impl Below {
    /// Returns the number if it is negative.
    pub fn of(n: i64) -> Option<Below>
        ensures below { IfSome result (λ b. (b ≡ n) × (n <ℤ pos 0)) }
        ensures not_below { IfNone result (pos 0 ≤ℤ n) }
    {
        if n < 0 { Some(Below { n }) } else { None }
    }

    pub fn get(&self) -> i64
        ensures value { result ≡ self.now }
        ensures below { result <ℤ pos 0 }
    {
        self.n
    }
}
