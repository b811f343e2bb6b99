//! What a keeper may hold after its calls.

ghost use Rattle.std.specs.Prelude.{◌≡◌, ◌⊎◌, ℕ, List, [], ◌∷◌, Contains, Some};
ghost use Rattle.fwd_keeper.specs.Keeper.{KeeperEntry, KeeperGiven, WasPut, found, may_hold};

/// An offset that a keeper may hold for a path after its calls was there at first, or was put.
pub fn held_was_given_or_put()
    ensures { (given : KeeperGiven) (es : List KeeperEntry) (db path : List ℕ) (place : ℕ) → Contains (may_hold es db path (found given db path ∷ [])) (Some place) → (found given db path ≡ Some place) ⊎ WasPut es db path place }
{}
