//! Which outputs a chunk is pending for.

ghost use Rattle.std.specs.Prelude.{◌≡◌, ◌↔◌, ℕ, Contains, true, false};
ghost use Rattle.fwd_settings.specs.declared.settings_types.AllSettings.{AllSettings};
ghost use Rattle.fwd_model.specs.Fact.{History, Route};
ghost use Rattle.fwd_model.specs.Settings.{outputs_for};
ghost use Rattle.fwd_model.specs.Chunks.{ChunkInfo};
ghost use Rattle.fwd_model.specs.Routes.{is_resolved, owed, route};
ghost use Rattle.fwd_theorem_trace.specs.Resolution.{IsResolved};

/// A chunk is pending for exactly those outputs that match its tag and whose route isn't resolved. A
/// route is resolved exactly if the history has it delivered, failed, out of retries or evicted, or if
/// its chunk was recovered with this output marked done.
pub fn pending_iff_unresolved()
    ensures resolved { (s : AllSettings) (h : History) (r : Route) → (is_resolved s h r ≡ true) ↔ IsResolved s h r }
    ensures owed { (s : AllSettings) (h : History) (c : ChunkInfo) (output : ℕ)
        → Contains (owed s h c) output ↔ (Contains (outputs_for s c.tag) output × (is_resolved s h (route c.number output) ≡ false)) }
{}
