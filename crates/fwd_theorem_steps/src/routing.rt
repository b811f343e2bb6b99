//! Which outputs a tag matches.

ghost use Rattle.std.specs.Prelude.{◌≡◌, ◌↔◌, ℕ, List, Contains, Some};
ghost use Rattle.fwd_route.specs.Glob.{Glob};
ghost use Rattle.fwd_settings.specs.declared.settings_types.AllSettings.{AllSettings};
ghost use Rattle.fwd_settings.specs.declared.settings_types.OutputSet.{OutputSet};
ghost use Rattle.fwd_model.specs.Settings.{output_at, outputs_for};

/// A tag matches exactly the outputs whose globs match it.
pub fn tags_route_by_globs()
    ensures { (s : AllSettings) (tag : List ℕ) (output : ℕ)
        → Contains (outputs_for s tag) output ↔ ((set : OutputSet) × (output_at s output ≡ Some set) × Glob set.glob tag) }
{}
