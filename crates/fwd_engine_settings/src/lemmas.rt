ghost use Rattle.std.specs.Prelude.{List, ℕ};
ghost use Rattle.fwd_chunk.specs.Layout.{AreOutputs};
ghost use Rattle.fwd_settings.specs.Requirements.{MeetsRequirements};
ghost use Rattle.fwd_settings.specs.declared.settings_types.AllSettings.{AllSettings};
ghost use Rattle.fwd_model.specs.Settings.{names_for};

/// Lemma: a chunk file can record the names of the outputs that match a tag: they are distinct, and short
/// enough.
pub fn lemma_output_names_fit()
    ensures { (s : AllSettings) (tag : List ℕ) → MeetsRequirements s → AreOutputs (names_for s tag) }
{}
