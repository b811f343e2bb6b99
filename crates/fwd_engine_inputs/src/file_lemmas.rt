ghost use Rattle.std.specs.Prelude.{◌≡◌, ◌∷◌, false};
ghost use Rattle.fwd_settings.specs.declared.settings_types.AllSettings.{AllSettings};
ghost use Rattle.fwd_model.specs.Fact.{Fact, History};
ghost use Rattle.fwd_engine_inputs.specs.declared.followed_files.FollowedFiles.{FollowedFiles};
ghost use Rattle.fwd_engine_inputs.specs.FilesRepresent.{FilesRepresent};
ghost use Rattle.fwd_engine_inputs.specs.FileFacts.{is_file_fact};

/// Lemma: a fact that isn't about followed files leaves them as they are.
pub fn lemma_other_facts_keep_files()
    ensures { (s : AllSettings) (followed_files : FollowedFiles) (h : History) (fact : Fact) → is_file_fact fact ≡ false → FilesRepresent s followed_files h → FilesRepresent s followed_files (fact ∷ h) }
{}
