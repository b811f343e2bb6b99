//! What the keyed loop requires of its keys.

ghost use Rattle.fwd_settings.specs.declared.settings_types.AllSettings.{AllSettings};
ghost use Rattle.fwd_settings.specs.Requirements.{MeetsRequirements};
ghost use Rattle.fwd_secure.specs.Keys.{AreShort};
ghost use Rattle.fwd_secure_settings.specs.Keys.{keys_of};

/// Lemma: the host names in the keys of settings fit the messages of the handshake.
pub fn lemma_keys_are_short()
    ensures { (s : AllSettings) → MeetsRequirements s → AreShort (keys_of s) }
{}
