//! What batches are made of.

ghost use Rattle.std.specs.Prelude.{Contains};
ghost use Rattle.fwd_settings.specs.declared.settings_types.AllSettings.{AllSettings};
ghost use Rattle.fwd_model.specs.Fact.{Fact, History, Batch};
ghost use Rattle.fwd_theorem_delivery.specs.BatchOutcomes.{completed_by};
ghost use Rattle.fwd_theorem_steps.specs.Batches.{IsMade};

/// Each batch that an event or a poll completes, and so each that is accepted or refused
/// (`decided_batches_were_complete`), is made of lines or of a message that ended there, as the settings say.
/// Its tag is that of its input; only a message brings its own, if its input has none. Its events are those
/// that the input's parser reads in the lines, or those of the message, as the filters leave them for this
/// tag.
pub fn complete_batches_follow_settings()
    ensures { (s : AllSettings) (before : History) (fact : Fact) (b : Batch) → Contains (completed_by s before fact) b → IsMade s before fact b }
{}
