//! Lemmas about facts that leave the streams as they are.

ghost use Rattle.std.specs.Prelude.{◌≡◌, ℕ, ◌∷◌, List, false, None};
ghost use Rattle.fwd_base.specs.declared.ids.ConnId.{ConnId};
ghost use Rattle.fwd_base.specs.declared.ids.InputId.{InputId};
ghost use Rattle.fwd_outside.specs.declared.happening.Happening.TheVariants as happening;
ghost use Rattle.fwd_settings.specs.declared.settings_types.AllSettings.{AllSettings};
ghost use Rattle.fwd_model.specs.Fact.{Fact, History, Happened};
ghost use Rattle.fwd_model.specs.Streams.{stream_of};
ghost use Rattle.fwd_engine_inputs.specs.declared.input_streams.InputStreams.{InputStreams};
ghost use Rattle.fwd_engine_inputs.specs.StreamsRepresent.{StreamsRepresent};
ghost use Rattle.fwd_engine_inputs.specs.StreamFacts.{is_stream_fact};

/// Lemma: a fact that isn't about connections or streams leaves them as they are.
pub fn lemma_other_facts_keep_streams()
    ensures { (s : AllSettings) (input_streams : InputStreams) (h : History) (fact : Fact) → is_stream_fact fact ≡ false → StreamsRepresent s input_streams h → StreamsRepresent s input_streams (fact ∷ h) }
{}

/// Lemma: so do bytes that no input reads.
pub fn lemma_unread_bytes_keep_streams()
    ensures { (s : AllSettings) (input_streams : InputStreams) (h : History) (input : InputId) (conn : ConnId) (bytes : List ℕ) →
        stream_of s h input.0 conn.0 ≡ None → StreamsRepresent s input_streams h → StreamsRepresent s input_streams (Happened (happening.Piece input conn bytes) ∷ h) }
{}
