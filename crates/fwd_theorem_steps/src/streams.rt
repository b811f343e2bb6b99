//! What is read from connections and from the standard input.

ghost use Rattle.std.specs.Prelude.{◌≡◌, ◌++◌, ℕ, true, false, List, [], ◌∷◌, All, Some, None};
ghost use Rattle.fwd_base.specs.declared.ids.ConnId.{ConnId};
ghost use Rattle.fwd_base.specs.declared.ids.InputId.{InputId};
ghost use Rattle.fwd_frames.specs.Lines.{lines};
ghost use Rattle.fwd_wire.specs.Decode.{messages_in};
ghost use Rattle.fwd_outside.specs.declared.happening.Happening.TheVariants as happening;
ghost use Rattle.fwd_settings.specs.declared.settings_types.AllSettings.{AllSettings};
ghost use Rattle.fwd_settings.specs.declared.settings_types.InputSet.{InputSet};
ghost use Rattle.fwd_settings.specs.declared.settings_types.InputKind.TheVariants as input_kind;
ghost use Rattle.fwd_model.specs.Fact.{Fact, History, Stream, LineStream, MessageStream, Standard, Happened};
ghost use Rattle.fwd_model.specs.Settings.{input_at};
ghost use Rattle.fwd_model.specs.Streams.{input_of, said};
ghost use Rattle.fwd_model.specs.Batches.{completed_lines};
ghost use Rattle.fwd_model.specs.Messages.{completed_messages};
ghost use Rattle.fwd_theorem_steps.specs.Streams.{came_over, ends_connection, is_input_end, stream_to};

/// The lines that a read completes are those of all bytes with it, after those of the bytes before it. The
/// same holds of messages. So no line and no message is lost between two reads, and none comes twice.
pub fn reads_complete_the_rest()
    ensures lines { (before piece : List ℕ) → lines before ++ completed_lines before piece ≡ lines (before ++ piece) }
    ensures messages { (before piece : List ℕ)
        → (messages_in before).messages ++ completed_messages before piece ≡ (messages_in (before ++ piece)).messages }
{}

/// As long as a connection lasts, what is read from it is all bytes that came over it since it joined its
/// input, in order. Nothing is kept of a connection that isn't joined to an input.
pub fn connections_hold_what_came()
    ensures joined { (s : AllSettings) (later before : History) (input : InputId) (conn : ConnId) (set : InputSet) (stream : Stream)
        → input_at s input.0 ≡ Some set → stream_to set.kind conn.0 ≡ Some stream → input_of s before conn.0 ≡ None
        → All (λ (fact : Fact). ends_connection input.0 conn.0 fact ≡ false) later
        → said s (later ++ Happened (happening.Joined input conn) ∷ before) stream ≡ came_over input.0 conn.0 later }
    ensures left { (s : AllSettings) (h : History) (input conn : ℕ) (fact : Fact)
        → input_of s h conn ≡ Some input → ends_connection input conn fact ≡ true → input_of s (fact ∷ h) conn ≡ None }
    ensures lines { (s : AllSettings) (h : History) (conn : ℕ) → input_of s h conn ≡ None → said s h (LineStream conn) ≡ [] }
    ensures messages { (s : AllSettings) (h : History) (conn : ℕ) → input_of s h conn ≡ None → said s h (MessageStream conn) ≡ [] }
{}

/// What is read from the standard input is all bytes that came over it since it ended last, in order.
pub fn standard_inputs_hold_what_came()
    ensures never { (s : AllSettings) (h : History) (input : ℕ) (set : InputSet) → input_at s input ≡ Some set → set.kind ≡ input_kind.Stdin
        → All (λ (fact : Fact). is_input_end input fact ≡ false) h → said s h (Standard input) ≡ came_over input 0 h }
    ensures since { (s : AllSettings) (later before : History) (input : InputId) (set : InputSet) → input_at s input.0 ≡ Some set → set.kind ≡ input_kind.Stdin
        → All (λ (fact : Fact). is_input_end input.0 fact ≡ false) later
        → said s (later ++ Happened (happening.InputEnd input) ∷ before) (Standard input.0) ≡ came_over input.0 0 later }
{}
