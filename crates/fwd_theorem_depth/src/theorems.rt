//! Theorems on the depth of events. Each is the contract of a function that does nothing.

ghost use Rattle.std.specs.Prelude.{◌≡◌, ◌≤◌, ℕ, true, List, length, All};
ghost use Rattle.std.specs.List.{list_all};
ghost use Rattle.fwd_base.specs.Limits.{largest_batch};
ghost use Rattle.fwd_event.specs.declared.event.Event.{Event};
ghost use Rattle.fwd_event.specs.Event.{EventFits};
ghost use Rattle.fwd_event.specs.EventPrefix.{encodings};
ghost use Rattle.fwd_parser.specs.declared.parser.Parser.{Parser};
ghost use Rattle.fwd_parser.specs.LineEvent.{parsed};
ghost use Rattle.fwd_filters.specs.declared.filter_step.FilterStep.{FilterStep};
ghost use Rattle.fwd_filters.specs.FilterFunction.{filtered};
ghost use Rattle.fwd_wire.specs.Message.{MessageContent};
ghost use Rattle.fwd_wire.specs.Answer.{IsAnswer, message};
ghost use Rattle.fwd_wire.specs.Decode.{messages_in};
ghost use Rattle.fwd_theorem_depth.specs.Shallow.{is_shallow, are_shallow, events_of_content};

/// The event of each line is shallow, for any parser and clock.
pub fn parsed_events_are_shallow()
    ensures { (parser : Parser) (line : List ℕ) (clock : ℕ) → is_shallow (parsed parser line clock) ≡ true }
{}

/// The events of the message at the start of bytes, and of each message of a stream, are shallow.
pub fn messages_are_shallow()
    ensures first { (b : List ℕ) (s : MessageContent) (n : ℕ) → IsAnswer b (message s n) → are_shallow (events_of_content s) ≡ true }
    ensures all { (b : List ℕ) → list_all (λ s. are_shallow (events_of_content s)) (messages_in b).messages ≡ true }
{}

/// What filters leave of shallow events is shallow, for any filters.
pub fn filtered_events_stay_shallow()
    ensures { (steps : List FilterStep) (tag : List ℕ) (events : List Event) → are_shallow events ≡ true → are_shallow (filtered steps tag events) ≡ true }
{}

/// Shallow events can all be encoded if their encodings have no more bytes than a batch may: a length of
/// 2^32 or more in one of them would take as many bytes.
pub fn lemma_encoded_length_decides()
    ensures { (events : List Event) → are_shallow events ≡ true → length (encodings events) ≤ largest_batch → All EventFits events }
{}
