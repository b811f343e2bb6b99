//! Numbers stay in range. Each theorem is the contract of a function that does nothing.

ghost use Rattle.std.specs.Prelude.{ℕ, List, All};
ghost use Rattle.fwd_msgpack.specs.Encodings.{AllBytes};
ghost use Rattle.fwd_event.specs.declared.event.Event.{Event};
ghost use Rattle.fwd_parser.specs.declared.parser.Parser.{Parser};
ghost use Rattle.fwd_parser.specs.LineEvent.{parsed};
ghost use Rattle.fwd_filters.specs.declared.filter_step.FilterStep.{FilterStep};
ghost use Rattle.fwd_filters.specs.FilterFunction.{filtered};
ghost use Rattle.fwd_wire.specs.Message.{MessageContent};
ghost use Rattle.fwd_wire.specs.Answer.{IsAnswer, message};
ghost use Rattle.fwd_theorem_depth.specs.Shallow.{events_of_content};
ghost use Rattle.fwd_theorem_depth.specs.Ranges.{NumbersFit};

/// The numbers of the event of each line are in range, for any parser and clock.
pub fn parsed_numbers_fit()
    ensures { (parser : Parser) (line : List ℕ) (clock : ℕ) → NumbersFit (parsed parser line clock) }
{}

/// If a message is encoded in bytes, numbers below 256, the numbers of its events are in range.
pub fn message_numbers_fit()
    ensures { (b : List ℕ) (s : MessageContent) (n : ℕ) → AllBytes b → IsAnswer b (message s n) → All NumbersFit (events_of_content s) }
{}

/// What filters leave of events in range is in range, for any filters.
pub fn filtered_numbers_fit()
    ensures { (steps : List FilterStep) (tag : List ℕ) (events : List Event) → All NumbersFit events → All NumbersFit (filtered steps tag events) }
{}
