//! Theorems on messages. Each is the contract of a function that does nothing.

ghost use Rattle.std.specs.Prelude.{◌≡◌, ◌↔◌, ℕ, List};
ghost use Rattle.fwd_msgpack.specs.Encodings.{AllBytes};
ghost use Rattle.fwd_wire.specs.Message.{MessageContent};
ghost use Rattle.fwd_wire.specs.Answer.{Answer, message, IsAnswer};
ghost use Rattle.fwd_wire.specs.Stream.{Ending, Streams};
ghost use Rattle.fwd_wire.specs.Decode.{answer_in, messages_in};
ghost use Rattle.fwd_wire.specs.Fits.{ContentFits};

/// The answer to bytes is what reading them from left to right computes.
pub fn answers_are_read()
    ensures { (b : List ℕ) (a : Answer) → (answer_in b ≡ a) ↔ IsAnswer b a }
{}

/// The messages of a stream, and how the bytes after them go on, are what reading from left to right
/// computes.
pub fn streams_are_read()
    ensures { (ms : List MessageContent) (e : Ending) (b : List ℕ) → Streams ms e b
        ↔ (messages_in b ≡ record { messages = ms; ending = e }) }
{}

/// What a message says can be encoded again: its events as they are stored, its chunk in an
/// acknowledgement.
pub fn messages_fit()
    ensures { (b : List ℕ) (s : MessageContent) (n : ℕ) → AllBytes b → IsAnswer b (message s n) →
        ContentFits s }
{}
