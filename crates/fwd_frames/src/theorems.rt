//! Theorem: a stream has one split into lines and a rest.

ghost use Rattle.std.specs.Prelude.{◌≡◌, ℕ, List};
ghost use Rattle.fwd_frames.specs.Lines.{ended_parts, rest, IsSplit};

/// The parts of a stream, with a line feed after each, and its rest are the stream, and none of them
/// contains a line feed. No other parts have this property.
pub fn parts_of_a_stream()
    ensures whole { (stream : List ℕ) → IsSplit stream (ended_parts stream) (rest stream) }
    ensures only { (stream : List ℕ) (parts : List (List ℕ)) (left : List ℕ) → IsSplit stream parts left →
        (parts ≡ ended_parts stream) × (left ≡ rest stream) }
{}
