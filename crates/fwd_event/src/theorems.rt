//! Theorems about events in bytes. Each is the contract of a function that does nothing.

ghost use Rattle.std.specs.Prelude.{◌≡◌, ℕ, List, ◌↔◌, length, All};
ghost use Rattle.fwd_event.specs.declared.event.Event.{Event};
ghost use Rattle.fwd_event.specs.Event.{AreEvents, IsWholePrefix};
ghost use Rattle.fwd_event.specs.EventPrefix.{events_in, encodings, IsWritable};

/// The events at the beginning of bytes are their longest prefix of whole events.
pub fn events_are_the_whole_prefix()
    ensures { (b : List ℕ) → IsWholePrefix (events_in b).0 (events_in b).1 b }
{}

/// Bytes are a list of events exactly if these events are at their beginning and no byte is left.
pub fn all_bytes_are_events()
    ensures { (events : List Event) (b : List ℕ) → AreEvents events b ↔ (events_in b ≡ (events, length b)) }
{}

/// The encodings of events decode to these events, with no byte left.
pub fn encodings_are_events()
    ensures { (events : List Event) → All IsWritable events → events_in (encodings events)
        ≡ (events, length (encodings events)) }
{}
