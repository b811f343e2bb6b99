//! Theorems about judged replies, and a bound on the size of what is sent. Each is the contract of a
//! function with an empty body.

ghost use Rattle.std.specs.Prelude.{◌≡◌, ◌↔◌, ◌≤◌, ℕ, Bool, List, length};
ghost use Rattle.std.specs.List.{flat_map};
ghost use Rattle.fwd_value.specs.Val.{text};
ghost use Rattle.fwd_msgpack.specs.DecodeAnswers.{EncodesPrefix, IsProperPrefix};
ghost use Rattle.fwd_msgpack.specs.Canonical.{canonical};
ghost use Rattle.fwd_event.specs.declared.event.Event.{Event};
ghost use Rattle.fwd_event.specs.Event.{event_val};
ghost use Rattle.fwd_wire.specs.Encode.{ack_val, entry_bytes};
ghost use Rattle.fwd_base.specs.Limits.{longest_reply};
ghost use Rattle.fwd_flush.specs.declared.judgement.Judged.TheVariants.{More, Right, Fatal};
ghost use Rattle.fwd_out_net.specs.Judgement.{ack_judgement};

/// A reply is right exactly if its first value is the map of `ack` with the id, as a text.
pub fn right_is_the_ack()
    ensures { (id reply : List ℕ) →
        (ack_judgement id reply ≡ Right) ↔ (n : ℕ) × EncodesPrefix (ack_val (text id)) n reply }
{}

/// More is wanted exactly if a reply of at most 1,024 bytes is a proper prefix of a value.
pub fn more_is_a_prefix()
    ensures { (id reply : List ℕ) →
        (ack_judgement id reply ≡ More) ↔ IsProperPrefix reply × (length reply ≤ longest_reply) }
{}

/// No reply is fatal.
pub fn none_is_fatal()
    ensures { (id reply : List ℕ) → ack_judgement id reply ≡ Fatal → ⊥ }
{}

/// The entries of a message are no longer than their stored events, which bounds the size of the message.
pub fn entries_are_short()
    ensures { (whole_time : Bool) (events : List Event) →
        length (entry_bytes whole_time events) ≤ length (flat_map (λ e. canonical (event_val e)) events) }
{}
