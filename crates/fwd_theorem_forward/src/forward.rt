//! What is sent to forward peers, and what they send.

ghost use Rattle.std.specs.Prelude.{◌≡◌, ◌↔◌, ◌++◌, ℕ, Bool, true, List, Some};
ghost use Rattle.fwd_settings.specs.declared.settings_types.AllSettings.{AllSettings};
ghost use Rattle.fwd_settings.specs.declared.settings_types.OutputKind.TheVariants as output_kind;
ghost use Rattle.fwd_settings.specs.declared.settings_types.OutputSet.{OutputSet};
ghost use Rattle.fwd_out_net.specs.Id.{chunk_id};
ghost use Rattle.fwd_wire.specs.Message.{MessageContent};
ghost use Rattle.fwd_model.specs.Fact.{History, Route};
ghost use Rattle.fwd_model.specs.Settings.{output_at};
ghost use Rattle.fwd_model.specs.Routes.{begun};
ghost use Rattle.fwd_model.specs.Messages.{reply_of, becomes_malformed};
ghost use Rattle.fwd_model.specs.Payloads.{tag_of_chunk, delivery};
ghost use Rattle.fwd_theorem_forward.specs.Forward.{SendsMessage, AsksFor, IsBroken};

use fwd_out_net::{none_is_fatal, right_is_the_ack};
use fwd_wire::streams_are_read;

/// A flush to a forward peer sends one message, with the chunk's tag and the events with which the flush
/// began. If the output wants acknowledgements, the message has an id of the chunk and the output, and a
/// reply is right exactly if it begins with the acknowledgement of this id. Else no reply is wanted.
pub fn forward_flushes_send_messages()
    ensures { (s : AllSettings) (h : History) (r : Route) (output : OutputSet) (host : List ℕ) (port : ℕ) (ack whole_time : Bool)
        → output_at s r.output ≡ Some output → output.kind ≡ output_kind.Forward host port ack whole_time
        → SendsMessage ack whole_time (tag_of_chunk h r.chunk) (begun h r) (chunk_id r.chunk r.output) (delivery s h r) }
{
    right_is_the_ack();
    none_is_fatal();
}

/// A message is answered exactly if it has a chunk, and the answer is the acknowledgement of this chunk.
pub fn messages_ask_for_their_chunk()
    ensures { (m : MessageContent) (reply : List ℕ) → (reply_of m ≡ Some reply) ↔ AsksFor m reply }
{}

/// The bytes of a connection become malformed exactly if after their messages no further one can begin.
pub fn broken_streams_are_malformed()
    ensures { (before piece : List ℕ) → (becomes_malformed before piece ≡ true) ↔ IsBroken (before ++ piece) }
{
    streams_are_read();
}
