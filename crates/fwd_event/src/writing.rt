//! Encoding of events, in the newer format, with an EventTime.

ghost use Rattle.std.specs.Prelude.{◌≡◌, ◌↔◌, ◌≤◌, ℕ, [], ◌∷◌, ◌++◌, IsTrue, OnOk, OnErr};
ghost use Rattle.std.specs.Int.{w32, to_be_bytes};
ghost use Rattle.fwd_value.specs.Val.{entries_of, mapping};
ghost use Rattle.fwd_msgpack.specs.Canonical.{canonical};
ghost use Rattle.fwd_msgpack.specs.KeptFront.{KeepsFront};
ghost use Rattle.fwd_event.specs.Event.{event_val, EventFits, AreEvents};

use crate::Event;
use fwd_base::limits::DEEPEST;
use fwd_base::{Bytes, Memory};
use fwd_msgpack::{can_encode_map, encode_map};

/// The deepest nesting of the values in metadata, which is a map in two lists.
pub const META_DEPTH: u64 = DEEPEST as u64 - 3;

/// The deepest nesting of the values in a record, which is a map in a list.
pub const BODY_DEPTH: u64 = DEEPEST as u64 - 2;

/// Returns whether an event can be encoded: its record is nested at most 63 deep, its metadata at most 62
/// deep, and each length in them is below 2^32.
pub fn can_write(event: &Event) -> bool
    ensures { IsTrue result ↔ EventFits event.now }
{
    can_encode_map(&event.meta, META_DEPTH) && can_encode_map(&event.body, BODY_DEPTH)
}

/// Appends the bytes of an event before its metadata.
#[tactic(auto, using(crate::proofs::EventParts::keeps_same))]
fn put_time(sec: u32, nsec: u32, out: &mut Bytes) -> Result<(), Memory>
    ensures ok { OnOk result (out.new
        ≡ out.old ++ 146 ∷ 146 ∷ 215 ∷ 0 ∷ (to_be_bytes w32 sec ++ to_be_bytes w32 nsec)) }
    ensures err { OnErr result (KeepsFront out.old out.new) }
{
    let [a, b, c, d] = sec.to_be_bytes();
    let [e, f, g, h] = nsec.to_be_bytes();
    out.extend_from_slice([0x92, 0x92, 0xd7, 0x00, a, b, c, d, e, f, g, h].as_slice())
}

fn write_parts(event: &Event, out: &mut Bytes) -> Result<(), Memory>
    requires { EventFits event.now }
    ensures ok { OnOk result (out.new ≡ out.old ++ canonical (event_val event.now)) }
    ensures are { OnOk result (AreEvents (event.now ∷ []) (canonical (event_val event.now))) }
    ensures err { OnErr result (KeepsFront out.old out.new) }
{
    put_time(event.sec, event.nsec, out)?;
    encode_map(&event.meta, out)?;
    encode_map(&event.body, out)
}

/// Appends the canonical encoding of `[[EventTime, metadata], record]`. After `Err` the bytes are unchanged.
pub fn write_event(event: &Event, out: &mut Bytes) -> Result<(), Memory>
    requires { EventFits event.now }
    ensures ok { OnOk result (out.new ≡ out.old ++ canonical (event_val event.now)) }
    // The encoding decodes to this event.
    ensures are { OnOk result (AreEvents (event.now ∷ []) (canonical (event_val event.now))) }
    ensures err { OnErr result (out.new ≡ out.old) }
{
    let start = out.len();
    let written = write_parts(event, out);
    if written.is_err() {
        out.truncate(start);
    }
    written
}
