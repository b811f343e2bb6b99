//! Encoding of the event of a line.

ghost use Rattle.std.specs.Prelude.{◌≡◌, ◌↔◌, ◌<◌, ◌^◌, ◌++◌, length, map, codes, IsTrue, IfOk, OnOk, OnErr, if◌then◌else◌};
ghost use Rattle.fwd_value.specs.Val.{entries_of, text};
ghost use Rattle.fwd_value.specs.View.{val_of, pair_of};
ghost use Rattle.fwd_value.specs.Limits.{nesting, entry_nestings, LengthsFit, EntryLengthsFit};
ghost use Rattle.fwd_event.specs.Event.{event_val, EventFits};
ghost use Rattle.fwd_msgpack.specs.Canonical.{canonical};
ghost use Rattle.fwd_msgpack.specs.KeptFront.{KeepsFront};
ghost use Rattle.fwd_parser.specs.LineEvent.{at, clock_moment, plain};
ghost use Rattle.fwd_parser.specs.EventHead.{event_head};

use crate::event_time::clock_moment;
use fwd_base::{Bytes, Memory};
use fwd_event::{Event, Value, can_write, write_event};
use fwd_msgpack::{put_bytes, put_text};

/// Appends the encoding of an event at a moment, up to the pairs of its record.
pub fn put_head(moment: (u32, u32), n: usize, out: &mut Bytes) -> Result<(), Memory>
    requires { n < 16 }
    ensures ok { OnOk result (out.new ≡ out.old ++ event_head moment n) }
    ensures err { OnErr result (KeepsFront out.old out.new) }
{
    let (sec, nsec) = moment;
    let [a, b, c, d] = sec.to_be_bytes();
    let [e, f, g, h] = nsec.to_be_bytes();
    let pairs = 0x80 + n as u8;
    let head = [0x92, 0x92, 0xd7, 0x00, a, b, c, d, e, f, g, h, 0x80, pairs];
    put_bytes(out, head.as_slice())
}

/// Appends the encoding of an event at a moment with one pair, up to the value of its key `log`.
#[tactic(auto, unfolding(fwd_msgpack::specs::Canonical::text_head))]
fn put_log_head(moment: (u32, u32), out: &mut Bytes) -> Result<(), Memory>
    ensures ok { OnOk result (out.new ≡ out.old ++ (event_head moment 1 ++ canonical (text (codes "log")))) }
    ensures err { OnErr result (KeepsFront out.old out.new) }
{
    let (sec, nsec) = moment;
    let [a, b, c, d] = sec.to_be_bytes();
    let [e, f, g, h] = nsec.to_be_bytes();
    let head = [
        0x92, 0x92, 0xd7, 0x00, a, b, c, d, e, f, g, h, 0x80, 0x81, 0xa3, b'l', b'o', b'g',
    ];
    put_bytes(out, head.as_slice())
}

/// Appends the encoding of the event of a short line that is kept whole.
#[tactic(auto, using(fwd_msgpack::proofs::KeptFront::keeps_behind))]
fn put_short(moment: (u32, u32), line: &[u8], out: &mut Bytes) -> Result<(), Memory>
    requires { length line.now < 2 ^ 32 }
    ensures ok { OnOk result (out.new ≡ out.old ++ canonical (event_val (at moment (plain line.now)))) }
    ensures err { OnErr result (KeepsFront out.old out.new) }
{
    put_log_head(moment, out)?;
    put_text(out, line)
}

/// Appends the encoding of the event of a line that is kept whole, at the clock's moment, and returns whether
/// the event can be encoded. If not, the bytes are unchanged, and after `Err` the old ones are still there.
#[tactic(auto, using(crate::proofs::PlainEvents::plain_fits, crate::proofs::PlainEvents::short_if_fits))]
pub fn put_plain(line: &[u8], clock: u64, out: &mut Bytes) -> Result<bool, Memory>
    ensures fits { IfOk result (λ put. IsTrue put ↔ EventFits (at (clock_moment clock) (plain line.now))) }
    ensures bytes { IfOk result (λ put. out.new
        ≡ (if put then out.old ++ canonical (event_val (at (clock_moment clock) (plain line.now))) else out.old)) }
    ensures err { OnErr result (KeepsFront out.old out.new) }
{
    if line.len() as u64 > u32::MAX as u64 {
        return Ok(false);
    }
    put_short(clock_moment(clock), line, out)?;
    Ok(true)
}

/// Returns whether a value is neither a list nor a map, and shorter than 2^32 bytes.
fn is_flat(value: &Value) -> bool
    ensures { IsTrue result ↔ (nesting (val_of value.now) ≡ 0) × LengthsFit (val_of value.now) }
{
    match value {
        Value::Text(bytes) => bytes.len() < 4_294_967_296,
        Value::Bin(bytes) => bytes.len() < 4_294_967_296,
        Value::Ext(_, bytes) => bytes.len() < 4_294_967_296,
        Value::List(_) | Value::Map(_) => false,
        Value::Nil
        | Value::Truth(_)
        | Value::Uint(_)
        | Value::Neg(_)
        | Value::Float32(_)
        | Value::Float64(_) => true,
    }
}

/// Returns whether each key and each value of pairs is flat.
fn are_flat(pairs: &[(Value, Value)]) -> bool
    ensures { IsTrue result ↔ (entry_nestings (entries_of (map pair_of pairs.now)) ≡ 0)
        × EntryLengthsFit (entries_of (map pair_of pairs.now)) }
{
    match pairs {
        [] => true,
        [first, rest @ ..] => is_flat(&first.0) && is_flat(&first.1) && are_flat(rest),
    }
}

/// Returns whether an event has no metadata and a flat record, so that it can be encoded. It is asked before
/// `can_write`, since it takes a part of its time.
#[tactic(auto, using(crate::proofs::PlainEvents::flat_fits))]
fn has_flat_record(event: &Event) -> bool
    ensures { IsTrue result → EventFits event.now }
{
    if !event.meta.is_empty() {
        return false;
    }
    (event.body.len() as u64) < 4_294_967_296 && are_flat(event.body.as_slice())
}

/// Appends the encoding of an event, and returns whether the event can be encoded. If not, the bytes are
/// unchanged, and after `Err` the old ones are still there.
#[tactic(auto, using(fwd_msgpack::proofs::KeptFront::keeps_same))]
pub fn put_decoded(event: &Event, out: &mut Bytes) -> Result<bool, Memory>
    ensures fits { IfOk result (λ put. IsTrue put ↔ EventFits event.now) }
    ensures bytes { IfOk result (λ put. out.new
        ≡ (if put then out.old ++ canonical (event_val event.now) else out.old)) }
    ensures err { OnErr result (KeepsFront out.old out.new) }
{
    if !has_flat_record(event) && !can_write(event) {
        return Ok(false);
    }
    write_event(event, out)?;
    Ok(true)
}
