//! The time of an event.

ghost use Rattle.std.specs.Prelude.{◌≡◌};
ghost use Rattle.fwd_value.specs.View.{val_of};
ghost use Rattle.fwd_parser.specs.LineEvent.{clock_moment, moment_in, moment_of_value, field_moment, without, at, timed_event};

use crate::parser::TimeRule;
use crate::time::time_of;
use fwd_base::Bytes;
use fwd_base::limits::LATEST_TIME;
use fwd_event::{Event, Pairs, Value};
use fwd_value::{index_of, value_of};
use std::alloc::Global;

/// Returns the moment of a clock reading in milliseconds.
#[tactic(auto, unfolding(crate::specs::LineEvent::clock_moment))]
pub fn clock_moment(clock: u64) -> (u32, u32)
    ensures { result ≡ clock_moment clock }
{
    let ms = clock.min(LATEST_TIME);
    ((ms / 1000) as u32, (ms % 1000 * 1_000_000) as u32)
}

/// Returns the moment of a text, if it is from 1970 up to the second 4294967295.
#[tactic(auto, unfolding(crate::specs::LineEvent::moment_in))]
pub fn moment_in(format: &[u8], text: &[u8]) -> Option<(u32, u32)>
    ensures { result ≡ moment_in format.now text.now }
{
    let (seconds, nanos) = time_of(format, text)?;
    if seconds < 0 || seconds > 4_294_967_295 {
        return None;
    }
    Some((seconds as u32, nanos))
}

fn moment_of_value(format: &[u8], value: &Value) -> Option<(u32, u32)>
    ensures { result ≡ moment_of_value format.now (val_of value.now) }
{
    let Value::Text(text) = value else {
        return None;
    };
    moment_in(format, text.as_slice())
}

/// Returns the moment of the first pair with the rule's key.
#[tactic(auto, unfolding(crate::specs::LineEvent::field_moment))]
fn field_moment(rule: &TimeRule, body: &Pairs) -> Option<(u32, u32)>
    ensures { result ≡ field_moment rule.now body.now }
{
    moment_of_value(rule.format.as_slice(), value_of(body, &rule.key)?)
}

/// Removes the first pair with a key.
#[tactic(auto, unfolding(crate::specs::LineEvent::without))]
fn take_out(body: &mut Pairs, key: &Bytes)
    ensures { body.new ≡ without key.now body.old }
{
    if let Some(place) = index_of(body, key) {
        body.remove(place);
    }
}

pub fn at(alloc: Global, moment: (u32, u32), body: Pairs) -> Event
    ensures { result ≡ at moment body }
{
    let (sec, nsec) = moment;
    Event {
        sec,
        nsec,
        meta: Pairs::new(alloc),
        body,
    }
}

/// Returns the event of a record: at the moment of the rule's field, which is then removed unless it is
/// kept, else at the clock's.
#[tactic(auto, unfolding(crate::specs::LineEvent::timed_event))]
pub fn timed_event(alloc: Global, time: &Option<TimeRule>, clock: u64, mut body: Pairs) -> Event
    ensures { result ≡ timed_event time.now clock body }
{
    let Some(rule) = time else {
        return at(alloc, clock_moment(clock), body);
    };
    let Some(moment) = field_moment(rule, &body) else {
        return at(alloc, clock_moment(clock), body);
    };
    if !rule.keep {
        take_out(&mut body, &rule.key);
    }
    at(alloc, moment, body)
}
