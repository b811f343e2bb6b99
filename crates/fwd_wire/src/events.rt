//! The events of a message.

ghost use Rattle.std.specs.Prelude.{◌≡◌, Some, [], IfOk};
ghost use Rattle.fwd_value.specs.Val.{vals_of};
ghost use Rattle.fwd_value.specs.View.{val_of};
ghost use Rattle.fwd_event.specs.Event.{event_of};
ghost use Rattle.fwd_wire.specs.Message.{in_front, events_of, packed, one};
ghost use Rattle.fwd_wire.specs.Representation.{CarriesExactly, Pushes};

use fwd_base::{Items, Memory};
use fwd_event::{Event, EventErr, Events, event_of, event_of_two, read_events};
use fwd_msgpack::{Value, Values};
use std::alloc::Global;

/// Returns the list of one event, if there is one.
fn one_event(alloc: Global, event: Option<Event>) -> Result<Option<Events>, Memory>
    ensures { IfOk result (λ events. events ≡ in_front event (Some [])) }
{
    let Some(event) = event else {
        return Ok(None);
    };
    let mut events = Items::new(alloc);
    events.push(event)?;
    Ok(Some(events))
}

/// Returns the event of a time and a record.
pub fn single(alloc: Global, time: Value, body: Value) -> Result<Option<Events>, Memory>
    ensures { IfOk result (λ events. CarriesExactly (one (val_of time) (val_of body)) events) }
{
    one_event(alloc, event_of_two(alloc, time, body))
}

/// Appends the event that a value is, and returns whether it is one.
fn push_event(alloc: Global, events: &mut Events, value: Value) -> Result<bool, Memory>
    ensures { IfOk result (λ is. Pushes is events.old events.new (event_of (val_of value))) }
{
    match event_of(alloc, value) {
        Some(event) => {
            events.push(event)?;
            Ok(true)
        }
        None => Ok(false),
    }
}

/// Returns the events that the values are, if all are events. Consumes each value, and stops at the first
/// that isn't an event.
pub fn events_of_values(alloc: Global, values: Values) -> Result<Option<Events>, Memory>
    ensures { IfOk result (λ events. events ≡ events_of (vals_of values)) }
{
    let mut events = Items::new(alloc);
    for value in values.into_vec() {
        if !push_event(alloc, &mut events, value)? {
            return Ok(None);
        }
    }
    Ok(Some(events))
}

/// Returns the events that bytes encode, if they are events one after another.
pub fn unpack_events(alloc: Global, bytes: &[u8]) -> Result<Option<Events>, Memory>
    ensures { IfOk result (λ events. CarriesExactly (packed bytes.now) events) }
{
    match read_events(alloc, bytes) {
        Ok(events) => Ok(Some(events)),
        Err(EventErr::Memory) => Err(Memory),
        Err(EventErr::Short) => Ok(None),
        Err(EventErr::Unused { .. }) => Ok(None),
        Err(EventErr::TooDeep { .. }) => Ok(None),
        Err(EventErr::NotAnEvent { .. }) => Ok(None),
    }
}
