use fwd_base::{Items, crosses};
use fwd_msgpack::Pairs;

/// A log event: its time in seconds and nanoseconds since 1970, its metadata, and its record.
#[derive(Debug, Drop)]
pub struct Event {
    pub sec: u32,
    pub nsec: u32,
    pub meta: Pairs,
    pub body: Pairs,
}

/// Events, in order.
pub type Events = Items<Event>;

/// Shows that `Event` and `Events` are `Send` and `Sync`.
pub fn events_are_send_sync(event: &Event, events: &Events) {
    crosses(event);
    crosses(events);
}
