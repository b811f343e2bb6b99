//! How many threads a list of events is worth.

use fwd_event::{Event, Events, Value};

/// How many events that filters change are worth a thread.
const LEAST_RUN: usize = 2_048;

/// How many bytes that filters search are worth a thread.
const LEAST_SEARCH: usize = 262_144;

/// Returns how many threads a list of events is worth. Starting a thread costs time, and so does sending it
/// events that another processor has just written. To start a thread takes 20 microseconds on an idle
/// machine, and half a millisecond if its processors are shared. For filters that only drop events, the work
/// is the length of the texts that they may search.
pub fn worth_threads(events: &Events, only_drop: bool) -> usize {
    let threads = events.len() / LEAST_RUN;
    if only_drop {
        threads.min(searched_bytes(events) / LEAST_SEARCH)
    } else {
        threads
    }
}

/// Returns how many bytes the texts in the records of events have.
fn searched_bytes(events: &Events) -> usize {
    let mut bytes = 0usize;
    for event in events {
        bytes = bytes.saturating_add(searched_bytes_of(event));
    }
    bytes
}

fn searched_bytes_of(event: &Event) -> usize {
    let mut bytes = 0usize;
    for pair in event.body.iter() {
        if let Value::Text(text) | Value::Bin(text) = &pair.1 {
            bytes = bytes.saturating_add(text.len());
        }
    }
    bytes
}
