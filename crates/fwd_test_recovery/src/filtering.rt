//! Two threads filter one list of events.

use crate::meeting::{COUNT, Meeting, plain_map_meets};
use fwd_base::{Bytes, Memory};
use fwd_event::{Event, Events};
use fwd_filters::{FilterKind, FilterStep, FilterSteps, filter, filter_gated};
use fwd_reshape::{Change, Changes, Conditions, ModifyRules};
use fwd_value::{Pairs, Value};
use std::alloc::Global;
use std::test::Fail;
use std::thread::Threads;

fn text(alloc: Global, text: &str) -> Result<Value, Memory> {
    Ok(Value::Text(Bytes::from_slice(alloc, text.as_bytes())?))
}

fn push_pair(alloc: Global, body: &mut Pairs, key: &str, value: &str) -> Result<(), Memory> {
    let key = text(alloc, key)?;
    body.push((key, text(alloc, value)?))
}

/// The body `{"log":"a"}`.
fn body(alloc: Global) -> Result<Pairs, Memory> {
    let key = text(alloc, "log")?;
    let value = text(alloc, "a")?;
    let mut body = Pairs::new(alloc);
    body.push((key, value))?;
    Ok(body)
}

fn push_event(alloc: Global, events: &mut Events, sec: u32) -> Result<(), Memory> {
    let body = body(alloc)?;
    events.push(Event {
        sec,
        nsec: 0,
        meta: Pairs::new(alloc),
        body,
    })
}

/// One event for each second from 0 on.
fn events(alloc: Global) -> Result<Events, Memory> {
    let mut events = Events::new(alloc);
    for sec in 0..COUNT as u32 {
        push_event(alloc, &mut events, sec)?;
    }
    Ok(events)
}

fn is_text(value: &Value, wanted: &[u8]) -> bool {
    match value {
        Value::Text(bytes) => bytes.as_slice() == wanted,
        _ => false,
    }
}

/// Whether this is the event of a second after the filter.
fn is_filtered(event: &Event, sec: u64) -> bool {
    match event.body.as_slice() {
        [(log, line), (key, value)] => {
            event.sec as u64 == sec
                && is_text(log, b"log")
                && is_text(line, b"a")
                && is_text(key, b"k")
                && is_text(value, b"v")
        }
        _ => false,
    }
}

fn are_filtered(events: &Events) -> bool {
    let mut sec = 0u64;
    for event in events {
        if !is_filtered(event, sec) {
            return false;
        }
        sec = sec.wrapping_add(1);
    }
    sec == COUNT
}

/// The change `Add k v`.
fn changes(alloc: Global) -> Result<Changes, Memory> {
    let key = Bytes::from_slice(alloc, b"k")?;
    let value = Bytes::from_slice(alloc, b"v")?;
    let mut changes = Changes::new(alloc);
    changes.push(Change::Add { key, value })?;
    Ok(changes)
}

fn rules(alloc: Global) -> Result<ModifyRules, Memory> {
    let rules = changes(alloc)?;
    Ok(ModifyRules {
        conditions: Conditions::new(alloc),
        rules,
    })
}

fn steps(alloc: Global) -> Result<FilterSteps, Memory> {
    let kind = FilterKind::Modify(rules(alloc)?);
    let glob = Bytes::from_slice(alloc, b"*")?;
    let mut steps = FilterSteps::new(alloc);
    steps.push(FilterStep { glob, kind })?;
    Ok(steps)
}

/// Whether the filter gives its events, and meets if the plain map does.
fn is_gated(
    rt: &(impl Threads + Sync),
    alloc: Global,
    steps: &FilterSteps,
    meets: bool,
) -> Result<bool, Memory> {
    let meeting = Meeting::new(0, COUNT - 1);
    let left = filter_gated(rt, alloc, steps, b"app", events(alloc)?, &meeting)?;
    Ok(are_filtered(&left) && (!meets || meeting.has_met()))
}

fn is_plain(
    rt: &(impl Threads + Sync),
    alloc: Global,
    steps: &FilterSteps,
) -> Result<bool, Memory> {
    let left = filter(rt, alloc, steps, b"app", events(alloc)?)?;
    Ok(are_filtered(&left))
}

fn meet(rt: &(impl Threads + Sync), alloc: Global, meets: bool) -> Result<bool, Memory> {
    let steps = steps(alloc)?;
    Ok(is_plain(rt, alloc, &steps)? && is_gated(rt, alloc, &steps, meets)?)
}

#[test]
fn events_are_filtered_by_two_threads(rt: HostRuntime) -> Result<(), Fail> {
    let meets = plain_map_meets(&rt, rt.alloc())?;
    assert!(rt; matches!(meet(&rt, rt.alloc(), meets), Ok(true)));
    Ok(())
}
