//! Batches of events that go through one filter.

use fwd_base::{Bytes, Memory, Pattern};
use fwd_event::{Event, Events};
use fwd_filters::{FilterKind, FilterStep, FilterSteps, filter};
use fwd_grep::{GrepRule, GrepRules};
use fwd_parser::Floats;
use fwd_reshape::{Change, Changes, Conditions, ModifyRules};
use fwd_value::{Pairs, Value};
use std::alloc::Global;
use std::io;
use std::thread::Threads;
use std::time::Instant;

/// What is measured: a filter, and how long the lines are.
#[derive(Clone, Copy)]
struct Case {
    name: &'static str,
    /// The pattern that `grep` excludes; without it `modify` adds a pair.
    pattern: Option<&'static str>,
    length: u32,
}

const CASES: &[Case] = &[
    Case {
        name: "modify",
        pattern: None,
        length: 10,
    },
    Case {
        name: "drop",
        pattern: Some("^a"),
        length: 10,
    },
    Case {
        name: "keep",
        pattern: Some("^b"),
        length: 10,
    },
    Case {
        name: "keep",
        pattern: Some("^b"),
        length: 100,
    },
    Case {
        name: "search",
        pattern: Some("[0-9]+ b"),
        length: 1_000,
    },
];

fn bytes(alloc: Global, text: &str) -> Result<Bytes, Memory> {
    Bytes::from_slice(alloc, text.as_bytes())
}

fn line(alloc: Global, length: u32) -> Result<Bytes, Memory> {
    let mut line = Bytes::new(alloc);
    for _ in 0..length {
        line.push(b'a')?;
    }
    Ok(line)
}

/// Returns the body of a line, with the room that a parser makes.
fn body(alloc: Global, length: u32) -> Result<Pairs, Memory> {
    let mut body = Vec::with_capacity(alloc, 4)?;
    let key = Value::Text(bytes(alloc, "log")?);
    body.push((key, Value::Text(line(alloc, length)?)))?;
    Ok(Pairs::from_vec(body))
}

fn events(alloc: Global, count: u32, length: u32) -> Result<Events, Memory> {
    let mut events = Events::new(alloc);
    for sec in 0..count {
        let body = body(alloc, length)?;
        let meta = Pairs::new(alloc);
        events.push(Event {
            sec,
            nsec: 0,
            meta,
            body,
        })?;
    }
    Ok(events)
}

fn changes(alloc: Global) -> Result<Changes, Memory> {
    let key = bytes(alloc, "k")?;
    let value = bytes(alloc, "v")?;
    let mut changes = Changes::new(alloc);
    changes.push(Change::Add { key, value })?;
    Ok(changes)
}

fn modify(alloc: Global) -> Result<FilterKind, Memory> {
    Ok(FilterKind::Modify(ModifyRules {
        conditions: Conditions::new(alloc),
        rules: changes(alloc)?,
    }))
}

fn pattern(alloc: Global, text: &str) -> Result<Pattern, Memory> {
    Pattern::new(alloc, text.as_bytes()).map_err(|_| Memory)
}

fn grep(alloc: Global, text: &str) -> Result<FilterKind, Memory> {
    let key = bytes(alloc, "log")?;
    let pattern = pattern(alloc, text)?;
    let mut rules = GrepRules::new(alloc);
    rules.push(GrepRule {
        exclude: true,
        key,
        pattern,
        floats: Floats::Tagged,
    })?;
    Ok(FilterKind::Grep(rules))
}

fn kind(alloc: Global, case: Case) -> Result<FilterKind, Memory> {
    match case.pattern {
        Some(text) => grep(alloc, text),
        None => modify(alloc),
    }
}

fn steps(alloc: Global, case: Case) -> Result<FilterSteps, Memory> {
    let kind = kind(alloc, case)?;
    let glob = bytes(alloc, "*")?;
    let mut steps = FilterSteps::new(alloc);
    steps.push(FilterStep { glob, kind })?;
    Ok(steps)
}

/// Returns the time that a batch takes, in nanoseconds.
fn time_of(
    rt: &HostRuntime,
    threads: &(impl Threads + Sync),
    steps: &FilterSteps,
    events: Events,
) -> io::Result<u128> {
    let start = Instant::now(rt)?;
    let left = filter(threads, rt.alloc(), steps, b"app", events);
    let spent = start.elapsed(rt)?.as_nanos();
    match left {
        Ok(_) => Ok(spent),
        Err(Memory) => Ok(u128::MAX),
    }
}

fn new_events(alloc: Global, count: u32, length: u32) -> Events {
    match events(alloc, count, length) {
        Ok(events) => events,
        Err(Memory) => Events::new(alloc),
    }
}

/// Returns the least time of some batches, in nanoseconds.
fn least(
    rt: &HostRuntime,
    threads: &(impl Threads + Sync),
    case: Case,
    count: u32,
    turns: u32,
) -> io::Result<u128> {
    let Ok(steps) = steps(rt.alloc(), case) else {
        return Ok(u128::MAX);
    };
    let mut least = u128::MAX;
    for _ in 0..turns {
        let events = new_events(rt.alloc(), count, case.length);
        least = least.min(time_of(rt, threads, &steps, events)?);
    }
    Ok(least)
}

/// Prints, for each filter, its name, how long the lines are, and the least time of a batch, in
/// nanoseconds.
pub fn measure(
    rt: &HostRuntime,
    threads: &(impl Threads + Sync),
    count: u32,
    turns: u32,
) -> io::Result<()> {
    for case in CASES {
        let spent = least(rt, threads, *case, count, turns)?;
        println!(rt; "{} {} {spent}", case.name, case.length)?;
    }
    Ok(())
}
