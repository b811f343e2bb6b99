//! Runs that are recorded, or can't be.

use crate::stage::{RECORD, REPLAY, STORED, Sinks, TCP, of_words, run};
use fwd_base::Memory;
use std::alloc::Global;
use std::thread::Threads;

const TAIL: &[u8] = b"[SERVICE]\n    Flush 1\n\
    [INPUT]\n    Name tail\n    Path /l\n    Read_from_Head On\n    Tag app\n\
    [OUTPUT]\n    Name stdout\n    Match *\n";

const EVENTS: &[u8] = b"\
tick 5000
joined 0 1
piece 0 1 t:hello\\n
tick 6000
stop
";

/// What is recorded of a run with these events.
const RECORDED: &[u8] = b"\
dial 0 ok
push 0 took 35
tick 5000
joined 0 1
piece 0 1 t:hello\\n
tick 6000
stop
";

const REPORT: &[u8] = b"\
input tcp.0: batches 1 events 1 refused 0
output stdout.0: ok 1 retry 0 error 0 spent 0 lost 0 taken 35
loaded 0 unrouted 0 left 0 faults 0
owed 0
";

/// What a replay prints of it.
const REPLAYED: &[u8] = b"\
{\"date\":5.000000000,\"log\":\"hello\"}
input tcp.0: batches 1 events 1 refused 0
output stdout.0: ok 1 retry 0 error 0 spent 0 lost 0 taken 35
loaded 0 unrouted 0 left 0 faults 0
owed 0
";

/// A run whose disk has a chunk.
const LEFT_OVER: &[u8] = b"\
store S/a/1.flb x:c10000000000010000000000000000000002000000000000017490
tick 1000
stop
";

fn wrote(sinks: &Sinks, out: &[u8], tape: &[u8]) -> bool {
    sinks.out.bytes().as_slice() == out && sinks.tape.bytes().as_slice() == tape
}

fn records(rt: &(impl Threads + Sync), alloc: Global) -> Result<bool, Memory> {
    let mut sinks = Sinks::new(alloc);
    let status = run(rt, alloc, of_words(RECORD, TCP, b""), EVENTS, &mut sinks)?;
    Ok(status == 0 && wrote(&sinks, REPORT, RECORDED))
}

fn replays(rt: &(impl Threads + Sync), alloc: Global) -> Result<bool, Memory> {
    let mut sinks = Sinks::new(alloc);
    let status = run(rt, alloc, of_words(REPLAY, TCP, RECORDED), b"", &mut sinks)?;
    Ok(status == 0 && wrote(&sinks, REPLAYED, b""))
}

/// Returns whether a run is refused before it starts.
fn is_not_recordable(
    rt: &(impl Threads + Sync),
    alloc: Global,
    config: &[u8],
    life: &[u8],
) -> Result<bool, Memory> {
    let mut sinks = Sinks::new(alloc);
    let status = run(rt, alloc, of_words(RECORD, config, b""), life, &mut sinks)?;
    Ok(status == 12 && wrote(&sinks, b"", b""))
}

fn fails_to_record(rt: &(impl Threads + Sync), alloc: Global) -> Result<bool, Memory> {
    let mut sinks = Sinks::new(alloc);
    sinks.tape.fail_at(1)?;
    let status = run(rt, alloc, of_words(RECORD, TCP, b""), EVENTS, &mut sinks)?;
    Ok(status == 13 && wrote(&sinks, REPORT, b""))
}

#[test]
fn a_run_is_recorded(rt: HostRuntime) {
    assert!(rt; matches!(records(&rt, rt.alloc()), Ok(true)));
}

#[test]
fn what_was_recorded_replays(rt: HostRuntime) {
    assert!(rt; matches!(replays(&rt, rt.alloc()), Ok(true)));
}

#[test]
fn a_run_that_follows_files_is_not_recordable(rt: HostRuntime) {
    let refused = is_not_recordable(&rt, rt.alloc(), TAIL, EVENTS);
    assert!(rt; matches!(refused, Ok(true)));
}

#[test]
fn a_run_that_finds_a_chunk_is_not_recordable(rt: HostRuntime) {
    let refused = is_not_recordable(&rt, rt.alloc(), STORED, LEFT_OVER);
    assert!(rt; matches!(refused, Ok(true)));
}

#[test]
fn a_record_can_fail(rt: HostRuntime) {
    assert!(rt; matches!(fails_to_record(&rt, rt.alloc()), Ok(true)));
}
