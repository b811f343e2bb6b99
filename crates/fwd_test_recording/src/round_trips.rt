//! Schedules with every answer written out: a run that plays one is recorded as that text, and a replay of it
//! ends with the same report.

use crate::stage::{Invocation, RECORD, REPLAY, STORED, Sinks, TCP, of_words, run};
use fwd_base::Memory;
use std::alloc::Global;
use std::thread::Threads;

const COLLECTOR: &[u8] = b"[SERVICE]\n    Flush 1\n\
    [INPUT]\n    Name tcp\n    Format none\n    Tag app\n\
    [OUTPUT]\n    Name stdout\n    Match *\n\
    [OUTPUT]\n    Name tcp\n    Match *\n    Format json_lines\n    Retry_Limit no_limits\n";

const HTTP: &[u8] = b"[SERVICE]\n    Flush 1\n\
    [INPUT]\n    Name tcp\n    Format none\n    Tag app\n\
    [OUTPUT]\n    Name http\n    Match *\n    Port 8080\n    URI /in\n    Format json_lines\n";

const FORWARD: &[u8] = b"[SERVICE]\n    Flush 1\n\
    [INPUT]\n    Name forward\n\
    [OUTPUT]\n    Name stdout\n    Match *\n";

const KEYED: &[u8] = b"[SERVICE]\n    Flush 1\n\
    [INPUT]\n    Name forward\n    Shared_Key k\n\
    [OUTPUT]\n    Name stdout\n    Match *\n";

/// A link has no room, and has it again.
const AGAIN: &[u8] = b"\
dial 0 ok
push 0 took 3
push 0 again
push 0 took 32
joined 0 1
piece 0 1 t:hello\\n
tick 1000
room 1
";

/// A dial is refused, and a link breaks; each time the chunk is retried.
const RETRIED: &[u8] = b"\
dial 0 ok
push 0 took 35
dial 1 refused
word 7
dial 1 ok
push 1 took 3
push 1 broken
word 0
dial 1 ok
push 1 took 35
joined 0 1
piece 0 1 t:hello\\n
tick 1000
tick 7000
tick 9000
tick 17000
";

/// A reply ends a flush.
const REPLIED: &[u8] = b"\
dial 0 ok
push 0 took 153
tick 5000
joined 0 1
piece 0 1 t:hello\\n
tick 6000
back 1 t:HTTP/1.1 204 No Content\\r\\n\\r\\n
stop
";

/// A message is acknowledged to a peer that is gone.
const UNREAD: &[u8] = b"\
reply broken
dial 0 ok
push 0 took 28
joined 0 1
piece 0 1 x:93a174c41092c708000000000a0000000081a1610181a56368756e6ba27831
tick 1000
";

/// A batch can't be placed: the call on the disk after that of loading fails.
const UNPLACED: &[u8] = b"\
disk 2
joined 0 1
piece 0 1 t:hello\\n
tick 1000
";

/// A peer shows its key, and sends a message.
const GREETED: &[u8] = b"\
word 1
word 2
reply ok
reply ok
reply ok
joined 0 1
piece 0 1 x:96a450494e47a168c41000000000000000000000000000000000d9803734653439346539343733626439343839306266616636363231633337666633393165626164653438373165353063306334383437336462663230376634393938626538633963396438626432623836373431643836353361386632633736623138363235316133326566383939356536306339393638386637346237353539a0a0
piece 0 1 x:93a174c41092c708000000000a0000000081a1610181a56368756e6ba27831
";

/// Returns whether a run by these words, with a loop that plays `life`, ends with a status and is recorded as
/// the schedule. The report of its replay is that of the run.
fn is_kept(
    rt: &(impl Threads + Sync),
    alloc: Global,
    invocation: Invocation<'_>,
    life: &[u8],
    status: u8,
    schedule: &[u8],
) -> Result<bool, Memory> {
    let mut sinks = Sinks::new(alloc);
    let ended = run(rt, alloc, invocation, life, &mut sinks)?;
    let mut again = Sinks::new(alloc);
    let replay = of_words(REPLAY, invocation.config, schedule);
    let replayed = run(rt, alloc, replay, b"", &mut again)?;
    let report = sinks.out.bytes().as_slice();
    Ok(
        ended == status
            && sinks.tape.bytes().as_slice() == schedule
            && replayed == 0
            && !report.is_empty()
            && again.out.bytes().as_slice().ends_with(report),
    )
}

/// Returns whether a run that plays a schedule with all its answers is recorded as that schedule.
fn is_same(
    rt: &(impl Threads + Sync),
    alloc: Global,
    config: &[u8],
    schedule: &[u8],
) -> Result<bool, Memory> {
    is_kept(
        rt,
        alloc,
        of_words(RECORD, config, b""),
        schedule,
        0,
        schedule,
    )
}

fn stops_after_ticks(rt: &(impl Threads + Sync), alloc: Global) -> Result<bool, Memory> {
    let words = &["run", "-n", "2", "-c", "c", "--record", "r"];
    let life = b"joined 0 1\npiece 0 1 t:hello\\n\ntick 500\ntick 600\npiece 0 1 t:late\\n\n";
    let recorded =
        b"dial 0 ok\npush 0 took 35\njoined 0 1\npiece 0 1 t:hello\\n\ntick 500\ntick 600\nstop\n";
    is_kept(rt, alloc, of_words(words, TCP, b""), life, 0, recorded)
}

fn spends_turns(rt: &(impl Threads + Sync), alloc: Global) -> Result<bool, Memory> {
    let short = Invocation {
        turns: 2,
        ..of_words(RECORD, TCP, b"")
    };
    let life = b"joined 0 1\npiece 0 1 t:hello\\n\ntick 1000\n";
    is_kept(
        rt,
        alloc,
        short,
        life,
        7,
        b"joined 0 1\npiece 0 1 t:hello\\n\n",
    )
}

#[test]
fn a_link_without_room_is_kept(rt: HostRuntime) {
    assert!(rt; matches!(is_same(&rt, rt.alloc(), TCP, AGAIN), Ok(true)));
}

#[test]
fn retries_are_kept(rt: HostRuntime) {
    assert!(rt; matches!(is_same(&rt, rt.alloc(), COLLECTOR, RETRIED), Ok(true)));
}

#[test]
fn a_reply_of_a_peer_is_kept(rt: HostRuntime) {
    assert!(rt; matches!(is_same(&rt, rt.alloc(), HTTP, REPLIED), Ok(true)));
}

#[test]
fn a_lost_acknowledgement_is_kept(rt: HostRuntime) {
    assert!(rt; matches!(is_same(&rt, rt.alloc(), FORWARD, UNREAD), Ok(true)));
}

#[test]
fn a_failed_call_on_the_disk_is_kept(rt: HostRuntime) {
    assert!(rt; matches!(is_same(&rt, rt.alloc(), STORED, UNPLACED), Ok(true)));
}

#[test]
fn a_handshake_is_kept(rt: HostRuntime) {
    assert!(rt; matches!(is_same(&rt, rt.alloc(), KEYED, GREETED), Ok(true)));
}

#[test]
fn the_stop_of_the_last_tick_is_kept(rt: HostRuntime) {
    assert!(rt; matches!(stops_after_ticks(&rt, rt.alloc()), Ok(true)));
}

#[test]
fn spent_turns_are_kept(rt: HostRuntime) {
    assert!(rt; matches!(spends_turns(&rt, rt.alloc()), Ok(true)));
}
