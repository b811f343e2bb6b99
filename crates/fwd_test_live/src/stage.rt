//! A loop that is started, with its peers on loopback.

use fwd_live::{LiveLoop, Patience, Shared};
use fwd_log::Journal;
use fwd_outside::{
    Begun, Bytes, Ends, Happening, InEnd, InputId, Items, Loop, Memory, OutEnd, OutputId,
};
use std::alloc::Global;
use std::io;
use std::net::{TcpListener, TcpStream};
use std::test::Fail;

/// The input that listens.
pub const INPUT: InputId = InputId(0);

/// The output to the listener of the stage.
pub const PEER: OutputId = OutputId(0);

/// The output to the folder `.`, with a file for each tag.
pub const FOLDER: OutputId = OutputId(1);

/// The most milliseconds that a test waits for an event.
const LONGEST: u64 = 10_000;

/// A loop, the listener for its output, and the peers that are connected, the last of which is the one that
/// acts.
#[derive(Drop)]
pub struct Stage<'a> {
    pub live: LiveLoop<'a>,
    pub listener: TcpListener,
    pub peers: Vec<TcpStream>,
    /// The bytes that were taken until no more were, and that the peer hasn't received.
    pub taken: u64,
}

/// Returns what the devices share, with a log that writes nothing.
pub fn quiet(rt: HostRuntime) -> Shared {
    Shared::new(Journal::new(rt, None))
}

fn local(alloc: Global) -> Result<Bytes, Memory> {
    Bytes::from_slice(alloc, b"127.0.0.1")
}

fn listen(alloc: Global) -> Result<InEnd, Memory> {
    let host = local(alloc)?;
    Ok(InEnd::Listen { host, port: 0 })
}

fn peer_at(alloc: Global, port: u16) -> Result<OutEnd, Memory> {
    let host = local(alloc)?;
    Ok(OutEnd::Peer { host, port })
}

fn folder(alloc: Global) -> Result<OutEnd, Memory> {
    let path = Bytes::from_slice(alloc, b".")?;
    Ok(OutEnd::Folder { path, file: None })
}

/// Adds an input that listens at a free port, and the outputs `PEER` and `FOLDER`.
fn add_ends(alloc: Global, ends: &mut Ends, port: u16) -> Result<(), Memory> {
    ends.inputs.push(listen(alloc)?)?;
    ends.outputs.push(peer_at(alloc, port)?)?;
    ends.outputs.push(folder(alloc)?)
}

fn new_loop(rt: HostRuntime, shared: &Shared, patience: Patience) -> io::Result<LiveLoop<'_>> {
    LiveLoop::new(rt, shared, patience)
}

fn starts(live: &mut LiveLoop<'_>, alloc: Global, port: u16) -> Result<bool, Memory> {
    let mut ends = Ends {
        inputs: Items::new(alloc),
        outputs: Items::new(alloc),
    };
    add_ends(alloc, &mut ends, port)?;
    Ok(live.start(&ends) == Begun::Ready)
}

/// Returns a stage with a loop that is started, and that breaks links to silent peers after this time.
pub fn new_stage(rt: HostRuntime, shared: &Shared, patience: Patience) -> Result<Stage<'_>, Fail> {
    let listener = TcpListener::bind(&rt, "127.0.0.1:0")?;
    let port = listener.local_addr()?.port();
    let mut stage = Stage {
        live: new_loop(rt, shared, patience)?,
        listener,
        peers: Vec::new(rt.alloc()),
        taken: 0,
    };
    if !starts(&mut stage.live, rt.alloc(), port)? {
        return Err(Fail::from("the loop can't be started"));
    }
    Ok(stage)
}

/// Returns the clock reading that a wait until this time brings; 0 if it brings something else.
pub fn tick(live: &mut LiveLoop<'_>, alloc: Global, until: u64) -> u64 {
    match live.wait(alloc, until, 0) {
        Ok(Happening::Tick { now }) => now,
        Ok(_) | Err(Memory) => 0,
    }
}

/// Returns the next event that isn't a clock reading; `End` if none comes until then.
fn next_until(
    live: &mut LiveLoop<'_>,
    alloc: Global,
    last: u64,
    paused: u64,
) -> Result<Happening, Memory> {
    for _ in 0..10_000 {
        match live.wait(alloc, last, paused)? {
            Happening::Tick { now } if now < last => {}
            Happening::Tick { now: _ } => return Ok(Happening::End),
            happening => return Ok(happening),
        }
    }
    Ok(Happening::End)
}

/// Returns the next event that isn't a clock reading; `End` if none comes in time.
pub fn next(live: &mut LiveLoop<'_>, alloc: Global) -> Result<Happening, Memory> {
    let last = tick(live, alloc, 0).saturating_add(LONGEST);
    next_until(live, alloc, last, 0)
}

/// Returns whether no event comes for some milliseconds while these inputs are paused.
pub fn is_quiet(live: &mut LiveLoop<'_>, alloc: Global, paused: u64) -> bool {
    let last = tick(live, alloc, 0).saturating_add(30);
    matches!(next_until(live, alloc, last, paused), Ok(Happening::End))
}
