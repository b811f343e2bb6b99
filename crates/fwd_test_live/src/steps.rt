//! The steps of a scene: what peers do, what the loop is asked, and what it brings.

use crate::stage::{INPUT, Stage, is_quiet, next, tick};
use fwd_live::LiveLoop;
use fwd_outside::{ConnId, Dialed, Happening, LinkId, Loop, Memory, OutputId, Pushed, Replied};
use std::alloc::Global;
use std::fs;
use std::io::{self, ErrorKind, Read, Write};
use std::net::{Shutdown, TcpListener, TcpStream};
use std::time::{Duration, SystemTime};

/// A part of a large payload.
const PART: [u8; 32_768] = [b'x'; 32_768];

/// How many parts are offered at most.
const PARTS: u32 = 20_000;

/// An event of the loop. Connections and links have numbers; bytes are of any connection or link.
#[derive(Clone, Copy)]
pub enum Event {
    Joined(u64),
    Piece(&'static [u8]),
    Gone(u64),
    Room(u64),
    Back(&'static [u8]),
    Broken(u64),
}

/// Texts of peers have at most 16 bytes.
#[derive(Clone, Copy)]
pub enum Step {
    /// A peer connects to the input, and acts from now on.
    Connect,
    /// The listener accepts the peer of a link, which acts from now on.
    Accept,
    Send(&'static [u8]),
    Receive(&'static [u8]),
    /// The peer receives what was taken, but for so many bytes.
    ReceiveTaken(u64),
    /// The peer receives the end of the connection.
    ReceiveEnd,
    /// The peer sends no more.
    EndSending,
    /// The peer closes its connection.
    Close,
    Brings(Event),
    /// The loop brings a connection, though each wait begins after the time until which it may last.
    JoinedLate(u64),
    /// Nothing comes while the input is paused.
    Quiet,
    Reply(u64, &'static [u8], Replied),
    /// Replies to the first connection until no more is taken.
    ReplyMuch,
    DropConn(u64),
    /// The dial of an output for the tag `fwd_test_live.a/b` gives this link.
    Dial(OutputId, u64),
    Push(u64, &'static [u8], Pushed),
    /// Pushes to the first link until it is full.
    PushMuch,
    CloseLink(u64),
    /// A file has this text. It is removed.
    File(&'static str, &'static str),
    /// A wait until a time in the future brings that time.
    Sleep,
    /// After some busy milliseconds the loop brings the time that has come before any other event.
    TimeFirst,
    /// Random words differ.
    Words,
}

fn connect(stage: &mut Stage<'_>, rt: HostRuntime) -> io::Result<()> {
    let port = stage.live.port(INPUT).unwrap_or(0);
    let peer = TcpStream::connect(&rt, ("127.0.0.1", port))?;
    stage.peers.push(peer)?;
    Ok(())
}

fn accept(listener: &TcpListener, peers: &mut Vec<TcpStream>) -> io::Result<()> {
    let (peer, _) = listener.accept()?;
    peers.push(peer)?;
    Ok(())
}

/// Returns the peer that acts.
fn last_of(peers: &mut Vec<TcpStream>) -> io::Result<&mut TcpStream> {
    match peers.last_mut() {
        Some(peer) => Ok(peer),
        None => Err(io::Error::from(ErrorKind::NotConnected)),
    }
}

fn send(peers: &mut Vec<TcpStream>, bytes: &[u8]) -> io::Result<()> {
    last_of(peers)?.write_all(bytes)
}

fn receive(peers: &mut Vec<TcpStream>, wanted: &[u8]) -> io::Result<bool> {
    let mut part = [0; 16];
    let count = wanted.len().min(16);
    last_of(peers)?.read_exact(&mut part[..count])?;
    let got = &part[..count];
    Ok(got == wanted)
}

fn receive_taken(stage: &mut Stage<'_>, alloc: Global, rest: u64) -> io::Result<()> {
    let mut bytes = Vec::new(alloc);
    bytes.resize(stage.taken.saturating_sub(rest) as usize, 0)?;
    last_of(&mut stage.peers)?.read_exact(&mut bytes)?;
    stage.taken = rest;
    Ok(())
}

fn receive_end(peers: &mut Vec<TcpStream>) -> io::Result<bool> {
    Ok(last_of(peers)?.read(&mut [0; 1])? == 0)
}

fn end_sending(peers: &mut Vec<TcpStream>) -> io::Result<()> {
    last_of(peers)?.shutdown(Shutdown::Write)
}

fn is_event(happening: &Happening, wanted: Event) -> bool {
    match (happening, wanted) {
        (Happening::Joined { conn, .. }, Event::Joined(number)) => conn.0 == number,
        (Happening::Piece { bytes, .. }, Event::Piece(wanted)) => bytes.as_slice() == wanted,
        (Happening::Gone { conn, .. }, Event::Gone(number)) => conn.0 == number,
        (Happening::Back { bytes, .. }, Event::Back(wanted)) => bytes.as_slice() == wanted,
        (Happening::Room { link }, Event::Room(number)) => link.0 == number,
        (Happening::Broken { link }, Event::Broken(number)) => link.0 == number,
        _ => false,
    }
}

fn brings(live: &mut LiveLoop<'_>, alloc: Global, wanted: Event) -> bool {
    match next(live, alloc) {
        Ok(happening) => is_event(&happening, wanted),
        Err(Memory) => false,
    }
}

/// Returns how many bytes were taken.
fn reply_much(live: &mut LiveLoop<'_>) -> u64 {
    let mut taken = 0u64;
    for _ in 0..PARTS {
        if live.reply(ConnId(1), &PART) != Replied::Taken {
            return taken;
        }
        taken = taken.saturating_add(PART.len() as u64);
    }
    taken
}

/// Returns how many bytes were taken; 0 if the link wasn't full then.
fn push_much(live: &mut LiveLoop<'_>) -> u64 {
    let mut taken = 0u64;
    for _ in 0..PARTS {
        match live.push(LinkId(1), &PART) {
            Pushed::Took(count) => taken = taken.saturating_add(count),
            Pushed::Again => return taken,
            Pushed::Broken | Pushed::Memory => return 0,
        }
    }
    0
}

fn dials(live: &mut LiveLoop<'_>, output: OutputId, number: u64) -> bool {
    live.dial(output, b"fwd_test_live.a/b") == Dialed::Link(LinkId(number))
}

fn has_file(rt: HostRuntime, path: &str, text: &str) -> io::Result<bool> {
    let has = fs::read_to_string(&rt, path)?.as_str() == text;
    fs::remove_file(&rt, path)?;
    Ok(has)
}

/// Does nothing for so many milliseconds.
fn spend(rt: &HostRuntime, millis: u64) -> io::Result<()> {
    let last = SystemTime::now(rt)?.checked_add(Duration::from_millis(millis));
    for _ in 0..100_000_000u64 {
        if last < Some(SystemTime::now(rt)?) {
            return Ok(());
        }
    }
    Ok(())
}

fn sleeps(live: &mut LiveLoop<'_>, alloc: Global) -> bool {
    let until = tick(live, alloc, 0).saturating_add(40);
    until <= tick(live, alloc, until)
}

fn time_is_first(live: &mut LiveLoop<'_>, rt: HostRuntime) -> bool {
    let first = tick(live, rt.alloc(), 0);
    spend(&rt, 20).is_ok() && first.saturating_add(20) <= tick(live, rt.alloc(), u64::MAX)
}

fn joins_late(live: &mut LiveLoop<'_>, rt: HostRuntime, number: u64) -> bool {
    let mut last = tick(live, rt.alloc(), 0);
    for _ in 0..10u32 {
        let _ = spend(&rt, 2);
        match live.wait(rt.alloc(), last.saturating_add(1), 0) {
            Ok(Happening::Tick { now }) => last = now,
            Ok(happening) => return is_event(&happening, Event::Joined(number)),
            Err(Memory) => return false,
        }
    }
    false
}

/// Returns whether the step goes as it says.
pub fn take(stage: &mut Stage<'_>, rt: HostRuntime, step: Step) -> bool {
    let alloc = rt.alloc();
    let live = &mut stage.live;
    match step {
        Step::Connect => connect(stage, rt).is_ok(),
        Step::Accept => accept(&stage.listener, &mut stage.peers).is_ok(),
        Step::Send(bytes) => send(&mut stage.peers, bytes).is_ok(),
        Step::Receive(bytes) => matches!(receive(&mut stage.peers, bytes), Ok(true)),
        Step::ReceiveTaken(rest) => receive_taken(stage, alloc, rest).is_ok(),
        Step::ReceiveEnd => matches!(receive_end(&mut stage.peers), Ok(true)),
        Step::EndSending => end_sending(&mut stage.peers).is_ok(),
        Step::Close => stage.peers.pop().is_some(),
        Step::Brings(event) => brings(live, alloc, event),
        Step::JoinedLate(number) => joins_late(live, rt, number),
        Step::Quiet => is_quiet(live, alloc, 1),
        Step::Reply(conn, bytes, wanted) => live.reply(ConnId(conn), bytes) == wanted,
        Step::ReplyMuch => {
            stage.taken = reply_much(live);
            stage.taken > 0
        }
        Step::DropConn(conn) => live.drop_conn(ConnId(conn)).is_ok(),
        Step::Dial(output, number) => dials(live, output, number),
        Step::Push(link, bytes, wanted) => live.push(LinkId(link), bytes) == wanted,
        Step::PushMuch => {
            stage.taken = push_much(live);
            stage.taken > 0
        }
        Step::CloseLink(link) => live.close(LinkId(link)).is_ok(),
        Step::File(path, text) => matches!(has_file(rt, path, text), Ok(true)),
        Step::Sleep => sleeps(live, alloc),
        Step::TimeFirst => time_is_first(live, rt),
        Step::Words => live.word() != live.word(),
    }
}
