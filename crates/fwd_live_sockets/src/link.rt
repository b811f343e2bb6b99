//! Links of outputs: peers, standard output and files.

ghost use Rattle.fwd_live_sockets.specs.Handed.{TakesAtMost};

use crate::conn::write_some;
use crate::patience::Patience;
use crate::piece::{Unread, read_from};
use crate::standard_output::{StandardOutput, StdoutLink};
use fwd_log::Journal;
use fwd_outside::{Bytes, OutputId};
use mio::Registry;
use mio::net::TcpStream;
use std::alloc::Global;
use std::fs::File;
use std::io::{self, ErrorKind, Write};
use std::mem;

/// The most bytes that a link may send back before it has taken its payload. A reply that counts is much
/// shorter. If the loop stopped reading instead, it wouldn't see the end of the peer.
const MOST_RECEIVED: u64 = 65_536;

/// The most bytes of a refusing reply that are kept for the log.
const MOST_KEPT: usize = 200;

/// Returns whether bytes begin an HTTP reply whose status isn't one of success.
fn is_refusal(bytes: &[u8]) -> bool {
    bytes.starts_with(b"HTTP/1.") && bytes.get(9).copied() != Some(b'2')
}

/// The answer of a link to a push.
#[derive(Clone, Copy, Debug, PartialEq, Eq)]
pub enum Handed {
    /// It took so many of the first bytes.
    Took(u64),
    /// It is full, and will report room.
    Full,
    Broken,
}

/// The state of a connection to a peer.
#[derive(Clone, Copy, Debug, PartialEq, Eq)]
pub enum PeerState {
    Connecting,
    Open,
    /// No more events come from it.
    Over,
}

/// A connection to an output's peer. A peer that ends its side breaks it, though it might still read: a peer
/// that is gone shows nothing else before bytes are lost.
#[derive(Drop)]
pub struct Peer {
    pub output: OutputId,
    pub stream: TcpStream,
    pub state: PeerState,
    /// Whether a push found it full, so that room has to be reported.
    pub wants_room: bool,
    pub readable: bool,
    pub writable: bool,
    /// Whether it is in the queue of sources to read.
    pub queued: bool,
    /// The number of bytes that came back since the dial.
    bytes_received: u64,
    /// The monotonic time of its dial, or of its last progress.
    since: u64,
    /// The monotonic time of its dial, or at which it was established or took bytes last.
    taken_at: u64,
    /// The beginning of an HTTP reply whose status isn't one of success.
    refusal: Bytes,
}

/// The endpoint of a link.
#[derive(Drop)]
pub enum Link {
    Stdout(StdoutLink),
    Appended(OutputId, File),
    Connected(Peer),
}

/// Returns the answer of a link to one write. An error that broke it is kept in `failure`.
pub fn taken_of(written: io::Result<usize>, bytes: &[u8], failure: &mut Option<io::Error>) -> Handed
    ensures { TakesAtMost bytes.now result }
{
    match written {
        Ok(taken) => Handed::Took(taken.min(bytes.len()) as u64),
        Err(error) if error.kind() == ErrorKind::WouldBlock => Handed::Took(0),
        Err(error) if error.kind() == ErrorKind::Interrupted => Handed::Took(0),
        Err(error) => {
            *failure = Some(error);
            Handed::Broken
        }
    }
}

impl Peer {
    /// Returns a connection that was dialled at this time.
    pub fn new(alloc: Global, output: OutputId, stream: TcpStream, now: u64) -> Peer {
        Peer {
            output,
            stream,
            state: PeerState::Connecting,
            wants_room: false,
            readable: false,
            writable: false,
            queued: false,
            bytes_received: 0,
            since: now,
            taken_at: now,
            refusal: Bytes::new(alloc),
        }
    }

    /// Returns whether room has to be reported, once for each push that found the link full.
    pub fn take_room_event(&mut self) -> bool {
        let is_due = self.wants_room && self.writable;
        if is_due {
            self.wants_room = false;
        }
        is_due
    }

    /// Marks the connection as established.
    pub fn open(&mut self, now: u64) {
        self.state = PeerState::Open;
        self.since = now;
        self.taken_at = now;
    }

    /// Returns the time at which its silence, or its answer, has taken too long.
    pub fn silent_at(&self, patience: Patience) -> u64 {
        match self.state {
            PeerState::Connecting => self.since.saturating_add(patience.dial),
            PeerState::Open => {
                let answered_by = self.taken_at.saturating_add(patience.answer());
                answered_by.min(self.since.saturating_add(patience.silence))
            }
            PeerState::Over => u64::MAX,
        }
    }

    /// Returns why it is broken at this time, if it is for its silence or its answer.
    pub fn silence(&self, patience: Patience, now: u64) -> &'static str {
        match self.state {
            PeerState::Connecting => "no answer to the connection",
            PeerState::Open | PeerState::Over => {
                if now < self.since.saturating_add(patience.silence) {
                    "the peer's answer took too long"
                } else {
                    "the peer was silent for too long"
                }
            }
        }
    }

    /// Marks it as due to be looked at, whatever the poll reports. Returns true if it isn't in the queue
    /// yet.
    pub fn mark_due(&mut self) -> bool {
        self.readable = true;
        match self.state {
            PeerState::Connecting => self.writable = true,
            PeerState::Open | PeerState::Over => {}
        }
        !mem::replace(&mut self.queued, true)
    }

    /// Reads once what came back.
    pub fn read(&self, alloc: Global, part: &mut [u8]) -> Result<Bytes, Unread> {
        let mut stream = &self.stream;
        read_from(alloc, &mut stream, part)
    }

    /// Counts bytes that came back, and notes why they refuse, if they do. Returns false if they are too
    /// many, which happens only while the link waits for room.
    pub fn note_received(&mut self, journal: &Journal, bytes: &[u8], now: u64) -> bool {
        self.since = now;
        self.bytes_received = self.bytes_received.saturating_add(bytes.len() as u64);
        self.note_refusal(journal, bytes);
        !self.wants_room || self.bytes_received <= MOST_RECEIVED
    }

    /// Returns why the connection isn't established; `None` if it is.
    pub fn dial_error(&self) -> Option<io::Error> {
        match self.stream.take_error() {
            Ok(None) => self.stream.peer_addr().err(),
            Ok(Some(error)) => Some(error),
            Err(error) => Some(error),
        }
    }

    /// Keeps the beginning of an HTTP reply whose status isn't one of success, as the refusal of a delivery
    /// of the output.
    fn note_refusal(&mut self, journal: &Journal, bytes: &[u8]) {
        let is_first = self.bytes_received == bytes.len() as u64;
        if !(is_first && is_refusal(bytes)) && self.refusal.is_empty() {
            return;
        }
        let room = MOST_KEPT
            .saturating_sub(self.refusal.len())
            .min(bytes.len());
        if room != 0 && self.refusal.extend_from_slice(&bytes[..room]).is_ok() {
            journal.note_refusal(self.output, self.refusal.as_slice());
        }
    }

    /// Returns whether the peer refused in a reply.
    pub fn has_refusal(&self) -> bool {
        !self.refusal.is_empty()
    }

    fn push(&mut self, bytes: &[u8], now: u64, failure: &mut Option<io::Error>) -> Handed
        ensures { TakesAtMost bytes.now result }
    {
        match self.state {
            PeerState::Connecting => {
                self.wants_room = true;
                Handed::Full
            }
            PeerState::Over => Handed::Broken,
            PeerState::Open => match write_some(&self.stream, bytes) {
                Ok(0) if !bytes.is_empty() => {
                    self.wants_room = true;
                    self.writable = false;
                    Handed::Full
                }
                Ok(taken) => {
                    self.since = now;
                    self.taken_at = now;
                    Handed::Took(taken.min(bytes.len()) as u64)
                }
                Err(error) => {
                    *failure = Some(error);
                    Handed::Broken
                }
            },
        }
    }
}

impl Link {
    /// Pushes as many of the bytes as the link takes, at this monotonic time. An error that broke it is kept
    /// in `failure`. A full link to standard output has the poll report room.
    pub fn push(
        &mut self,
        stdout: &mut StandardOutput,
        registry: &Registry,
        bytes: &[u8],
        now: u64,
        failure: &mut Option<io::Error>,
    ) -> Handed
        ensures { TakesAtMost bytes.now result }
    {
        match self {
            Link::Stdout(link) => link.push(stdout, registry, bytes, now, failure),
            Link::Appended(_, file) => taken_of(file.write(bytes), bytes, failure),
            Link::Connected(peer) => peer.push(bytes, now, failure),
        }
    }

    /// Returns whether a delivery over the link took several turns, and the peer hasn't ended it. A file has
    /// none such.
    pub fn has_waited(&self) -> bool {
        match self {
            Link::Stdout(link) => link.has_waited(),
            Link::Appended(_, _) => false,
            Link::Connected(peer) => peer.state == PeerState::Open,
        }
    }

    /// Returns the output of the link.
    pub fn output(&self) -> OutputId {
        match self {
            Link::Stdout(link) => link.output,
            Link::Appended(output, _) => *output,
            Link::Connected(peer) => peer.output,
        }
    }
}
