//! What the poll reports of links, and the events that come of it.

ghost use Rattle.std.specs.Prelude.{◌≡◌, ℕ, true, IfOk, IfSome};
ghost use Rattle.fwd_outside.specs.Loop.{MayOccur};

use crate::sources::Sources;
use fwd_live_sockets::{Link, PeerState, Source, Unread, error_of};
use fwd_log::{Level, Source as About, Topic};
use fwd_outside::{Happening, LinkId, Memory, OutputId};
use mio::event::Event;
use std::alloc::Global;
use std::fmt::Display;
use std::mem;

/// The least time in milliseconds between two scans for silent links.
const SCAN_INTERVAL: u64 = 1_000;

impl<'a> Sources<'a> {
    /// Returns how many connections to an output's peer were never established.
    pub fn failed_dials(&self, output: OutputId) -> u64 {
        match self.failed_dials.get(&output.0) {
            Some(count) => *count,
            None => 0,
        }
    }

    /// Counts a connection to an output's peer that wasn't established.
    pub fn note_failed_dial(&mut self, output: OutputId) -> Result<(), Memory> {
        let count = self.failed_dials(output).wrapping_add(1);
        self.failed_dials.insert(output.0, count)?;
        Ok(())
    }

    /// Notes a dial at this monotonic time.
    pub fn note_dial(&mut self, uptime: u64) {
        let dialled_by = uptime.saturating_add(self.patience.dial);
        self.scan_at = self.scan_at.min(dialled_by);
    }

    pub fn scan_links(&mut self) -> Result<(), Memory> {
        let soonest = self.uptime.saturating_add(SCAN_INTERVAL);
        self.scan_at = u64::MAX;
        for (number, link) in self.links.iter_mut() {
            match link {
                Link::Connected(peer) => {
                    let silent_at = peer.silent_at(self.patience);
                    self.scan_at = self.scan_at.min(silent_at.max(soonest));
                    if silent_at <= self.uptime && peer.mark_due() {
                        self.ready.push_back(Source::Link(LinkId(*number)))?;
                    }
                }
                Link::Stdout(_) | Link::Appended(_, _) => {}
            }
        }
        Ok(())
    }

    pub fn mark_link(&mut self, number: LinkId, event: &Event) -> bool {
        match self.links.get_mut(&number.0) {
            Some(Link::Connected(peer)) => {
                let fails = event.is_error();
                if fails || event.is_readable() || event.is_read_closed() {
                    peer.readable = true;
                }
                if fails || event.is_writable() || event.is_write_closed() {
                    peer.writable = true;
                }
                !mem::replace(&mut peer.queued, true)
            }
            Some(Link::Stdout(link)) => link.mark(),
            Some(Link::Appended(_, _)) => false,
            None => false,
        }
    }

    /// Queues the links to standard output that wait for room.
    pub fn queue_stdout_links(&mut self) -> Result<(), Memory> {
        for (number, link) in self.links.iter_mut() {
            match link {
                Link::Stdout(to) => {
                    if to.mark() {
                        self.ready.push_back(Source::Link(LinkId(*number)))?;
                    }
                }
                Link::Appended(_, _) | Link::Connected(_) => {}
            }
        }
        Ok(())
    }

    /// Keeps why a link of an output broke or never opened, for the line on its retries.
    fn note_broken(&self, output: OutputId, reason: &impl Display) {
        if let Ok(text) = format!(in self.rt.alloc(); "{reason}") {
            self.journal.note_reason(output, text.as_bytes());
        }
        let about = About::Output(output);
        self.journal.write(Level::Debug, about, Topic::Link, reason);
    }

    /// Notes that a link is over because of an error, and keeps the reason.
    fn fail_link(&mut self, link: LinkId, reason: &impl Display) {
        if let Some(Link::Connected(peer)) = self.links.get_mut(&link.0) {
            peer.state = PeerState::Over;
            let output = peer.output;
            self.note_broken(output, reason);
        }
        self.miss();
    }

    /// Looks at a link that may have something: room, bytes that came back, or its end.
    pub fn look_at_link(&mut self, alloc: Global, link: LinkId) -> Result<Option<Happening>, Memory>
        ensures { (paused : ℕ) → IfOk result (λ found. IfSome found (MayOccur true paused)) }
    {
        match self.links.get_mut(&link.0) {
            Some(Link::Connected(_)) => self.look_at_peer(alloc, link),
            Some(Link::Stdout(to)) => {
                if to.take_room_event() {
                    Ok(Some(Happening::Room { link }))
                } else {
                    Ok(None)
                }
            }
            Some(Link::Appended(_, _)) | None => Ok(None),
        }
    }

    fn look_at_peer(&mut self, alloc: Global, link: LinkId) -> Result<Option<Happening>, Memory>
        ensures { (paused : ℕ) → IfOk result (λ found. IfSome found (MayOccur true paused)) }
    {
        let Some(Link::Connected(peer)) = self.links.get_mut(&link.0) else {
            return Ok(None);
        };
        peer.queued = false;
        match peer.state {
            PeerState::Over => Ok(None),
            PeerState::Connecting => {
                if !peer.writable {
                    return Ok(None);
                }
                if let Some(error) = peer.dial_error() {
                    let output = peer.output;
                    self.fail_link(link, &error);
                    self.note_failed_dial(output)?;
                    return Ok(Some(Happening::Broken { link }));
                }
                peer.open(self.uptime);
                self.look_at_open(alloc, link)
            }
            PeerState::Open => self.look_at_open(alloc, link),
        }
    }

    /// Reads what came back, and reports room if there is nothing to read. So a peer that closed its side
    /// before a push breaks its link instead of getting the bytes.
    fn look_at_open(&mut self, alloc: Global, link: LinkId) -> Result<Option<Happening>, Memory>
        ensures { (paused : ℕ) → IfOk result (λ found. IfSome found (MayOccur true paused)) }
    {
        let Some(Link::Connected(peer)) = self.links.get_mut(&link.0) else {
            return Ok(None);
        };
        if !peer.readable {
            return self.unread_link(link, Unread::Nothing);
        }
        match peer.read(alloc, &mut self.part) {
            Ok(bytes) => {
                if !peer.note_received(self.journal, bytes.as_slice(), self.uptime) {
                    self.fail_link(link, &"the peer sent too much before it took its payload");
                    return Ok(Some(Happening::Broken { link }));
                }
                peer.queued = true;
                self.ready.push_back(Source::Link(link))?;
                Ok(Some(Happening::Back { link, bytes }))
            }
            Err(reason) => self.unread_link(link, reason),
        }
    }

    /// Handles a read of a link that gave no bytes, for this reason.
    fn unread_link(&mut self, link: LinkId, reason: Unread) -> Result<Option<Happening>, Memory>
        ensures { (paused : ℕ) → IfOk result (λ found. IfSome found (MayOccur true paused)) }
    {
        let Some(Link::Connected(peer)) = self.links.get_mut(&link.0) else {
            return Ok(None);
        };
        match reason {
            Unread::Nothing => {
                peer.readable = false;
                if peer.take_room_event() {
                    return Ok(Some(Happening::Room { link }));
                }
                if self.uptime < peer.silent_at(self.patience) {
                    return Ok(None);
                }
                let why = peer.silence(self.patience, self.uptime);
                self.fail_link(link, &why);
                Ok(Some(Happening::Broken { link }))
            }
            Unread::Interrupted => {
                peer.queued = true;
                self.ready.push_back(Source::Link(link))?;
                Ok(None)
            }
            Unread::Over => {
                peer.state = PeerState::Over;
                let output = peer.output;
                if !peer.has_refusal() {
                    self.note_broken(output, &"the peer closed the connection");
                }
                Ok(Some(Happening::Broken { link }))
            }
            Unread::Failed(errno) => {
                self.fail_link(link, &error_of(errno));
                Ok(Some(Happening::Broken { link }))
            }
            Unread::Memory => Err(Memory),
        }
    }
}
