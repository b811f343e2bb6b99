//! What the poll reports of inputs and their connections, and the events that come of it.

ghost use Rattle.std.specs.Prelude.{◌≡◌, true, IfOk, IfSome};
ghost use Rattle.fwd_outside.specs.Loop.{IsNotPaused, MayOccur};

use crate::mask::is_heard;
use crate::sources::Sources;
use fwd_base::limits::LONGEST_PIECE;
use fwd_live_sockets::{Conn, Feed, Source, Unread, error_of, read_from};
use fwd_log::{Level, Source as About, Topic};
use fwd_outside::{ConnId, Happening, InputId, Memory};
use mio::event::Event;
use mio::net::TcpStream;
use mio::unix::SourceFd;
use mio::{Interest, Registry};
use std::alloc::Global;
use std::fmt::Display;
use std::io::{self, ErrorKind};
use std::mem;
use std::os::fd::AsRawFd;

/// After so many milliseconds an accept is retried that found no descriptor left.
const RETRY_AFTER: u64 = 1_000;

impl<'a> Sources<'a> {
    pub fn mark_input(&mut self, input: InputId) -> bool {
        match self.inputs.get_mut(input.0 as usize) {
            Some(input) => !mem::replace(&mut input.queued, true),
            None => false,
        }
    }

    pub fn mark_conn(&mut self, number: ConnId, event: &Event) -> bool {
        let alloc = self.rt.alloc();
        let Some(conn) = self.conns.get_mut(&number.0) else {
            return false;
        };
        let mut fails = event.is_error();
        if event.is_writable() && conn.flush(alloc).is_err() {
            fails = true;
            self.misses = self.misses.saturating_add(1);
        }
        if conn.over {
            if fails || !conn.has_unsent_replies() {
                self.leave(number);
            }
            return false;
        }
        if fails || event.is_read_closed() {
            conn.ending = true;
        }
        if event.is_readable() || conn.ending {
            !mem::replace(&mut conn.queued, true)
        } else {
            false
        }
    }

    /// Writes a line on an input's peers.
    pub fn log_peer(&self, level: Level, input: InputId, text: &impl Display) {
        self.journal
            .write(level, About::Input(input), Topic::Peer, text);
    }

    pub fn look_at_input(
        &mut self,
        alloc: Global,
        registry: &Registry,
        input: InputId,
        paused: u64,
    ) -> Result<Option<Happening>, Memory>
        ensures { IfOk result (λ found. IfSome found (MayOccur true paused)) }
    {
        if self.is_holding || !is_heard(paused, input) {
            self.held_back.push_back(Source::Input(input))?;
            return Ok(None);
        }
        let is_full = self.budget.conns(self.held_files) <= self.conns.len();
        let Some(there) = self.inputs.get(input.0 as usize) else {
            return Ok(None);
        };
        match &there.feed {
            Feed::Listening(_) if is_full => {
                self.refused.push_back(Source::Input(input))?;
                let text = "has as many peers as there are descriptors for; others wait";
                self.log_peer(Level::Warn, input, &text);
                Ok(None)
            }
            Feed::Listening(listener) => match listener.accept() {
                Ok((stream, _)) => {
                    self.ready.push_back(Source::Input(input))?;
                    let conn = self.join(alloc, registry, input, stream)?;
                    Ok(conn.map(|conn| Happening::Joined { input, conn }))
                }
                Err(error) => {
                    self.log_unaccepted(input, &error);
                    self.accept_later(input, error.kind())?;
                    Ok(None)
                }
            },
            Feed::Stdin { watched } => {
                let watched = *watched;
                self.look_at_stdin(alloc, registry, input, watched, paused)
            }
            Feed::Quiet => Ok(None),
        }
    }

    fn log_unaccepted(&self, input: InputId, error: &io::Error) {
        if error.kind() != ErrorKind::WouldBlock {
            let text = format_args!("no peer can be accepted: {error}");
            self.log_peer(Level::Warn, input, &text);
        }
    }

    /// Notes that no peer was accepted, for this reason.
    fn accept_later(&mut self, input: InputId, reason: ErrorKind) -> Result<(), Memory> {
        if reason == ErrorKind::WouldBlock {
            if let Some(input) = self.inputs.get_mut(input.0 as usize) {
                input.queued = false;
            }
            return Ok(());
        }
        self.miss();
        if reason == ErrorKind::Interrupted || reason == ErrorKind::ConnectionAborted {
            self.ready.push_back(Source::Input(input))?;
            return Ok(());
        }
        self.retry_at = self.now.saturating_add(RETRY_AFTER);
        self.refused.push_back(Source::Input(input))?;
        Ok(())
    }

    /// Adds a new connection. Returns `None` if the poll can't register it.
    fn join(
        &mut self,
        alloc: Global,
        registry: &Registry,
        input: InputId,
        mut stream: TcpStream,
    ) -> Result<Option<ConnId>, Memory> {
        let Some(number) = self.newest.checked_add(1) else {
            self.miss();
            return Ok(None);
        };
        let both = Interest::READABLE | Interest::WRITABLE;
        let token = Source::Conn(ConnId(number)).token();
        if registry.register(&mut stream, token, both).is_err() {
            self.miss();
            return Ok(None);
        }
        self.newest = number;
        self.conns.insert(number, Conn::new(alloc, input, stream))?;
        Ok(Some(ConnId(number)))
    }

    /// Removes a connection. A peer that waits for a descriptor may be accepted now.
    pub fn leave(&mut self, conn: ConnId) {
        self.conns.remove(&conn.0);
        if !self.refused.is_empty() {
            self.retry_at = self.now;
        }
    }

    fn look_at_stdin(
        &mut self,
        alloc: Global,
        registry: &Registry,
        input: InputId,
        watched: bool,
        paused: u64,
    ) -> Result<Option<Happening>, Memory>
        requires { IsNotPaused paused input }
        ensures { IfOk result (λ found. IfSome found (MayOccur true paused)) }
    {
        let mut stdin = self.rt.stdin();
        match read_from(alloc, &mut stdin, &mut self.part) {
            Ok(bytes) => {
                self.rearm_stdin(registry, input, watched)?;
                let conn = ConnId(0);
                Ok(Some(Happening::Piece { input, conn, bytes }))
            }
            Err(reason) => self.unread_stdin(registry, input, watched, reason, paused),
        }
    }

    /// Handles a read of standard input that gave no bytes, for this reason.
    fn unread_stdin(
        &mut self,
        registry: &Registry,
        input: InputId,
        watched: bool,
        reason: Unread,
        paused: u64,
    ) -> Result<Option<Happening>, Memory>
        requires { IsNotPaused paused input }
        ensures { IfOk result (λ found. IfSome found (MayOccur true paused)) }
    {
        match reason {
            Unread::Nothing | Unread::Interrupted => {
                self.rearm_stdin(registry, input, watched)?;
                Ok(None)
            }
            Unread::Over => {
                self.end_stdin(registry, input, watched);
                Ok(Some(Happening::InputEnd { input }))
            }
            Unread::Failed(errno) => {
                self.miss();
                let error = error_of(errno);
                let text = format_args!("standard input can't be read: {error}");
                self.log_peer(Level::Error, input, &text);
                self.end_stdin(registry, input, watched);
                Ok(Some(Happening::InputEnd { input }))
            }
            Unread::Memory => Err(Memory),
        }
    }

    /// Registers standard input again, for when it is readable. It may block, so only one read after each
    /// poll event is safe.
    fn rearm_stdin(
        &mut self,
        registry: &Registry,
        input: InputId,
        watched: bool,
    ) -> Result<(), Memory> {
        if watched {
            let token = Source::Input(input).token();
            let fd = self.rt.stdin().as_raw_fd();
            let asked = registry.reregister(&mut SourceFd(&fd), token, Interest::READABLE);
            if asked.is_err() {
                self.miss();
            }
            if let Some(input) = self.inputs.get_mut(input.0 as usize) {
                input.queued = false;
            }
        } else {
            self.ready.push_back(Source::Input(input))?;
        }
        Ok(())
    }

    /// Notes the end of standard input.
    fn end_stdin(&mut self, registry: &Registry, input: InputId, watched: bool) {
        if watched {
            let fd = self.rt.stdin().as_raw_fd();
            if registry.deregister(&mut SourceFd(&fd)).is_err() {
                self.miss();
            }
        }
        if let Some(input) = self.inputs.get_mut(input.0 as usize) {
            input.feed = Feed::Quiet;
        }
    }

    pub fn look_at_conn(
        &mut self,
        alloc: Global,
        id: ConnId,
        paused: u64,
    ) -> Result<Option<Happening>, Memory>
        ensures { IfOk result (λ found. IfSome found (MayOccur true paused)) }
    {
        let Some(conn) = self.conns.get_mut(&id.0) else {
            return Ok(None);
        };
        let input = conn.input;
        if self.is_holding || !is_heard(paused, input) {
            self.held_back.push_back(Source::Conn(id))?;
            return Ok(None);
        }
        let mut stream = &conn.stream;
        match read_from(alloc, &mut stream, &mut self.part) {
            Ok(bytes) => {
                conn.queued = conn.ending || bytes.len() == LONGEST_PIECE;
                if conn.queued {
                    self.ready.push_back(Source::Conn(id))?;
                }
                let conn = id;
                Ok(Some(Happening::Piece { input, conn, bytes }))
            }
            Err(reason) => self.unread_conn(id, input, reason, paused),
        }
    }

    /// Handles a read of a connection that gave no bytes, for this reason.
    fn unread_conn(
        &mut self,
        id: ConnId,
        input: InputId,
        reason: Unread,
        paused: u64,
    ) -> Result<Option<Happening>, Memory>
        requires { IsNotPaused paused input }
        ensures { IfOk result (λ found. IfSome found (MayOccur true paused)) }
    {
        match reason {
            Unread::Nothing => {
                if let Some(conn) = self.conns.get_mut(&id.0) {
                    conn.queued = false;
                }
                Ok(None)
            }
            Unread::Interrupted => {
                self.ready.push_back(Source::Conn(id))?;
                Ok(None)
            }
            Unread::Over => {
                self.end_conn(id);
                Ok(Some(Happening::Gone { input, conn: id }))
            }
            Unread::Failed(errno) => {
                self.miss();
                let error = error_of(errno);
                let text = format_args!("a peer is lost: {error}");
                self.log_peer(Level::Warn, input, &text);
                self.leave(id);
                Ok(Some(Happening::Gone { input, conn: id }))
            }
            Unread::Memory => Err(Memory),
        }
    }

    /// Drops a connection whose unfinished message is the largest of too many bytes, and returns that its peer
    /// is gone. Returns `None` if its end was returned before, or if its input is paused or held back.
    pub fn drop_unfinished(&mut self, id: ConnId, paused: u64) -> Option<Happening>
        ensures { IfSome result (MayOccur true paused) }
    {
        let input = match self.conns.get(&id.0) {
            Some(conn) if !conn.over => conn.input,
            Some(_) | None => return None,
        };
        if self.is_holding || !is_heard(paused, input) {
            return None;
        }
        let text =
            "a peer is dropped: all unfinished messages together exceed forward.mem_limit, and its own is the largest";
        self.log_peer(Level::Warn, input, &text);
        self.leave(id);
        Some(Happening::Gone { input, conn: id })
    }

    /// Notes that a peer sends no more. It may still read, so the connection stays until it has taken the
    /// replies.
    fn end_conn(&mut self, id: ConnId) {
        let Some(conn) = self.conns.get_mut(&id.0) else {
            return;
        };
        conn.over = true;
        if !conn.has_unsent_replies() {
            self.leave(id);
        }
    }
}
