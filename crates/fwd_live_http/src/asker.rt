//! A connection that asks for a page.

use crate::reply::{Plain, with_page, without_page};
use crate::request::{Page, Request, read_request};
use fwd_base::limits::LONGEST_HEAD;
use fwd_base::{Bytes, Memory};
use fwd_log::Pages;
use mio::net::TcpStream;
use std::alloc::Global;
use std::io::{self, ErrorKind, Read, Write};

/// A connection is closed after so many milliseconds.
pub const PATIENCE: u64 = 10_000;

/// The most bytes of one read.
const PART: usize = 1_024;

/// How far a connection has come.
#[derive(Drop)]
enum Stage {
    /// Its request is read.
    Reading,
    /// It waits for a page.
    Waiting(Page),
    /// The rest of its reply, from an offset on, is to be written.
    Answering { reply: Bytes, at: usize },
}

/// What a look at a connection found.
#[derive(Clone, Copy, Debug, PartialEq, Eq)]
pub enum Look {
    /// There may be more to do at once.
    More,
    /// The next event of the poll has to come first.
    Later,
    /// It asks for a page.
    Asks,
    /// It is over.
    Over,
}

/// Returns what the bytes so far ask for.
fn request_in(head: &Bytes) -> Request {
    read_request(head.as_slice())
}

/// Reads once.
fn read_some(stream: &TcpStream, part: &mut [u8]) -> io::Result<usize> {
    let mut from = stream;
    from.read(part)
}

/// Writes once.
fn write_some(stream: &TcpStream, bytes: &[u8]) -> io::Result<usize> {
    let mut to = stream;
    to.write(bytes)
}

/// A connection that asks for a page.
#[derive(Drop)]
pub struct Asker {
    stream: TcpStream,
    /// The monotonic time in milliseconds at which it was accepted.
    since: u64,
    head: Bytes,
    stage: Stage,
    /// Whether it is in the queue of sources.
    pub queued: bool,
}

impl Asker {
    pub fn new(alloc: Global, stream: TcpStream, now: u64) -> Asker {
        Asker {
            stream,
            since: now,
            head: Bytes::new(alloc),
            stage: Stage::Reading,
            queued: true,
        }
    }

    /// Returns the time at which it is closed.
    pub fn ends_at(&self) -> u64 {
        self.since.saturating_add(PATIENCE)
    }

    fn answer(&mut self, reply: Bytes) -> Look {
        self.stage = Stage::Answering { reply, at: 0 };
        Look::More
    }

    /// Takes what the request asks for.
    fn take(&mut self, alloc: Global, request: Request) -> Result<Look, Memory> {
        let status = match request {
            Request::Incomplete => return Ok(Look::More),
            Request::Page(page) => {
                self.stage = Stage::Waiting(page);
                return Ok(Look::Asks);
            }
            Request::Root => Plain::Root,
            Request::Unknown => Plain::NotFound,
            Request::OtherMethod => Plain::OtherMethod,
            Request::Bad => Plain::BadRequest,
        };
        Ok(self.answer(without_page(alloc, status)?))
    }

    fn read(&mut self, alloc: Global) -> Result<Look, Memory> {
        let mut part = [0; PART];
        let room = PART.min(LONGEST_HEAD.saturating_sub(self.head.len()));
        match read_some(&self.stream, &mut part[..room]) {
            Ok(0) => Ok(Look::Over),
            Ok(count) => {
                self.head.extend_from_slice(&part[..count.min(PART)])?;
                let request = request_in(&self.head);
                self.take(alloc, request)
            }
            Err(error) if error.kind() == ErrorKind::WouldBlock => Ok(Look::Later),
            Err(error) if error.kind() == ErrorKind::Interrupted => Ok(Look::More),
            Err(_) => Ok(Look::Over),
        }
    }

    fn write(&mut self) -> Look {
        let Stage::Answering { reply, at } = &mut self.stage else {
            return Look::Later;
        };
        let rest = reply.as_slice().get(*at..).unwrap_or(&[]);
        if rest.is_empty() {
            return Look::Over;
        }
        match write_some(&self.stream, rest) {
            Ok(count) => {
                *at = at.saturating_add(count);
                Look::More
            }
            Err(error) if error.kind() == ErrorKind::WouldBlock => Look::Later,
            Err(error) if error.kind() == ErrorKind::Interrupted => Look::More,
            Err(_) => Look::Over,
        }
    }

    /// Reads or writes once.
    pub fn look(&mut self, alloc: Global) -> Result<Look, Memory> {
        match self.stage {
            Stage::Reading => self.read(alloc),
            Stage::Waiting(_) => Ok(Look::Later),
            Stage::Answering { .. } => Ok(self.write()),
        }
    }

    /// Takes pages, if it waits for one. Returns whether it does.
    pub fn take_pages(&mut self, alloc: Global, pages: &Pages) -> Result<bool, Memory> {
        let page = match self.stage {
            Stage::Waiting(page) => page,
            Stage::Reading | Stage::Answering { .. } => return Ok(false),
        };
        let reply = with_page(alloc, page, pages)?;
        self.answer(reply);
        Ok(true)
    }
}
