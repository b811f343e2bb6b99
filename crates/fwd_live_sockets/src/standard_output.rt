//! Standard output, which takes the payload of one link at a time and isn't written to while it is full.

ghost use Rattle.std.specs.Prelude.{◌≡◌};
ghost use Rattle.fwd_live_sockets.specs.Handed.{TakesAtMost};
ghost use Rattle.fwd_live_sockets.specs.declared.link.Handed.TheVariants.{Full};

use crate::link::{Handed, taken_of};
use crate::source::Source;
use fwd_outside::{LinkId, OutputId};
use mio::unix::SourceFd;
use mio::{Events, Interest, Poll, Registry, Token};
use std::io::{self, ErrorKind, Write};
use std::mem;
use std::os::fd::AsRawFd;
use std::time::Duration;

/// How many bytes a pipe takes without blocking if the poll reports it as writable: `PIPE_BUF` of Linux.
const SURE_ROOM: usize = 4_096;

/// For how many milliseconds of a turn of the loop pushes wait for a reader, so that one who reads all the
/// time sets the pace.
const MOST_WAIT: u64 = 10;

/// The token of standard output in its own poll.
const TOKEN: Token = Token(0);

/// Standard output. If it is a pipe, a socket or a terminal, it is asked for room before each write: a write
/// to a full one blocks the program, and a change to non-blocking writes would reach other programs that
/// have it open. A terminal may still block, as it may have less room. A file can't be asked, and always
/// takes bytes.
#[derive(Drop)]
pub struct StandardOutput {
    rt: HostRuntime,
    /// The poll that is asked for room.
    poll: Poll,
    events: Events,
    is_watched: bool,
    /// The link that has begun to write. Others wait until it is closed, as lines would mix.
    holder: Option<LinkId>,
    /// Whether a holder was closed since the last call of `take_freed`.
    is_freed: bool,
    /// Until when pushes wait for a reader, by the monotonic clock.
    wait_until: u64,
}

impl StandardOutput {
    pub fn new(rt: HostRuntime) -> io::Result<StandardOutput> {
        let poll = Poll::new(&rt)?;
        let fd = rt.stdout().as_raw_fd();
        let asked = poll
            .registry()
            .register(&mut SourceFd(&fd), TOKEN, Interest::WRITABLE);
        Ok(StandardOutput {
            rt,
            poll,
            events: Events::with_capacity(rt.alloc(), 1)?,
            is_watched: asked.is_ok(),
            holder: None,
            is_freed: false,
            wait_until: 0,
        })
    }

    /// Notes a turn of the loop that begins at this monotonic time.
    pub fn begin_turn(&mut self, now: u64) {
        self.wait_until = now.saturating_add(MOST_WAIT);
    }

    /// Notes that a link is closed.
    pub fn release(&mut self, link: LinkId) {
        if self.holder == Some(link) {
            self.holder = None;
            self.is_freed = true;
        }
    }

    /// Returns whether links that wait for another one may write, once after each close.
    pub fn take_freed(&mut self) -> bool {
        mem::replace(&mut self.is_freed, false)
    }

    /// Returns whether a write of `SURE_ROOM` bytes doesn't block, or fails. Waits at most so many
    /// milliseconds.
    fn has_room(&mut self, most: u64) -> bool {
        let fd = self.rt.stdout().as_raw_fd();
        let registry = self.poll.registry();
        // The poll reports changes alone, and once more what it is asked for again.
        let asked = registry.reregister(&mut SourceFd(&fd), TOKEN, Interest::WRITABLE);
        let timeout = Duration::from_millis(most);
        asked.is_err()
            || self.poll.poll(&mut self.events, Some(timeout)).is_err()
            || !self.events.is_empty()
    }

    /// Writes as many bytes as don't block, at this monotonic time.
    fn write(&mut self, bytes: &[u8], now: u64, failure: &mut Option<io::Error>) -> Handed
        ensures { TakesAtMost bytes.now result }
    {
        if !self.is_watched {
            return taken_of(self.rt.stdout().write(bytes), bytes, failure);
        }
        if !self.has_room(self.wait_until.saturating_sub(now)) {
            return Handed::Full;
        }
        let sure = &bytes[..bytes.len().min(SURE_ROOM)];
        match self.rt.stdout().write(sure) {
            Err(error) if error.kind() == ErrorKind::WouldBlock => Handed::Full,
            Err(error) if error.kind() == ErrorKind::Interrupted => Handed::Full,
            written => taken_of(written, bytes, failure),
        }
    }

    /// Has the poll of the loop report room to a link.
    fn watch(&self, registry: &Registry, link: LinkId) -> io::Result<()> {
        let fd = self.rt.stdout().as_raw_fd();
        let token = Source::Link(link).token();
        match registry.reregister(&mut SourceFd(&fd), token, Interest::WRITABLE) {
            Ok(()) => Ok(()),
            Err(_) => registry.register(&mut SourceFd(&fd), token, Interest::WRITABLE),
        }
    }
}

/// A link to standard output.
#[derive(Drop)]
pub struct StdoutLink {
    pub output: OutputId,
    number: LinkId,
    /// Whether a push found it full, so that room has to be reported.
    wants_room: bool,
    /// Whether it is in the queue of sources to look at.
    queued: bool,
    /// Whether it ever wanted room.
    has_waited: bool,
}

impl StdoutLink {
    pub fn new(output: OutputId, number: LinkId) -> StdoutLink {
        StdoutLink {
            output,
            number,
            wants_room: false,
            queued: false,
            has_waited: false,
        }
    }

    /// Returns whether a push ever found it full.
    pub fn has_waited(&self) -> bool {
        self.has_waited
    }

    /// Marks it as one to be looked at. Returns true if it waits for room and isn't in the queue yet.
    pub fn mark(&mut self) -> bool {
        self.wants_room && !mem::replace(&mut self.queued, true)
    }

    /// Returns whether room has to be reported, once for each push that found the link full.
    pub fn take_room_event(&mut self) -> bool {
        self.queued = false;
        mem::replace(&mut self.wants_room, false)
    }

    /// Notes that a push found it full.
    fn wait(&mut self) -> Handed
        ensures { result ≡ Full }
    {
        self.wants_room = true;
        self.has_waited = true;
        Handed::Full
    }

    /// Pushes as many of the bytes as standard output takes for this link. If it is full, the poll reports
    /// room; if another link has it, `take_freed` does.
    pub fn push(
        &mut self,
        to: &mut StandardOutput,
        registry: &Registry,
        bytes: &[u8],
        now: u64,
        failure: &mut Option<io::Error>,
    ) -> Handed
        ensures { TakesAtMost bytes.now result }
    {
        let holder = *to.holder.get_or_insert(self.number);
        if holder != self.number {
            return self.wait();
        }
        let handed = to.write(bytes, now, failure);
        if handed != Handed::Full {
            return handed;
        }
        match to.watch(registry, self.number) {
            Ok(()) => self.wait(),
            Err(error) => {
                *failure = Some(error);
                Handed::Broken
            }
        }
    }
}
