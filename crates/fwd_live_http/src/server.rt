//! The server: its listener and its connections.

use crate::asker::{Asker, Look};
use fwd_base::Memory;
use fwd_log::{Journal, Pages};
use mio::net::{TcpListener, TcpStream};
use mio::{Interest, Registry, Token};
use std::alloc::Global;
use std::io;
use std::net::SocketAddr;

/// The most connections that are open at once.
pub const MOST_ASKERS: usize = 8;

/// Returns the token of a number: one that no input, connection or link has.
pub fn token_of(number: u64) -> Token {
    Token(number.wrapping_mul(4).wrapping_add(3) as usize)
}

/// What has to be queued again.
#[derive(Clone, Copy, Debug, PartialEq, Eq)]
pub struct Again {
    pub listener: bool,
    pub asker: Option<u64>,
}

impl Again {
    fn nothing() -> Again {
        Again {
            listener: false,
            asker: None,
        }
    }
}

/// A server of pages. Number 0 is its listener, and the numbers from 1 on are its connections. It takes what
/// the poll reports of them, and returns which of them have to be looked at.
#[derive(Drop)]
pub struct Server<'j> {
    journal: &'j Journal,
    listener: Option<TcpListener>,
    /// Whether the listener is in the queue of sources.
    queued: bool,
    /// Whether a peer may wait to be accepted until a connection ends.
    is_full: bool,
    askers: Vec<Option<Asker>>,
    /// The monotonic time at which the first connection is closed for its age.
    ends_at: u64,
}

impl<'j> Server<'j> {
    /// Returns a server that isn't open.
    pub fn new(alloc: Global, journal: &'j Journal) -> Server<'j> {
        Server {
            journal,
            listener: None,
            queued: false,
            is_full: false,
            askers: Vec::new(alloc),
            ends_at: u64::MAX,
        }
    }

    /// Listens at an address.
    pub fn open(
        &mut self,
        rt: &HostRuntime,
        registry: &Registry,
        address: SocketAddr,
    ) -> io::Result<()> {
        let mut listener = TcpListener::bind(rt, address)?;
        registry.register(&mut listener, token_of(0), Interest::READABLE)?;
        for _ in 0..MOST_ASKERS {
            self.askers.push(None)?;
        }
        self.listener = Some(listener);
        Ok(())
    }

    fn asker(&mut self, number: u64) -> Option<&mut Asker> {
        let place = usize::try_from(number).ok()?.checked_sub(1)?;
        match self.askers.get_mut(place) {
            Some(Some(asker)) => Some(asker),
            Some(None) => None,
            None => None,
        }
    }

    /// Notes that the poll reports a number. Returns whether it has to be queued.
    pub fn mark(&mut self, number: u64) -> bool {
        if number == 0 {
            let queues = !self.queued;
            self.queued = true;
            return queues;
        }
        match self.asker(number) {
            Some(asker) => {
                let queues = !asker.queued;
                asker.queued = true;
                queues
            }
            None => false,
        }
    }

    fn free_place(&self) -> Option<usize> {
        self.askers.iter().position(|asker| asker.is_none())
    }

    /// Keeps a new connection. Returns its number, unless the poll can't register it.
    fn join(
        &mut self,
        alloc: Global,
        registry: &Registry,
        place: usize,
        mut stream: TcpStream,
        now: u64,
    ) -> Option<u64> {
        let number = (place as u64).checked_add(1)?;
        let both = Interest::READABLE | Interest::WRITABLE;
        registry.register(&mut stream, token_of(number), both).ok()?;
        let asker = Asker::new(alloc, stream, now);
        self.ends_at = self.ends_at.min(asker.ends_at());
        let free = self.askers.get_mut(place)?;
        *free = Some(asker);
        Some(number)
    }

    /// Accepts a peer, if there is one and a place for it.
    fn accept(&mut self, alloc: Global, registry: &Registry, now: u64) -> Again {
        self.queued = false;
        let Some(place) = self.free_place() else {
            self.is_full = true;
            return Again::nothing();
        };
        let accepted = match &self.listener {
            Some(listener) => listener.accept(),
            None => return Again::nothing(),
        };
        let stream = match accepted {
            Ok((stream, _)) => stream,
            Err(_) => return Again::nothing(),
        };
        self.queued = true;
        Again {
            listener: true,
            asker: self.join(alloc, registry, place, stream, now),
        }
    }

    /// Ends a connection. Returns whether the listener has to be looked at, as a peer may wait for its place.
    fn leave(&mut self, number: u64) -> bool {
        let place = (number as usize).saturating_sub(1);
        if let Some(asker) = self.askers.get_mut(place) {
            *asker = None;
        }
        let waits = self.is_full && !self.queued;
        if waits {
            self.is_full = false;
            self.queued = true;
        }
        waits
    }

    fn look_at_asker(&mut self, alloc: Global, number: u64) -> Result<Again, Memory> {
        let Some(asker) = self.asker(number) else {
            return Ok(Again::nothing());
        };
        let look = asker.look(alloc)?;
        asker.queued = look == Look::More;
        match look {
            Look::More => Ok(Again {
                listener: false,
                asker: Some(number),
            }),
            Look::Later => Ok(Again::nothing()),
            Look::Asks => {
                self.journal.ask();
                Ok(Again::nothing())
            }
            Look::Over => Ok(Again {
                listener: self.leave(number),
                asker: None,
            }),
        }
    }

    /// Looks at a number: accepts, reads or writes once. Returns which numbers have to be queued again.
    pub fn look(
        &mut self,
        alloc: Global,
        registry: &Registry,
        number: u64,
        now: u64,
    ) -> Result<Again, Memory> {
        if number == 0 {
            Ok(self.accept(alloc, registry, now))
        } else {
            self.look_at_asker(alloc, number)
        }
    }

    /// Returns the number of the next connection that takes its page from these and has to be queued.
    fn next_to_answer(&mut self, alloc: Global, pages: &Pages) -> Result<Option<u64>, Memory> {
        for (place, asker) in self.askers.iter_mut().enumerate() {
            if let Some(asker) = asker {
                if asker.take_pages(alloc, pages)? && !asker.queued {
                    asker.queued = true;
                    return Ok(Some((place as u64).saturating_add(1)));
                }
            }
        }
        Ok(None)
    }

    /// Takes the pages from the board, if they are there. Returns the numbers of the connections that have to
    /// be queued, as their replies can be written.
    pub fn answer(&mut self, alloc: Global) -> Result<Vec<u64>, Memory> {
        let mut numbers = Vec::new(alloc);
        if let Some(pages) = self.journal.take_pages() {
            for _ in 0..MOST_ASKERS {
                match self.next_to_answer(alloc, &pages)? {
                    Some(number) => numbers.push(number)?,
                    None => return Ok(numbers),
                }
            }
        }
        Ok(numbers)
    }

    /// Closes the connections that are too old at this monotonic time. Returns whether the listener has to be
    /// queued.
    pub fn expire(&mut self, now: u64) -> bool {
        if now < self.ends_at {
            return false;
        }
        self.ends_at = u64::MAX;
        let mut ended = false;
        for asker in self.askers.iter_mut() {
            if let Some(open) = asker {
                let ends_at = open.ends_at();
                if ends_at <= now {
                    *asker = None;
                    ended = true;
                } else {
                    self.ends_at = self.ends_at.min(ends_at);
                }
            }
        }
        let waits = ended && self.is_full && !self.queued;
        if waits {
            self.is_full = false;
            self.queued = true;
        }
        waits
    }
}
