//! A connection of a peer to an input.

use fwd_outside::InputId;
use mio::net::TcpStream;
use std::alloc::Global;
use std::io::{self, ErrorKind, Write};

/// The most bytes of replies that are buffered while the socket is full.
const MOST_BUFFERED: usize = 65_536;

/// What the first reply of an input with a shared key begins with.
const HELO: &[u8] = b"\x92\xa4HELO";

/// How often an interrupted call is retried.
const MOST_TRIES: u32 = 16;

/// A connection of a peer to an input.
#[derive(Drop)]
pub struct Conn {
    pub input: InputId,
    pub stream: TcpStream,
    /// Whether it is in a queue of sources to read.
    pub queued: bool,
    /// Whether the poll reported its end, so that reading goes on until the end comes.
    pub ending: bool,
    /// Whether its end was returned as an event. It stays for the replies that the peer hasn't taken.
    pub over: bool,
    /// Whether its last reply was the HELO of a handshake, so that the peer hasn't shown the key.
    pub owes_key: bool,
    /// Replies that the socket hasn't taken.
    replies: Vec<u8>,
}

/// Writes once. Returns 0 if the socket is full.
pub fn write_some(stream: &TcpStream, bytes: &[u8]) -> io::Result<usize> {
    let mut to = stream;
    for _ in 0..MOST_TRIES {
        match to.write(bytes) {
            Ok(taken) => return Ok(taken),
            Err(error) if error.kind() == ErrorKind::WouldBlock => return Ok(0),
            Err(error) if error.kind() == ErrorKind::Interrupted => {}
            Err(error) => return Err(error),
        }
    }
    Err(io::Error::from(ErrorKind::Interrupted))
}

impl Conn {
    pub fn new(alloc: Global, input: InputId, stream: TcpStream) -> Conn {
        Conn {
            input,
            stream,
            queued: false,
            ending: false,
            over: false,
            owes_key: false,
            replies: Vec::new(alloc),
        }
    }

    /// Returns whether replies are buffered that the socket hasn't taken.
    pub fn has_unsent_replies(&self) -> bool {
        !self.replies.is_empty()
    }

    /// Sends or buffers a whole reply, or fails. It fails after the end of the connection; replies that were
    /// taken before are still written.
    pub fn reply(&mut self, bytes: &[u8]) -> io::Result<()> {
        if self.over {
            return Err(io::Error::from(ErrorKind::NotConnected));
        }
        self.replies.reserve(bytes.len())?;
        let taken = if self.has_unsent_replies() {
            0
        } else {
            write_some(&self.stream, bytes)?
        };
        let rest = &bytes[taken.min(bytes.len())..];
        if rest.len() > MOST_BUFFERED.saturating_sub(self.replies.len()) {
            return Err(io::Error::from(ErrorKind::StorageFull));
        }
        self.replies.extend_from_slice(rest)?;
        self.owes_key = bytes.starts_with(HELO);
        Ok(())
    }

    /// Writes as much of the buffered replies as the socket takes.
    pub fn flush(&mut self, alloc: Global) -> io::Result<()> {
        if self.replies.is_empty() {
            return Ok(());
        }
        let taken = write_some(&self.stream, &self.replies)?;
        let rest = &self.replies[taken.min(self.replies.len())..];
        self.replies = rest.to_vec(alloc)?;
        Ok(())
    }
}
