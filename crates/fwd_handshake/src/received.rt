//! How a stream begins, judged as a message of the handshake.

ghost use Rattle.std.specs.Prelude.{◌≡◌};
ghost use Rattle.fwd_handshake.specs.Judgement.{longest_greeting, short_received, content_received, greeted_of};

use fwd_base::Bytes;

/// The most bytes that may begin a message of the handshake without being one.
pub const LONGEST_GREETING: usize = 4_096;

/// How a stream begins.
#[derive(Clone, Copy, Debug, PartialEq, Eq)]
pub enum Greeted {
    /// The bytes begin a value and are too few yet.
    More,
    /// The first `len` bytes are the wanted message, and its digest is right.
    Right { len: u64 },
    /// The bytes don't begin with the wanted message, or its digest is wrong.
    Wrong,
}

/// How a stream begins, with what the message has for the reader.
#[derive(Debug, Drop)]
pub enum Received {
    More,
    /// `content` is the nonce of a HELO, the salt of a PING or the host of a PONG.
    Right { len: u64, content: Bytes },
    Wrong,
}

impl Received {
    /// Returns how the stream begins, without the content.
    pub fn greeted(&self) -> Greeted
        ensures { result ≡ greeted_of self.now }
    {
        match self {
            Received::More => Greeted::More,
            Received::Right { len, .. } => Greeted::Right { len: *len },
            Received::Wrong => Greeted::Wrong,
        }
    }

    /// Judges a stream of this many bytes that ends inside its first value.
    pub(crate) fn short(length: usize) -> Received
        ensures { result ≡ short_received length }
    {
        if length <= LONGEST_GREETING {
            Received::More
        } else {
            Received::Wrong
        }
    }

    /// Judges a stream whose first value has this many bytes, and this content if it is the wanted message.
    pub(crate) fn of_content(len: u64, content: Option<Bytes>) -> Received
        ensures { result ≡ content_received len content }
    {
        match content {
            Some(content) => Received::Right { len, content },
            None => Received::Wrong,
        }
    }
}

/// The constant equals its definition.
pub fn greeting_limit_is_defined()
    ensures { LONGEST_GREETING ≡ longest_greeting }
{}
