//! Sources of the poll and their tokens.

use fwd_live_http::token_of;
use fwd_outside::{ConnId, InputId, LinkId};
use mio::Token;

/// A source of the poll.
#[derive(Clone, Copy, Debug, PartialEq, Eq)]
pub enum Source {
    Input(InputId),
    /// A connection of a peer to an input.
    Conn(ConnId),
    /// A link to a peer.
    Link(LinkId),
    /// A number of the server of pages.
    Page(u64),
}

impl Source {
    /// Returns the token; numbers below 2^62 have different ones.
    pub fn token(self) -> Token {
        let (kind, number) = match self {
            Source::Input(input) => (0, u64::from(input.0)),
            Source::Conn(conn) => (1, conn.0),
            Source::Link(link) => (2, link.0),
            Source::Page(number) => return token_of(number),
        };
        Token(number.wrapping_mul(4).wrapping_add(kind) as usize)
    }

    /// Returns the source with this token, if there is one.
    pub fn of(token: Token) -> Option<Source> {
        let number = token.0 as u64 / 4;
        match token.0 % 4 {
            0 => match u32::try_from(number) {
                Ok(place) => Some(Source::Input(InputId(place))),
                Err(_) => None,
            },
            1 => Some(Source::Conn(ConnId(number))),
            2 => Some(Source::Link(LinkId(number))),
            _ => Some(Source::Page(number)),
        }
    }
}
