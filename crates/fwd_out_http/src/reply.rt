//! The judgement of a server's reply.

ghost use Rattle.std.specs.Prelude.{◌≡◌, IfOk, IfSome, IfNone};
ghost use Rattle.fwd_out_http.specs.Reply.{by_status, is_interim, status_in, http_judgement};
ghost use Rattle.fwd_out_http.specs.FirstHead.{StartsWithHead, StartsWithNoHead};

use fwd_base::Memory;
use fwd_base::limits::LONGEST_HEAD;
use fwd_flush::{Judged, ReplyReader};
use fwd_http::{StatusRange, StatusRanges, copy_of, is_retried};
use httparse::Status;
use httparse::spans::{EMPTY_HEADER_SPAN, parse_response};
use std::alloc::Global;

/// The largest number of fields of a head.
const MOST_FIELDS: usize = 64;

/// Judges replies of HTTP servers by the status of the first head that isn't interim. The statuses of
/// `retried` are retried, 429 and 500 to 599 too, and so is a reply without such a head in its first 8,192
/// bytes. Of the others 200 to 299 is right, and the rest is fatal. The bytes after the head aren't read.
///
/// Each piece of a reply is judged from the reply's start. A piece has a byte at least and only the first
/// 8,192 bytes are read, so this is quadratic in these bytes alone.
#[derive(Debug, Drop)]
pub struct HttpReader {
    pub retried: StatusRanges,
}

impl HttpReader {
    /// Returns a reader that retries these statuses too.
    pub fn new(alloc: Global, retried: &[StatusRange]) -> Result<Self, Memory>
        ensures { IfOk result (λ reader. reader.retried ≡ retried.now) }
    {
        Ok(HttpReader {
            retried: copy_of(alloc, retried)?,
        })
    }
}

impl ReplyReader for HttpReader {
    ghost use Rattle.std.specs.Prelude.{true};
    ghost use Rattle.fwd_out_http.specs.Reply.{http_judgement};

    ghost wanted = { λ _. true };

    ghost judged = { λ reader reply. http_judgement reader.retried reply };

    fn wanted(&self) -> bool {
        true
    }

    fn judge(&self, _alloc: Global, reply: &[u8]) -> Result<Judged, Memory> {
        Ok(judgement_of(self.retried.as_slice(), reply))
    }
}

/// Returns whether a head with this status comes before the final one.
fn is_interim(status: u16) -> bool
    ensures { result ≡ is_interim status }
{
    matches!(status, 100..=199)
}

/// Judges a reply by the status of its head.
fn by_status(retried: &[StatusRange], status: u16) -> Judged
    ensures { result ≡ by_status retried.now status }
{
    if is_retried(retried, status) {
        return Judged::Wrong;
    }
    match status {
        200..=299 => Judged::Right,
        429 | 500..=599 => Judged::Wrong,
        _ => Judged::Fatal,
    }
}

/// The head that bytes start with.
#[derive(Clone, Copy, Debug, PartialEq, Eq)]
struct Head {
    status: u16,
    /// Its length in bytes.
    len: usize,
}

/// Returns the head that the bytes start with, if it is complete and has at most `MOST_FIELDS` fields.
fn head_of(bytes: &[u8]) -> Option<Head>
    ensures found { IfSome result (λ head. StartsWithHead bytes.now head.status head.len) }
    ensures none { IfNone result (StartsWithNoHead bytes.now) }
{
    let mut fields = [EMPTY_HEADER_SPAN; MOST_FIELDS];
    match parse_response(bytes, &mut fields) {
        Ok(Status::Complete(head)) => Some(Head {
            status: head.code,
            len: head.len,
        }),
        Ok(Status::Partial) | Err(_) => None,
    }
}

/// Returns the status of the first head that isn't interim, if it and the heads before it are complete and
/// have at most `MOST_FIELDS` fields.
fn status_in(bytes: &[u8]) -> Option<u16>
    ensures { result ≡ status_in bytes.now }
{
    let mut rest = bytes;
    'heads: loop {
        match head_of(rest) {
            Some(head) if is_interim(head.status) => rest = &rest[head.len..],
            Some(head) => return Some(head.status),
            None => return None,
        }
    }
}

/// Returns the judgement of a reply by all its bytes so far.
fn judgement_of(retried: &[StatusRange], reply: &[u8]) -> Judged
    ensures { result ≡ http_judgement retried.now reply.now }
{
    let first = &reply[..reply.len().min(LONGEST_HEAD)];
    match status_in(first) {
        Some(status) => by_status(retried, status),
        None if reply.len() < LONGEST_HEAD => Judged::More,
        None => Judged::Wrong,
    }
}
