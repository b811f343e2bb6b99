//! Requests for pages: what the head of one asks for. Only GET is served, and what follows a question mark in
//! the path doesn't count.

use fwd_base::limits::LONGEST_HEAD;
use httparse::Status;
use httparse::spans::{EMPTY_HEADER_SPAN, parse_request};

/// The most headers of a request.
const MOST_HEADERS: usize = 64;

/// A page of a run.
#[derive(Clone, Copy, Debug, PartialEq, Eq)]
pub enum Page {
    Prometheus,
    Metrics,
    Storage,
    Health,
    Uptime,
}

/// What a request asks for.
#[derive(Clone, Copy, Debug, PartialEq, Eq)]
pub enum Request {
    /// The head isn't complete.
    Incomplete,
    Page(Page),
    /// The page at `/`.
    Root,
    /// No page has this path.
    Unknown,
    /// The method isn't GET.
    OtherMethod,
    /// The head is none, or too long.
    Bad,
}

/// Returns what a path asks for. What follows a question mark doesn't count.
fn of_path(path: &[u8]) -> Request {
    let path = match path.iter().position(|byte| *byte == b'?') {
        Some(end) => path.get(..end).unwrap_or(path),
        None => path,
    };
    match path {
        b"/api/v1/metrics/prometheus" => Request::Page(Page::Prometheus),
        b"/api/v1/metrics" => Request::Page(Page::Metrics),
        b"/api/v1/storage" => Request::Page(Page::Storage),
        b"/api/v1/health" => Request::Page(Page::Health),
        b"/api/v1/uptime" => Request::Page(Page::Uptime),
        b"/" => Request::Root,
        _ => Request::Unknown,
    }
}

/// Returns what the bytes so far ask for.
pub fn read_request(head: &[u8]) -> Request {
    if head.len() > LONGEST_HEAD {
        return Request::Bad;
    }
    let mut headers = [EMPTY_HEADER_SPAN; MOST_HEADERS];
    match parse_request(head, &mut headers) {
        Ok(Status::Complete(parts)) => {
            if parts.method.of(head) == b"GET".as_slice() {
                of_path(parts.path.of(head))
            } else {
                Request::OtherMethod
            }
        }
        Ok(Status::Partial) => {
            if head.len() == LONGEST_HEAD {
                Request::Bad
            } else {
                Request::Incomplete
            }
        }
        Err(_) => Request::Bad,
    }
}
