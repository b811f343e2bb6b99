//! Replies to requests for pages: a page as JSON or text, or a status that needs no page. Each closes its
//! connection.

use crate::request::Page;
use fwd_base::{Bytes, Memory};
use fwd_log::Pages;
use std::alloc::Global;

const JSON: &[u8] = b"application/json";

const TEXT: &[u8] = b"text/plain; charset=utf-8";

const PROMETHEUS: &[u8] = b"text/plain; version=0.0.4; charset=utf-8";

/// The page at `/`.
const ROOT: &[u8] = b"{\"fuztreb\":{\"is\":\"a log forwarder\"}}\n";

/// A status that needs no page.
#[derive(Clone, Copy, Debug, PartialEq, Eq)]
pub enum Plain {
    Root,
    BadRequest,
    NotFound,
    OtherMethod,
}

fn whole(alloc: Global, status: &[u8], kind: &[u8], body: &[u8]) -> Result<Bytes, Memory> {
    let mut text = Bytes::from_slice(alloc, b"HTTP/1.1 ")?;
    text.extend_from_slice(status)?;
    text.extend_from_slice(b"\r\nContent-Type: ")?;
    text.extend_from_slice(kind)?;
    text.extend_from_slice(b"\r\nContent-Length: ")?;
    text.push_decimal(body.len() as u64)?;
    text.extend_from_slice(b"\r\nConnection: close\r\n\r\n")?;
    text.extend_from_slice(body)?;
    Ok(text)
}

/// Returns the reply that needs no page.
pub fn without_page(alloc: Global, status: Plain) -> Result<Bytes, Memory> {
    match status {
        Plain::Root => whole(alloc, b"200 OK", JSON, ROOT),
        Plain::BadRequest => whole(alloc, b"400 Bad Request", TEXT, b"bad request\n"),
        Plain::NotFound => whole(alloc, b"404 Not Found", TEXT, b"not found\n"),
        Plain::OtherMethod => whole(alloc, b"405 Method Not Allowed", TEXT, b"only GET\n"),
    }
}

/// Returns the reply with a page.
pub fn with_page(alloc: Global, page: Page, pages: &Pages) -> Result<Bytes, Memory> {
    match page {
        Page::Prometheus => whole(alloc, b"200 OK", PROMETHEUS, pages.prometheus.as_slice()),
        Page::Metrics => whole(alloc, b"200 OK", JSON, pages.metrics.as_slice()),
        Page::Storage => whole(alloc, b"200 OK", JSON, pages.storage.as_slice()),
        Page::Uptime => whole(alloc, b"200 OK", JSON, pages.uptime.as_slice()),
        Page::Health if pages.is_healthy => whole(alloc, b"200 OK", TEXT, b"ok\n"),
        Page::Health => whole(alloc, b"500 Internal Server Error", TEXT, b"error\n"),
    }
}
