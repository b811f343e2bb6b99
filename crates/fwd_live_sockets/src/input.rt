//! Inputs of the poll: listeners and standard input.

use crate::addresses::addresses_of;
use crate::source::Source;
use fwd_log::{Journal, Level, Source as About, Topic};
use fwd_outside::InputId;
use fwd_system::text;
use mio::net::TcpListener;
use mio::{Interest, Registry, Token};
use std::io::{self, ErrorKind};
use std::net::SocketAddr;

/// The source of an input's bytes.
#[derive(Drop)]
pub enum Feed {
    Listening(TcpListener),
    /// Standard input. A file that isn't a pipe, socket or terminal can't be polled: it is always readable.
    Stdin { watched: bool },
    Quiet,
}

/// An input.
#[derive(Drop)]
pub struct Input {
    pub feed: Feed,
    /// Whether it is in a queue of sources to read.
    pub queued: bool,
}

/// Listens at an address, and registers the listener with the poll.
fn listen_there(
    rt: &HostRuntime,
    registry: &Registry,
    token: Token,
    address: SocketAddr,
) -> io::Result<TcpListener> {
    let mut listener = TcpListener::bind(rt, address)?;
    registry.register(&mut listener, token, Interest::READABLE)?;
    Ok(listener)
}

/// Listens at the first address of the host that works.
fn listen_at(
    rt: &HostRuntime,
    registry: &Registry,
    token: Token,
    host: &[u8],
    port: u16,
) -> io::Result<TcpListener> {
    let mut refusal = io::Error::from(ErrorKind::AddrNotAvailable);
    for address in addresses_of(rt, host, port)? {
        match listen_there(rt, registry, token, address) {
            Ok(listener) => return Ok(listener),
            Err(error) => refusal = error,
        }
    }
    Err(refusal)
}

/// Listens at a host's port. The log says so, or why it can't.
pub fn listen(
    rt: &HostRuntime,
    registry: &Registry,
    journal: &Journal,
    input: InputId,
    host: &[u8],
    port: u16,
) -> io::Result<TcpListener> {
    let token = Source::Input(input).token();
    let name = text(host).unwrap_or("?");
    match listen_at(rt, registry, token, host, port) {
        Ok(listener) => {
            let open = port_of(&listener, port);
            let said = format_args!("listens at {name} port {open}");
            journal.write(Level::Info, About::Input(input), Topic::Listener, &said);
            Ok(listener)
        }
        Err(reason) => {
            let said = format_args!("can't listen at {name} port {port}: {reason}");
            journal.write(Level::Error, About::Input(input), Topic::Listener, &said);
            Err(reason)
        }
    }
}

/// Returns the port of a listener, which the system has chosen if the asked one is 0.
fn port_of(listener: &TcpListener, asked: u16) -> u16 {
    match listener.local_addr() {
        Ok(address) => address.port(),
        Err(_) => asked,
    }
}
