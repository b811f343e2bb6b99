//! Addresses of peers and listeners.

use fwd_system::text;
use std::io;
use std::net::{SocketAddr, ToSocketAddrs};

/// Returns the addresses of a host, in the order of the resolver.
pub fn addresses_of(rt: &HostRuntime, host: &[u8], port: u16) -> io::Result<Vec<SocketAddr>> {
    let mut addresses = Vec::new(rt.alloc());
    for address in (text(host)?, port).to_socket_addrs(rt)? {
        addresses.push(address)?;
    }
    Ok(addresses)
}
