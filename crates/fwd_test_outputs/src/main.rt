//! Vectors of what peers send and are sent: each row of `stdin` is an operation with its arguments, and the
//! program prints what comes of it. `stdout` has what Forward Protocol v1, HTTP and the manual of Fluent Bit
//! say. Comments and empty lines are printed as they are.
#![tactic(auto)]

mod handshakes;
mod messages;
mod payloads;
mod replies;
mod rows;

use std::io;

fn main(rt: HostRuntime) -> io::Result<()> {
    for line in rt.lines(rt.alloc()) {
        match rows::answer(rt.alloc(), line?.as_str()) {
            Ok(text) => println!(rt; "{text}")?,
            Err(_) => println!(rt; "out of memory")?,
        }
    }
    Ok(())
}
