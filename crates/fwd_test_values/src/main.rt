//! Vectors of the codecs, parsers and rules of filters: each row of `stdin` is an operation with its
//! arguments, and the program prints what comes of it. `stdout` has what the MessagePack specification, the
//! manual of Fluent Bit and the rules of `docs/` say. Comments and empty lines are printed as they are.
#![tactic(auto)]

mod bodies;
mod encoded;
mod parsed;
mod patterns;
mod rows;

use std::io;

fn main(rt: HostRuntime) -> io::Result<()> {
    for line in rt.lines(rt.alloc()) {
        match rows::answer(rt.alloc(), line?.as_str()) {
            Ok(text) => println!(rt; "{text}")?,
            Err(_) => println!(rt; "out of memory")?,
        }
    }
    Ok(())
}
