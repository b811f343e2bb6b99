//! Vectors of the configuration: each row of `stdin` is an operation with its arguments, and the program
//! prints what comes of it. `stdout` has what the pages of Fluent Bit's manual and `docs/configuration.md`
//! say. Comments and empty lines are printed as they are.
#![tactic(auto)]

mod choices;
mod loaded;
mod rows;
mod shelf;
mod shown;

use std::io;

fn main(rt: HostRuntime) -> io::Result<()> {
    for line in rt.lines(rt.alloc()) {
        match rows::answer(rt.alloc(), line?.as_str()) {
            Ok(text) => println!(rt; "{text}")?,
            Err(_) => println!(rt; "out of memory")?,
        }
    }
    Ok(())
}
