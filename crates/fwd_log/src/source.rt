//! What a log line is about.

use fwd_base::{Bytes, InputId, Memory, Names as List, OutputId};
use std::alloc::Global;

/// The part of a run that a line is about.
#[derive(Clone, Copy, Debug, PartialEq, Eq)]
pub enum Source {
    /// The configuration.
    Config,
    /// The engine: the run as a whole.
    Engine,
    /// The folder of chunk files.
    Storage,
    /// Followed files, and those of the configuration.
    Files,
    /// The server of pages.
    Http,
    Input(InputId),
    Output(OutputId),
}

/// The names of inputs and outputs, in the order of the configuration.
#[derive(Debug, Drop)]
pub struct Names {
    pub inputs: List,
    pub outputs: List,
}

impl Names {
    /// Returns the names of no inputs and no outputs.
    pub fn new(alloc: Global) -> Names {
        Names {
            inputs: List::new(alloc),
            outputs: List::new(alloc),
        }
    }
}

/// Returns a word and a name, or a number where there is no name yet.
fn name_text(alloc: Global, word: &[u8], names: &[Bytes], number: u32) -> Result<Bytes, Memory> {
    let mut text = Bytes::from_slice(alloc, word)?;
    match names.get(number as usize) {
        Some(name) => text.extend_from_slice(name.as_slice())?,
        None => text.push_decimal(u64::from(number))?,
    }
    Ok(text)
}

impl Source {
    /// Returns the text of a line's brackets.
    pub fn text(self, alloc: Global, names: &Names) -> Result<Bytes, Memory> {
        match self {
            Source::Config => Bytes::from_slice(alloc, b"config"),
            Source::Engine => Bytes::from_slice(alloc, b"engine"),
            Source::Storage => Bytes::from_slice(alloc, b"storage"),
            Source::Files => Bytes::from_slice(alloc, b"files"),
            Source::Http => Bytes::from_slice(alloc, b"http server"),
            Source::Input(input) => name_text(alloc, b"input ", names.inputs.as_slice(), input.0),
            Source::Output(output) => name_text(
                alloc,
                b"output ",
                names.outputs.as_slice(),
                output.0,
            ),
        }
    }
}
