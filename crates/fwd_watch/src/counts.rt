//! The counters of a run at an earlier time.

use fwd_base::Memory;
use fwd_table::{InputTally, OutputTally, Tally};
use std::alloc::Global;

/// A copy of the counters that a watcher looks at.
#[derive(Drop)]
pub struct Counts {
    pub inputs: Vec<InputTally>,
    pub outputs: Vec<OutputTally>,
}

impl Counts {
    /// Returns the counters of no inputs and no outputs.
    pub fn new(alloc: Global) -> Counts {
        Counts {
            inputs: Vec::new(alloc),
            outputs: Vec::new(alloc),
        }
    }

    /// Makes the counters those of a tally. They stay as they are where memory runs out.
    pub fn copy(&mut self, alloc: Global, tally: &Tally) -> Result<(), Memory> {
        let inputs = Vec::from_slice(alloc, tally.inputs.as_slice())?;
        let outputs = Vec::from_slice(alloc, tally.outputs.as_slice())?;
        self.inputs = inputs;
        self.outputs = outputs;
        Ok(())
    }

    /// Keeps the counters of an input.
    pub fn keep_input(&mut self, index: usize, tally: InputTally) {
        if let Some(kept) = self.inputs.get_mut(index) {
            *kept = tally;
        }
    }

    /// Keeps the counters of an output.
    pub fn keep_output(&mut self, index: usize, tally: OutputTally) {
        if let Some(kept) = self.outputs.get_mut(index) {
            *kept = tally;
        }
    }
}
