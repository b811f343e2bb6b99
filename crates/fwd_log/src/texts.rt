//! Texts that are kept by output.

use fwd_base::{Bytes, OutputId};
use std::alloc::Global;
use std::cell::RefCell;
use std::collections::HashMap;

/// The last text of each output. What it has is in a cell; a text that comes during a look at another one, or
/// for which memory runs out, is passed over.
#[derive(Drop)]
pub struct Texts {
    last: RefCell<HashMap<u32, Bytes>>,
}

impl Texts {
    pub fn new(alloc: Global) -> Texts {
        Texts {
            last: RefCell::new(HashMap::new(alloc)),
        }
    }

    /// Keeps a text of an output in place of the last one.
    pub fn keep(&self, alloc: Global, output: OutputId, text: &[u8]) {
        if let Ok(mut last) = self.last.try_borrow_mut() {
            if let Ok(text) = Bytes::from_slice(alloc, text) {
                let _ = last.insert(output.0, text);
            }
        }
    }

    /// Returns a copy of the last text of an output.
    pub fn of(&self, alloc: Global, output: OutputId) -> Option<Bytes> {
        match self.last.try_borrow() {
            Ok(last) => last.get(&output.0)?.try_clone(alloc).ok(),
            Err(_) => None,
        }
    }

    /// Forgets the last text of an output.
    pub fn forget(&self, output: OutputId) {
        if let Ok(mut last) = self.last.try_borrow_mut() {
            let _ = last.remove(&output.0);
        }
    }
}
