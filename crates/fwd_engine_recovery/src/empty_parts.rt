ghost use Rattle.std.specs.Prelude.{◌≡◌, ◌≤◌, IfOk};
ghost use Rattle.fwd_base.specs.Limits.{numbers_end};
ghost use Rattle.fwd_engine_recovery.specs.Adoption.{AreEmptyParts};

use crate::followed_inputs::followed_files;
use fwd_base::{Bytes, Memory};
use fwd_engine_inputs::InputStreams;
use fwd_engine_settings::RunSettings;
use fwd_engine_state::{Parts, State};
use fwd_store::Store;
use std::alloc::Global;

/// Returns a copy of the storage path.
fn root(alloc: Global, run: &RunSettings) -> Result<Option<Bytes>, Memory>
    ensures { IfOk result (λ root. root ≡ run.now.service.path) }
{
    match run.root() {
        None => Ok(None),
        Some(root) => Ok(Some(Bytes::from_slice(alloc, root.as_slice())?)),
    }
}

/// Returns the parts of an engine whose history is empty. `next` is the number of the next new chunk.
pub fn begin(alloc: Global, run: &RunSettings, next: u64) -> Result<Parts, Memory>
    requires { next ≤ numbers_end }
    ensures { IfOk result (λ parts. AreEmptyParts run.now next parts) }
{
    let followed_files = followed_files(alloc, run)?;
    let state = State::new(alloc, run.inputs(), run.outputs())?;
    let root = root(alloc, run)?;
    Ok(Parts {
        state,
        input_streams: InputStreams::new(alloc),
        followed_files,
        store: Store::new(alloc, root, run.full(), next),
    })
}
