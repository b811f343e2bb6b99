//! Names in recovered chunk files that stand for no output. They are for a watcher, and no clause speaks of
//! them.

use crate::pending_outputs::is_among;
use fwd_base::limits::MOST_OUTPUTS;
use fwd_base::{Bytes, ChunkId, Memory, Names, OutputId};
use fwd_engine_settings::RunSettings;
use fwd_engine_state::Parts;
use std::alloc::Global;

/// The most names that are returned.
const MOST_STRANGERS: usize = 16;

fn stands_for_output(run: &RunSettings, name: &[u8]) -> bool {
    for output in 0..MOST_OUTPUTS {
        if output < run.outputs() && run.output_name(OutputId(output as u32)) == name {
            return true;
        }
    }
    false
}

/// Adds those names of a file that stand for no output.
fn add_strangers(
    alloc: Global,
    run: &RunSettings,
    names: &Names,
    found: &mut Names,
) -> Result<(), Memory> {
    for name in names.as_slice() {
        let name = name.as_slice();
        let is_new = !stands_for_output(run, name) && !is_among(found, name);
        if is_new && found.len() < MOST_STRANGERS {
            found.push(Bytes::from_slice(alloc, name)?)?;
        }
    }
    Ok(())
}

/// Returns the names in recovered chunk files that stand for no output, at most 16, of parts that have just
/// loaded these files. Recovered files have the first numbers.
pub fn strangers_of(alloc: Global, run: &RunSettings, parts: &Parts) -> Result<Names, Memory> {
    let tally = parts.state.tally();
    let files = tally
        .loaded
        .saturating_add(tally.unrouted)
        .saturating_add(tally.left);
    let mut found = Names::new(alloc);
    for number in 1..=files {
        if let Some(names) = parts.store.named_outputs(ChunkId(number)) {
            add_strangers(alloc, run, names, &mut found)?;
        }
    }
    Ok(found)
}
