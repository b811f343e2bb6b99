//! The outputs with a free place.

ghost use Rattle.std.specs.Prelude.{Option};
ghost use Rattle.fwd_model.specs.Fact.{History, Route};
ghost use Rattle.fwd_engine_state.specs.StateRepresents.{StateRepresents};
ghost use Rattle.fwd_engine_flush.specs.FreePlaces.{IsMaskOfFree};

use fwd_base::OutputId;
use fwd_engine_chunks::RunSettings;
use fwd_engine_state::State;

/// Returns the mask of the outputs with a free place: fewer flushes to them are in flight than may be.
pub fn free_outputs(run: &RunSettings, state: &State) -> u64
    ensures { (h : History) (out : Option Route) → StateRepresents run.now state.now h out → IsMaskOfFree run.now h result }
{
    run.lemma_settings_are_sound();
    let mut mask: u64 = 0;
    for i in 0..run.outputs() {
        let output = OutputId(i as u32);
        if state.flights_to(output) < run.places(output) {
            mask |= 1 << i;
        }
    }
    mask
}
