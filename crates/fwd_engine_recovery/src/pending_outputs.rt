ghost use Rattle.std.specs.Prelude.{◌≡◌, ◌≢◌, ◌<◌, ◌==◌, ◌&&◌, ℕ, List, [], not, map, MatchOption, OnOk};
ghost use Rattle.std.specs.Int.{bit_at};
ghost use Rattle.std.specs.List.{list_any};
ghost use Rattle.std.specs.Str.{bytes_eq};
ghost use Rattle.fwd_table.specs.Routes.{idle_at, routes_to};
ghost use Rattle.fwd_chunk.specs.declared.chunk.Seen.TheVariants.{Whole};
ghost use Rattle.fwd_model.specs.Settings.{outputs_for, output_name};
ghost use Rattle.fwd_engine_recovery.specs.Adoption.{remaining_outputs, StateNotesFile};

use fwd_base::limits::MOST_OUTPUTS;
use fwd_base::{ChunkId, Memory, Names, OutputId, is_set};
use fwd_chunk::Brief;
use fwd_engine_settings::RunSettings;
use fwd_engine_state::State;

pub fn is_among(names: &Names, name: &[u8]) -> bool
    ensures { result ≡ list_any (λ other. bytes_eq other name.now) names.now }
{
    names
        .as_slice()
        .iter()
        .any(|other| other.as_slice() == name)
}

/// Whether an output is in the mask `routes` and not among the names `done`, whose outcomes are recorded.
fn is_remaining(run: &RunSettings, routes: u64, done: &Names, output: usize) -> bool
    requires { output < 64 }
    ensures { result ≡ ((bit_at routes output == 1) && not (list_any (λ other. bytes_eq other (output_name run.now output)) done.now)) }
{
    is_set(routes, output as u32) && !is_among(done, run.output_name(OutputId(output as u32)))
}

/// Returns those outputs of the mask `routes` that aren't among these names, as a mask. Returns `None` if
/// there are none.
fn remaining_outputs(run: &RunSettings, routes: u64, done: &Names) -> Option<u64>
    ensures { (tag : List ℕ) → routes_to routes ≡ map (λ output. idle_at 0 (record { 0 = output })) (outputs_for run.now tag)
        → MatchOption result (remaining_outputs run.now tag done.now ≡ [])
        (λ left. (routes_to left ≡ map (λ output. idle_at 0 (record { 0 = output })) (remaining_outputs run.now tag done.now)) × (remaining_outputs run.now tag done.now ≢ [])) }
{
    let mut left: u64 = 0;
    for output in 0..MOST_OUTPUTS {
        if is_remaining(run, routes, done, output) {
            left |= 1 << output;
        }
    }
    if left == 0 { None } else { Some(left) }
}

/// Adds a recovered chunk, pending for the outputs that match its tag and whose outcome isn't recorded. If
/// all outcomes are recorded, the file stays as it is.
pub fn add_pending(
    run: &RunSettings,
    state: &mut State,
    chunk: ChunkId,
    brief: &Brief,
) -> Result<(), Memory>
    ensures { OnOk result (StateNotesFile run.now state.old state.new chunk.0 (Whole brief.now)) }
{
    let tag = brief.tag.as_slice();
    let routes = run.routes_for(tag);
    if routes == 0 {
        state.count_unrouted();
        return Ok(());
    }
    match remaining_outputs(run, routes, &brief.done) {
        None => state.count_left(),
        Some(left) => {
            let place = state.reserve(tag)?;
            state.add_recovered(place, chunk, brief.size, left);
        }
    }
    Ok(())
}
