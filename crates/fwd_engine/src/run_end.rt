ghost use Rattle.std.specs.Prelude.{◌≡◌, ◌+◌, ◌*◌, ◌&&◌, ◌||◌, nat_le};
ghost use Rattle.fwd_model.specs.Fact.{History};
ghost use Rattle.fwd_model.specs.Clock.{clock};
ghost use Rattle.fwd_model.specs.Run.{is_over, is_end, is_tick};
ghost use Rattle.fwd_engine_state.specs.StateRepresents.{StateAnswers};
ghost use Rattle.fwd_engine_state.specs.PartsRepresent.{PartsRepresentIdle};

use fwd_engine_flush::RunSettings;
use fwd_engine_state::{Parts, State};
use fwd_outside::Happening;

fn is_end_event(happening: &Happening) -> bool
    ensures { result ≡ is_end happening.now }
{
    matches!(happening, Happening::End)
}

/// Whether an event is a tick of the clock.
pub fn is_clock_tick(happening: &Happening) -> bool
    ensures { result ≡ is_tick happening.now }
{
    matches!(happening, Happening::Tick { .. })
}

/// Whether a run is over: its end has come, nothing is pending, or the event is a tick that is late enough.
fn is_any(ends: bool, done: bool, ticks: bool, late: bool) -> bool
    ensures { result ≡ (ends || (done || (ticks && late))) }
{
    ends || done || (ticks && late)
}

/// Whether the clock is at least `grace_s` seconds past the stop at `at`.
fn is_late(state: &State, at: u64, grace_s: u64) -> bool
    ensures { StateAnswers state.now (λ s h. result ≡ nat_le (at + 1000 * grace_s) (clock h)) }
{
    let end = grace_s.saturating_mul(1000).saturating_add(at);
    end <= state.clock()
}

/// Whether the run is over after an event: at `End`; and after a stop, if nothing is pending, or at a tick
/// after the grace period.
pub fn is_finished(run: &RunSettings, parts: &Parts, happening: &Happening) -> bool
    ensures { (h : History) → PartsRepresentIdle run.now parts.now h → result ≡ is_over run.now happening.now h }
{
    match parts.state.stopped() {
        None => is_end_event(happening),
        Some(at) => {
            let ends = is_end_event(happening);
            let done = parts.state.is_done();
            let ticks = is_clock_tick(happening);
            let late = is_late(&parts.state, at, run.grace_s());
            is_any(ends, done, ticks, late)
        }
    }
}
