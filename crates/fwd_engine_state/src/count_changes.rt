//! Changes of the counters of one input or output.

ghost use Rattle.std.specs.Prelude.{◌≡◌, ℕ, [], IfOk};
ghost use Rattle.fwd_table.specs.declared.tally.InputTally.{InputTally};
ghost use Rattle.fwd_table.specs.declared.tally.OutputTally.{OutputTally};
ghost use Rattle.fwd_model.specs.Counters.{each_from, input_tally, output_tally};
ghost use Rattle.fwd_engine_state.specs.CountChanges.{changed_at, input_changed, output_changed};

use fwd_base::Memory;
use fwd_table::{InputTallies, InputTally, OutputTallies, OutputTally};
use std::alloc::Global;

/// A change of the counters of an input.
#[derive(Clone, Copy, Debug, PartialEq, Eq)]
pub enum InputChange {
    Accepted { events: u64 },
    Refused,
}

/// A change of the counters of an output.
#[derive(Clone, Copy, Debug, PartialEq, Eq)]
pub enum OutputChange {
    Sent { bytes: u64 },
    Delivered,
    Failed,
    Retried,
    Exhausted,
    Evicted,
}

/// Returns the counters of an input after a change.
fn input_changed(counts: InputTally, change: InputChange) -> InputTally
    ensures { result ≡ input_changed change counts }
{
    match change {
        InputChange::Accepted { events } => InputTally {
            batches: counts.batches.saturating_add(1),
            events: counts.events.saturating_add(events),
            ..counts
        },
        InputChange::Refused => InputTally {
            refused: counts.refused.saturating_add(1),
            ..counts
        },
    }
}

/// Returns the counters of an output after a change.
fn output_changed(counts: OutputTally, change: OutputChange) -> OutputTally
    ensures { result ≡ output_changed change counts }
{
    match change {
        OutputChange::Sent { bytes } => OutputTally {
            taken: counts.taken.saturating_add(bytes),
            ..counts
        },
        OutputChange::Delivered => OutputTally {
            good: counts.good.saturating_add(1),
            ..counts
        },
        OutputChange::Failed => OutputTally {
            bad: counts.bad.saturating_add(1),
            ..counts
        },
        OutputChange::Retried => OutputTally {
            retry: counts.retry.saturating_add(1),
            ..counts
        },
        OutputChange::Exhausted => OutputTally {
            retry: counts.retry.saturating_add(1),
            spent: counts.spent.saturating_add(1),
            ..counts
        },
        OutputChange::Evicted => OutputTally {
            lost: counts.lost.saturating_add(1),
            ..counts
        },
    }
}

/// Applies a change to the counters of one input, if there is such an input.
pub fn input_at(counts: InputTallies, input: usize, change: InputChange) -> InputTallies
    ensures { (tally : ℕ → InputTally) (n : ℕ) → counts ≡ each_from tally 0 n → result ≡ each_from (changed_at input (input_changed change) tally) 0 n }
{
    let mut counts = counts.into_vec();
    if let Some(tally) = counts.get_mut(input) {
        *tally = input_changed(*tally, change);
    }
    InputTallies::from_vec(counts)
}

/// Applies a change to the counters of one output, if there is such an output.
pub fn output_at(counts: OutputTallies, output: usize, change: OutputChange) -> OutputTallies
    ensures { (tally : ℕ → OutputTally) (n : ℕ) → counts ≡ each_from tally 0 n → result ≡ each_from (changed_at output (output_changed change) tally) 0 n }
{
    let mut counts = counts.into_vec();
    if let Some(tally) = counts.get_mut(output) {
        *tally = output_changed(*tally, change);
    }
    OutputTallies::from_vec(counts)
}

/// Returns the counters of `inputs` inputs, all 0.
pub fn new_inputs(alloc: Global, inputs: usize) -> Result<InputTallies, Memory>
    ensures { IfOk result (λ counts. counts ≡ each_from (input_tally []) 0 inputs) }
{
    let none = InputTally {
        batches: 0,
        events: 0,
        refused: 0,
    };
    Ok(InputTallies::from_vec(vec![in alloc; none; inputs]?))
}

/// Returns the counters of `outputs` outputs, all 0.
pub fn new_outputs(alloc: Global, outputs: usize) -> Result<OutputTallies, Memory>
    ensures { IfOk result (λ counts. counts ≡ each_from (output_tally []) 0 outputs) }
{
    let none = OutputTally {
        good: 0,
        retry: 0,
        bad: 0,
        spent: 0,
        lost: 0,
        taken: 0,
    };
    Ok(OutputTallies::from_vec(vec![in alloc; none; outputs]?))
}
