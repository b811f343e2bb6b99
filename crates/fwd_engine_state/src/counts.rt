//! Counters of inputs, outputs, files and failures. Each saturates at 2^64 - 1.

ghost use Rattle.std.specs.Prelude.{◌≡◌, ℕ, List, [], ◌∷◌, length, IfOk};
ghost use Rattle.fwd_settings.specs.declared.settings_types.AllSettings.{AllSettings};
ghost use Rattle.fwd_table.specs.declared.tally.InputTally.{InputTally};
ghost use Rattle.fwd_table.specs.declared.tally.OutputTally.{OutputTally};
ghost use Rattle.fwd_model.specs.Fact.{History, Route, Batch, Placement, Reason, Malformed, Found, Accepted, Refused, Sent, OnRoute, Retries, Delivered, Failed, Exhausted, Evicted, IoFailed};
ghost use Rattle.fwd_model.specs.RecoveredFile.{recovered_chunk};
ghost use Rattle.fwd_model.specs.Counters.{each_from, file_fate, Loaded, Unrouted, LeftAsIs, tally_of};
ghost use Rattle.fwd_engine_state.specs.CountChanges.{changed_at, input_changed, output_changed};
ghost use Rattle.fwd_engine_state.specs.FlushOutcome.{outcome_after};

use crate::count_changes::{
    InputChange, OutputChange, input_at, new_inputs, new_outputs, output_at,
};
use fwd_base::{InputId, Memory, OutputId};
use fwd_table::{Answer, InputTallies, OutputTallies, Tally};
use std::alloc::Global;
use std::marker::Model;
use std::mem;

/// The counters. In contracts a value is its tally.
#[derive(Debug, Drop)]
pub struct Counts {
    tally: Tally,
    alloc: Global,
}

impl Model for Counts {
    ghost use Rattle.fwd_table.specs.declared.tally.Tally.{Tally};

    ghost Value = { Tally };

    ghost view = { λ c. c.tally };
}

impl Counts {
    /// All counters at 0, for `inputs` inputs and `outputs` outputs.
    pub fn new(alloc: Global, inputs: usize, outputs: usize) -> Result<Counts, Memory>
        ensures { IfOk result (λ counts. (s : AllSettings) → length s.inputs ≡ inputs → length s.outputs ≡ outputs → counts ≡ tally_of s []) }
    {
        Ok(Counts {
            tally: Tally {
                inputs: new_inputs(alloc, inputs)?,
                outputs: new_outputs(alloc, outputs)?,
                loaded: 0,
                unrouted: 0,
                left: 0,
                faults: 0,
            },
            alloc,
        })
    }

    /// Counts an accepted batch of an input, with `events` events.
    pub fn add_accepted(&mut self, input: InputId, events: usize)
        ensures { (s : AllSettings) (h : History) (b : Batch) (place : Placement) → b.input ≡ input.0 → length b.events ≡ events → self.old ≡ tally_of s h → self.new ≡ tally_of s (Accepted b place ∷ h) }
    {
        self.change_input(
            input,
            InputChange::Accepted {
                events: events as u64,
            },
        );
    }

    /// Counts a refused batch of an input, or bytes that are no message.
    pub fn add_refused(&mut self, input: InputId)
        ensures batch { (s : AllSettings) (h : History) (b : Batch) (why : Reason) → b.input ≡ input.0 → self.old ≡ tally_of s h → self.new ≡ tally_of s (Refused b why ∷ h) }
        ensures misread { (s : AllSettings) (h : History) → self.old ≡ tally_of s h → self.new ≡ tally_of s (Malformed input.0 ∷ h) }
    {
        self.change_input(input, InputChange::Refused);
    }

    /// Adds bytes that connections of an output took.
    pub fn add_taken(&mut self, output: OutputId, bytes: u64)
        ensures { (s : AllSettings) (h : History) → self.old ≡ tally_of s h → self.new ≡ tally_of s (Sent output.0 bytes ∷ h) }
    {
        self.change_output(output, OutputChange::Sent { bytes });
    }

    /// Counts a flush that an output acknowledged.
    fn add_delivered(&mut self, output: OutputId)
        ensures { (s : AllSettings) (h : History) (r : Route) → r.output ≡ output.0 → self.old ≡ tally_of s h → self.new ≡ tally_of s (OnRoute r Delivered ∷ h) }
    {
        self.change_output(output, OutputChange::Delivered);
    }

    /// Counts a flush that an output rejected.
    fn add_failed(&mut self, output: OutputId)
        ensures { (s : AllSettings) (h : History) (r : Route) → r.output ≡ output.0 → self.old ≡ tally_of s h → self.new ≡ tally_of s (OnRoute r Failed ∷ h) }
    {
        self.change_output(output, OutputChange::Failed);
    }

    /// Counts a failed flush that will be retried.
    fn add_retried(&mut self, output: OutputId)
        ensures { (s : AllSettings) (h : History) (r : Route) (word : ℕ) → r.output ≡ output.0 → self.old ≡ tally_of s h → self.new ≡ tally_of s (OnRoute r (Retries word) ∷ h) }
    {
        self.change_output(output, OutputChange::Retried);
    }

    /// Counts a failed flush that has no retry left.
    fn add_exhausted(&mut self, output: OutputId)
        ensures { (s : AllSettings) (h : History) (r : Route) → r.output ≡ output.0 → self.old ≡ tally_of s h → self.new ≡ tally_of s (OnRoute r Exhausted ∷ h) }
    {
        self.change_output(output, OutputChange::Exhausted);
    }

    /// Counts a flush that ended with an answer, after which the route is retried or not.
    pub fn add_answer(&mut self, output: OutputId, answer: Answer, again: bool)
        ensures { (s : AllSettings) (h : History) (r : Route) (word : ℕ) → r.output ≡ output.0 → self.old ≡ tally_of s h → self.new ≡ tally_of s (OnRoute r (outcome_after answer again word) ∷ h) }
    {
        match answer {
            Answer::Good => self.add_delivered(output),
            Answer::Bad => self.add_failed(output),
            Answer::Retry => {
                if again {
                    self.add_retried(output);
                } else {
                    self.add_exhausted(output);
                }
            }
        }
    }

    /// Counts a route that a limit evicted.
    pub fn add_evicted(&mut self, output: OutputId)
        ensures { (s : AllSettings) (h : History) (r : Route) → r.output ≡ output.0 → self.old ≡ tally_of s h → self.new ≡ tally_of s (OnRoute r Evicted ∷ h) }
    {
        self.change_output(output, OutputChange::Evicted);
    }

    /// Counts a recovered file whose chunk is pending.
    pub fn add_loaded(&mut self)
        ensures { (s : AllSettings) (h : History) (number : ℕ) (stream name bytes : List ℕ) → file_fate s (recovered_chunk bytes) ≡ Loaded → self.old ≡ tally_of s h → self.new ≡ tally_of s (Found number stream name bytes ∷ h) }
    {
        self.tally.loaded = self.tally.loaded.saturating_add(1);
    }

    /// Counts a recovered file whose chunk matches no output.
    pub fn add_unrouted(&mut self)
        ensures { (s : AllSettings) (h : History) (number : ℕ) (stream name bytes : List ℕ) → file_fate s (recovered_chunk bytes) ≡ Unrouted → self.old ≡ tally_of s h → self.new ≡ tally_of s (Found number stream name bytes ∷ h) }
    {
        self.tally.unrouted = self.tally.unrouted.saturating_add(1);
    }

    /// Counts a recovered file that stays as it is.
    pub fn add_left(&mut self)
        ensures { (s : AllSettings) (h : History) (number : ℕ) (stream name bytes : List ℕ) → file_fate s (recovered_chunk bytes) ≡ LeftAsIs → self.old ≡ tally_of s h → self.new ≡ tally_of s (Found number stream name bytes ∷ h) }
    {
        self.tally.left = self.tally.left.saturating_add(1);
    }

    /// Counts a failed call on the disk or on files.
    pub fn add_fault(&mut self)
        ensures { (s : AllSettings) (h : History) → self.old ≡ tally_of s h → self.new ≡ tally_of s (IoFailed ∷ h) }
    {
        self.tally.faults = self.tally.faults.saturating_add(1);
    }

    /// Returns all counters.
    pub fn tally(&self) -> &Tally
        ensures { result.now ≡ self.now }
    {
        &self.tally
    }

    /// Changes the counters of an input, if there is such an input.
    fn change_input(&mut self, input: InputId, change: InputChange)
        ensures { (tally : ℕ → InputTally) (n : ℕ) → self.old.inputs ≡ each_from tally 0 n → self.new ≡ record self.old { inputs = each_from (changed_at input.0 (input_changed change) tally) 0 n } }
    {
        let inputs = mem::replace(&mut self.tally.inputs, InputTallies::new(self.alloc));
        self.tally.inputs = input_at(inputs, input.0 as usize, change);
    }

    /// Changes the counters of an output, if there is such an output.
    fn change_output(&mut self, output: OutputId, change: OutputChange)
        ensures { (tally : ℕ → OutputTally) (n : ℕ) → self.old.outputs ≡ each_from tally 0 n → self.new ≡ record self.old { outputs = each_from (changed_at output.0 (output_changed change) tally) 0 n } }
    {
        let outputs = mem::replace(&mut self.tally.outputs, OutputTallies::new(self.alloc));
        self.tally.outputs = output_at(outputs, output.0 as usize, change);
    }
}
