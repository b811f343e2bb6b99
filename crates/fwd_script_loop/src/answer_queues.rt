//! Answers by output.

ghost use Rattle.std.specs.Prelude.{◌≡◌, ◌==◌, ℕ, ◌++◌, ◌∷◌, [], if◌then◌else◌, drop, IfOk, OnOk};
ghost use Rattle.fwd_script_loop.specs.FirstMatch.{first_in};
ghost use Rattle.fwd_script_loop.specs.AnswerQueues.{lane_of};

use fwd_base::Memory;
use std::alloc::Global;
use std::collections::{BTreeMap, VecDeque};
use std::marker::Model;

/// The remaining answers of one output, in order.
#[derive(Debug, Drop)]
pub struct AnswerQueue<T> {
    items: VecDeque<T>,
}

impl<T> Model for AnswerQueue<T> {
    ghost use Rattle.std.specs.Prelude.{List};

    ghost Value = { List T };

    ghost view = { λ l. l.items.items };
}

impl<T: Copy + Drop> AnswerQueue<T> {
    /// Returns a queue of one answer.
    fn of(alloc: Global, answer: T) -> Result<Self, Memory>
        ensures { IfOk result (λ lane. lane ≡ answer ∷ []) }
    {
        let mut items = VecDeque::new(alloc);
        items.push_back(answer)?;
        Ok(AnswerQueue { items })
    }

    fn push(&mut self, answer: T) -> Result<(), Memory>
        ensures { OnOk result (self.new ≡ self.old ++ answer ∷ []) }
    {
        self.items.push_back(answer)?;
        Ok(())
    }

    fn first(&self) -> Option<T>
        ensures { result ≡ first_in self.now }
    {
        self.items.front().copied()
    }

    fn skip(&mut self)
        ensures { self.new ≡ drop 1 self.old }
    {
        self.items.pop_front();
    }
}

/// The remaining answers of each output, in order.
#[derive(Debug, Drop)]
pub struct AnswerQueues<T> {
    pub lanes: BTreeMap<u32, AnswerQueue<T>>,
}

impl<T: Copy + Drop> AnswerQueues<T> {
    pub fn new(alloc: Global) -> Self
        ensures { (output : ℕ) → lane_of result.lanes output ≡ [] }
    {
        AnswerQueues {
            lanes: BTreeMap::new(alloc),
        }
    }

    /// Appends an answer to those of its output.
    pub fn add(&mut self, alloc: Global, output: u32, answer: T) -> Result<(), Memory>
        ensures { OnOk result ((o : ℕ) → lane_of self.new.lanes o ≡ (if o == output then lane_of self.old.lanes o ++ answer ∷ [] else lane_of self.old.lanes o)) }
    {
        match self.lanes.get_mut(&output) {
            Some(lane) => lane.push(answer),
            None => {
                self.lanes.insert(output, AnswerQueue::of(alloc, answer)?)?;
                Ok(())
            }
        }
    }

    /// Returns the next answer of an output.
    pub fn next(&self, output: u32) -> Option<T>
        ensures { result ≡ first_in (lane_of self.now.lanes output) }
    {
        match self.lanes.get(&output) {
            Some(lane) => lane.first(),
            None => None,
        }
    }

    /// Uses up the next answer of an output.
    pub fn take(&mut self, output: u32)
        ensures { (o : ℕ) → lane_of self.new.lanes o ≡ (if o == output then drop 1 (lane_of self.old.lanes o) else lane_of self.old.lanes o) }
    {
        if let Some(lane) = self.lanes.get_mut(&output) {
            lane.skip();
        }
    }
}
