//! The remaining answers of a run.

ghost use Rattle.std.specs.Prelude.{◌≡◌, ◌+◌, length, List, IfOk, IfSome, OnOk, OnErr, option_map, unwrap_or};
ghost use Rattle.fwd_script_loop.specs.Place.{Place, after_close, after_dial, after_push, after_reply, after_word, beginning, limit_push, dialed, output_of, pushed, replied, after_random};
ghost use Rattle.fwd_script_loop.specs.Lines.{given_in, word_answer};
ghost use Rattle.fwd_script_loop.specs.AnswersLeft.{Adds, AnswersLeft};
ghost use Rattle.fwd_script.specs.declared.schedule.Planned.{Planned};

use crate::answer_queues::AnswerQueues;
use fwd_base::Memory;
use fwd_script::{Given, GivenList, PushWord};
use std::alloc::Global;
use std::collections::VecDeque;

/// The answers by kind, in order, and the links, numbered from 1.
#[derive(Debug, Drop)]
pub struct Answers {
    pub dials: AnswerQueues<bool>,
    pub pushes: AnswerQueues<PushWord>,
    pub replies: VecDeque<bool>,
    pub words: VecDeque<u64>,
    /// The output of each link. `None` if the link was closed.
    pub links: Vec<Option<u32>>,
}

impl Answers {
    /// Returns all answers of a run.
    pub fn new(alloc: Global, given: &GivenList) -> Result<Answers, Memory>
        ensures { IfOk result (λ answers. (lines : List Planned) → AnswersLeft answers (beginning (given_in lines given.now))) }
    {
        let mut answers = Answers {
            dials: AnswerQueues::new(alloc),
            pushes: AnswerQueues::new(alloc),
            replies: VecDeque::new(alloc),
            words: VecDeque::new(alloc),
            links: Vec::new(alloc),
        };
        for answer in given.as_slice() {
            answers.add(alloc, *answer)?;
        }
        Ok(answers)
    }

    /// Appends an answer to those of its kind.
    fn add(&mut self, alloc: Global, answer: Given) -> Result<(), Memory>
        ensures { OnOk result (Adds self.old self.new answer) }
    {
        match answer {
            Given::Dial { output, taken } => self.dials.add(alloc, output.0, taken)?,
            Given::Push { output, push } => self.pushes.add(alloc, output.0, push)?,
            Given::Reply { taken } => self.replies.push_back(taken)?,
            Given::Word(word) => self.words.push_back(word)?,
        }
        Ok(())
    }

    /// Dials an output. Returns the number of the link; `None` if the dial is refused. `Err` uses up
    /// nothing.
    pub fn dial(&mut self, output: u32) -> Result<Option<u64>, Memory>
        ensures answer { IfOk result (λ link. (p : Place) → AnswersLeft self.old p → link ≡ dialed p output) }
        ensures after { IfOk result (λ link. (p : Place) → AnswersLeft self.old p → AnswersLeft self.new (after_dial p output)) }
        ensures counted { IfOk result (λ link. length self.new.links.items ≡ unwrap_or link (length self.old.links.items)) }
        ensures newest { IfOk result (λ link. IfSome link (λ number. number ≡ length self.old.links.items + 1)) }
        ensures err { OnErr result ((p : Place) → AnswersLeft self.old p → AnswersLeft self.new p) }
        ensures err_links { OnErr result (self.new.links.items ≡ self.old.links.items) }
    {
        match self.number_for(output) {
            Some(number) => {
                self.links.push(Some(output))?;
                self.dials.take(output);
                Ok(Some(number))
            }
            None => {
                self.dials.take(output);
                Ok(None)
            }
        }
    }

    /// Returns the number of the link that a dial would give; `None` if it would be refused.
    fn number_for(&self, output: u32) -> Option<u64>
        ensures answer { (p : Place) → AnswersLeft self.now p → result ≡ dialed p output }
        ensures newest { IfSome result (λ number. number ≡ length self.now.links.items + 1) }
    {
        let taken = self.dials.next(output).unwrap_or(true);
        let given = self.links.len() as u64;
        if taken && given < u64::MAX {
            Some(given + 1)
        } else {
            None
        }
    }

    /// Returns the output of an open link.
    fn output_of(&self, link: u64) -> Option<u32>
        ensures { result ≡ output_of self.now.links.items link }
    {
        if link == 0 {
            return None;
        }
        match self.links.get((link - 1) as usize) {
            Some(output) => *output,
            None => None,
        }
    }

    /// Returns the answer to a push of `len` bytes. A link that isn't open is broken.
    pub fn push(&mut self, link: u64, len: u64) -> PushWord
        ensures answer { (p : Place) → AnswersLeft self.old p → word_answer result ≡ pushed p link len }
        ensures after { (p : Place) → AnswersLeft self.old p → AnswersLeft self.new (after_push p link) }
        ensures links { self.new.links.items ≡ self.old.links.items }
    {
        let Some(output) = self.output_of(link) else {
            return PushWord::Broken;
        };
        let word = self.pushes.next(output);
        self.pushes.take(output);
        limit_push(word, len)
    }

    /// Closes a link.
    pub fn close(&mut self, link: u64)
        ensures after { (p : Place) → AnswersLeft self.old p → AnswersLeft self.new (after_close p link) }
        ensures counted { length self.new.links.items ≡ length self.old.links.items }
    {
        if link > 0 && link - 1 < self.links.len() as u64 {
            self.links[(link - 1) as usize] = None;
        }
    }

    /// Returns whether a reply is written.
    pub fn reply(&mut self) -> bool
        ensures answer { (p : Place) → AnswersLeft self.old p → result ≡ replied p }
        ensures after { (p : Place) → AnswersLeft self.old p → AnswersLeft self.new (after_reply p) }
        ensures links { self.new.links.items ≡ self.old.links.items }
    {
        self.replies.pop_front().unwrap_or(true)
    }

    /// Returns a random word.
    pub fn word(&mut self) -> u64
        ensures answer { (p : Place) → AnswersLeft self.old p → result ≡ after_random p }
        ensures after { (p : Place) → AnswersLeft self.old p → AnswersLeft self.new (after_word p) }
        ensures links { self.new.links.items ≡ self.old.links.items }
    {
        self.words.pop_front().unwrap_or(0)
    }
}

/// Limits an answer to the length of the push; without an answer it is the whole length.
fn limit_push(word: Option<PushWord>, len: u64) -> PushWord
    ensures { word_answer result ≡ limit_push (option_map word_answer word) len }
{
    match word {
        Some(PushWord::Took(bytes)) => PushWord::Took(bytes.min(len)),
        Some(PushWord::Again) => PushWord::Again,
        Some(PushWord::Broken) => PushWord::Broken,
        None => PushWord::Took(len),
    }
}
