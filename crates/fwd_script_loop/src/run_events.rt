//! The remaining events of a run.

ghost use Rattle.std.specs.Prelude.{◌≡◌, IfOk, find, map, false};
ghost use Rattle.fwd_outside.specs.Loop.{MayOccur};
ghost use Rattle.fwd_script_loop.specs.PauseMask.{happening_of, hears, next_happening};
ghost use Rattle.fwd_script_loop.specs.FirstMatch.{IsFirst, without_first};
ghost use Rattle.fwd_script_loop.specs.Lines.{coming, ends_life, line_ahead, place_in};
ghost use Rattle.fwd_script_loop.specs.RunEvents.{Fetches, Finds, ahead_of};

use crate::lines_left::LinesLeft;
use crate::masks::is_heard;
use crate::queue::{Coming, Queue};
use fwd_base::Memory;
use fwd_outside::Happening;
use fwd_script::Plan;
use std::alloc::Global;

/// What was moved into the queue.
enum MovedEvent {
    /// A loop event. `heard` says whether its input isn't paused.
    Coming { heard: bool },
    /// Nothing, since no event is left.
    Nothing,
}

/// The remaining loop events of a run: a queue of those that were skipped because their inputs were paused,
/// and the lines not reached yet.
#[derive(Debug, Drop)]
pub struct RunEvents {
    pub queue: Queue,
    pub unread: LinesLeft,
}

impl RunEvents {
    /// Returns the events of all lines.
    pub fn new(alloc: Global, lines: &Plan) -> Result<RunEvents, Memory>
        ensures lines { IfOk result (λ c. c.unread.lines ≡ lines.now) }
        ensures ahead { IfOk result (λ c. ahead_of c ≡ coming 0 lines.now) }
    {
        Ok(RunEvents {
            queue: Queue::new(alloc),
            unread: LinesLeft::new(alloc, lines)?,
        })
    }

    /// Moves the first event of the lines not reached yet into the queue. The remaining events stay the
    /// same.
    fn fetch(&mut self, alloc: Global, paused: u64) -> Result<MovedEvent, Memory>
        ensures lines { self.new.unread.lines ≡ self.old.unread.lines }
        ensures same { ahead_of self.new ≡ ahead_of self.old }
        ensures fetched { IfOk result (Fetches paused self.old self.new) }
    {
        self.unread.settle();
        match self.unread.first(alloc)? {
            Some(coming) => {
                let heard = is_heard(paused, &coming.happening);
                self.queue.push(coming)?;
                self.unread.skip();
                Ok(MovedEvent::Coming { heard })
            }
            None => Ok(MovedEvent::Nothing),
        }
    }

    /// Returns the index in the queue of the first event whose input isn't paused. The remaining events stay
    /// the same.
    pub fn seek(&mut self, alloc: Global, paused: u64) -> Result<Option<usize>, Memory>
        ensures lines { self.new.unread.lines ≡ self.old.unread.lines }
        ensures same { ahead_of self.new ≡ ahead_of self.old }
        ensures found { IfOk result (Finds paused self.new) }
    {
        if let Some(at) = self.queue.first_unpaused(paused) {
            return Ok(Some(at));
        }
        'lines: loop {
            let at = self.queue.len();
            match self.fetch(alloc, paused)? {
                MovedEvent::Coming { heard } => {
                    if heard {
                        return Ok(Some(at));
                    }
                }
                MovedEvent::Nothing => return Ok(None),
            }
        }
    }

    /// Returns a copy of the first event whose input isn't paused.
    pub fn copy(&self, alloc: Global, paused: u64, at: usize) -> Result<Happening, Memory>
        requires { IsFirst (hears paused) self.now.queue at }
        ensures { IfOk result (λ copy. next_happening paused (map happening_of (ahead_of self.now)) ≡ copy) }
    {
        match self.queue.get(at) {
            Some(coming) => Ok(coming.happening.try_clone(alloc)?),
            None => unreachable!(),
        }
    }

    /// Removes and returns the first event whose input isn't paused.
    pub fn take(&mut self, paused: u64, at: usize) -> Happening
        requires { IsFirst (hears paused) self.old.queue at }
        ensures lines { self.new.unread.lines ≡ self.old.unread.lines }
        ensures first { next_happening paused (map happening_of (ahead_of self.old)) ≡ result }
        ensures rest { ahead_of self.new ≡ without_first (hears paused) (ahead_of self.old) }
        ensures may_come { MayOccur false paused result }
    {
        self.queue.take(paused, at).happening
    }

    /// Returns the line of the first event whose input isn't paused, or the number of lines if there is
    /// none. The remaining events stay the same.
    pub fn line_ahead(&mut self, alloc: Global, paused: u64) -> Result<usize, Memory>
        ensures lines { self.new.unread.lines ≡ self.old.unread.lines }
        ensures same { ahead_of self.new ≡ ahead_of self.old }
        ensures line { IfOk result (λ line. line ≡ line_ahead self.new.unread.lines (find (hears paused) (ahead_of self.new))) }
    {
        match self.seek(alloc, paused)? {
            Some(at) => match self.queue.get(at) {
                Some(coming) => Ok(coming.line),
                None => unreachable!(),
            },
            None => Ok(self.unread.lines.len()),
        }
    }

    /// Returns the place of the first event whose input isn't paused: its line, and how many events of that
    /// line follow it. `None` if there is none.
    pub fn place_ahead(&self, paused: u64) -> Option<(usize, u64)>
        ensures { result ≡ place_in (find (hears paused) (ahead_of self.now)) }
    {
        match self.queue.first_unpaused(paused) {
            Some(at) => match self.queue.get(at) {
                Some(coming) => Some((coming.line, coming.behind)),
                None => None,
            },
            None => self.unread.next_unpaused(paused),
        }
    }

    /// Returns whether the first event whose input isn't paused is the last event of the run.
    pub fn ends_life(&self, paused: u64) -> bool
        ensures { result ≡ ends_life self.now.unread.lines (find (hears paused) (ahead_of self.now)) }
    {
        match self.queue.first_unpaused(paused) {
            Some(at) => match self.queue.get(at) {
                Some(coming) => self.unread.is_last(coming.line, coming.behind),
                None => false,
            },
            None => match self.unread.next_unpaused(paused) {
                Some(place) => self.unread.is_last(place.0, place.1),
                None => false,
            },
        }
    }
}
