//! The lines of a run that weren't reached yet.

ghost use Rattle.std.specs.Prelude.{◌≡◌, ◌+◌, ℕ, ◌++◌, ◌-◌, ◌^◌, min, List, Some, drop, find, not, is_none, option_map, IfOk, IfSome, true};
ghost use Rattle.fwd_outside.specs.declared.happening.Happening.TheVariants as happening;
ghost use Rattle.fwd_script_loop.specs.PauseMask.{comes, hears};
ghost use Rattle.fwd_script_loop.specs.FirstMatch.{first_in};
ghost use Rattle.fwd_script_loop.specs.Lines.{events_of_line, coming, is_last, place_in};
ghost use Rattle.fwd_script_loop.specs.LinesLeft.{Brings, IsReady, unread};
ghost use Rattle.fwd_script_loop.specs.declared.queue.Coming.{Coming};

use crate::copies::copy_of_lines;
use crate::masks::{comes, is_heard};
use crate::queue::Coming;
use fwd_base::Memory;
use fwd_outside::Happening;
use fwd_script::{Plan, Planned};
use std::alloc::Global;

/// The remaining clock readings of a line.
#[derive(Clone, Copy, Debug)]
pub struct TicksLeft {
    pub line: usize,
    pub reading: u64,
    pub step: u64,
    pub count: u64,
}

/// All lines of a run, with the place that was reached.
#[derive(Debug, Drop)]
pub struct LinesLeft {
    pub lines: Plan,
    /// The index of the next line.
    pub at: usize,
    /// The remaining clock readings of the line before it.
    pub ticks: TicksLeft,
}

impl LinesLeft {
    /// Returns all lines, none of them reached.
    pub fn new(alloc: Global, lines: &Plan) -> Result<LinesLeft, Memory>
        ensures lines { IfOk result (λ u. u.lines ≡ lines.now) }
        ensures at { IfOk result (λ u. u.at ≡ 0) }
        ensures ticks { IfOk result (λ u. u.ticks.count ≡ 0) }
    {
        Ok(LinesLeft {
            lines: copy_of_lines(alloc, lines)?,
            at: 0,
            ticks: TicksLeft {
                line: 0,
                reading: 0,
                step: 0,
                count: 0,
            },
        })
    }

    /// Moves to the first line with a loop event.
    pub fn settle(&mut self)
        ensures lines { self.new.lines ≡ self.old.lines }
        ensures same { unread self.new ≡ unread self.old }
        ensures ready { IsReady self.new }
    {
        'lines: while self.ticks.count == 0 && self.at < self.lines.len() {
            match self.lines.get(self.at) {
                Some(Planned::Happens(happening)) => {
                    if comes(happening) {
                        return;
                    }
                }
                Some(Planned::Ticks { first, step, count }) => {
                    self.ticks = TicksLeft {
                        line: self.at,
                        reading: *first,
                        step: *step,
                        count: *count,
                    };
                }
                Some(Planned::Changes(_)) => {}
                None => return,
            }
            self.at += 1;
        }
    }

    /// Returns a copy of the first event.
    pub fn first(&self, alloc: Global) -> Result<Option<Coming>, Memory>
        requires { IsReady self.now }
        ensures first { IfOk result (λ first. first ≡ first_in (unread self.now)) }
        ensures comes { IfOk result (λ first. IfSome first (λ coming. comes coming.happening ≡ true)) }
    {
        if self.ticks.count > 0 {
            return Ok(Some(Coming {
                line: self.ticks.line,
                behind: self.ticks.count - 1,
                happening: tick(self.ticks.reading),
            }));
        }
        match self.lines.get(self.at) {
            Some(planned) => Ok(first_of(alloc, self.at, planned)?),
            None => Ok(None),
        }
    }

    /// Moves past the first event.
    pub fn skip(&mut self)
        requires { IsReady self.old }
        ensures lines { self.new.lines ≡ self.old.lines }
        ensures rest { unread self.new ≡ drop 1 (unread self.old) }
    {
        if self.ticks.count > 0 {
            self.ticks.count -= 1;
            self.ticks.reading = self.ticks.reading.saturating_add(self.ticks.step);
        } else if self.at < self.lines.len() {
            self.at += 1;
        }
    }

    /// Returns the place of the first event whose input isn't paused: its line, and how many clock readings
    /// of the line follow it.
    pub fn next_unpaused(&self, paused: u64) -> Option<(usize, u64)>
        ensures { result ≡ place_in (find (hears paused) (unread self.now)) }
    {
        if self.ticks.count > 0 {
            return Some((self.ticks.line, self.ticks.count - 1));
        }
        unpaused_from(self.lines.as_slice(), self.at, paused)
    }

    /// Returns whether no event of the run follows that place.
    pub fn is_last(&self, line: usize, behind: u64) -> bool
        ensures { result ≡ is_last self.now.lines line behind }
    {
        is_last(&self.lines, line, behind)
    }
}

/// Returns whether no event of the lines follows that place.
pub fn is_last(lines: &Plan, line: usize, behind: u64) -> bool
    ensures { result ≡ is_last lines.now line behind }
{
    behind == 0 && is_last_with_event(lines, line)
}

/// Returns a clock reading.
fn tick(now: u64) -> Happening
    ensures { result ≡ happening.Tick (min now (2 ^ 64 - 1)) }
{
    Happening::Tick { now }
}

/// Returns a copy of a line's first event; `None` if the line has none.
fn first_of(alloc: Global, line: usize, planned: &Planned) -> Result<Option<Coming>, Memory>
    requires { Brings (Some planned.now) }
    ensures first { IfOk result (λ first. (rest : List Coming) → first ≡ first_in (events_of_line line planned.now ++ rest)) }
    ensures comes { IfOk result (λ first. IfSome first (λ coming. comes coming.happening ≡ true)) }
{
    match planned {
        Planned::Happens(happening) => Ok(Some(Coming {
            line,
            behind: 0,
            happening: happening.try_clone(alloc)?,
        })),
        Planned::Ticks {
            first: _,
            step: _,
            count: _,
        } => Ok(None),
        Planned::Changes(_) => Ok(None),
    }
}

/// Returns the place of the first event whose input isn't paused, from a line on.
fn unpaused_from(lines: &[Planned], from: usize, paused: u64) -> Option<(usize, u64)>
    ensures { result ≡ place_in (find (hears paused) (coming from (drop from lines.now))) }
{
    for i in from..lines.len() {
        if let Some(behind) = unpaused_in(&lines[i], paused) {
            return Some((i, behind));
        }
    }
    None
}

/// Returns whether no line after that one has an event.
#[tactic(auto, using(crate::proofs::LineSteps::coming_over))]
fn is_last_with_event(lines: &Plan, line: usize) -> bool
    ensures { result ≡ is_none (first_in (coming (line + 1) (drop (line + 1) lines.now))) }
{
    let len = lines.len();
    if line >= len {
        return true;
    }
    let from = line + 1;
    for i in from..len {
        if let Some(planned) = lines.get(i) {
            if has_event(planned) {
                return false;
            }
        }
    }
    true
}

/// Returns whether a line has an event.
fn has_event(planned: &Planned) -> bool
    ensures { (line : ℕ) → is_none (first_in (events_of_line line planned.now)) ≡ not result }
{
    match planned {
        Planned::Happens(happening) => comes(happening),
        Planned::Ticks {
            first: _,
            step: _,
            count,
        } => *count > 0,
        Planned::Changes(_) => false,
    }
}

/// If a line has an event whose input isn't paused, returns how many clock readings follow it.
fn unpaused_in(planned: &Planned, paused: u64) -> Option<u64>
    ensures { (line : ℕ) → place_in (find (hears paused) (events_of_line line planned.now)) ≡ option_map (λ behind. (line, behind)) result }
{
    match planned {
        Planned::Happens(happening) => {
            if comes(happening) && is_heard(paused, happening) {
                Some(0)
            } else {
                None
            }
        }
        Planned::Ticks {
            first: _,
            step: _,
            count,
        } => count.checked_sub(1),
        Planned::Changes(_) => None,
    }
}
