//! Routes: the outputs that a chunk is pending for.

ghost use Rattle.std.specs.Prelude.{◌≡◌, ◌==◌, ◌≤◌, [], ◌++◌, fold, filter, find, length, map, nat_le};
ghost use Rattle.std.specs.Prelude.{not, OnOk, option_copied, option_map, vec_capacity, if◌then◌else◌};
ghost use Rattle.fwd_base.specs.Limits.{most_outputs};
ghost use Rattle.fwd_retry.specs.declared.timer.Timer.{Timer};
ghost use Rattle.fwd_retry.specs.Timer.{earlier as earlier_of, is_next};
ghost use Rattle.fwd_table_rows.specs.Routes.{idle_at, due_at, is_to, on_output, without_output, timer_of};
ghost use Rattle.fwd_table_rows.specs.Routes.{idle_timers, tries_to, routes_below, routes_to, mask_of};
ghost use Rattle.fwd_table_rows.specs.Routes.{flying_of, IsMaskOf, RiseFrom};
ghost use Rattle.fwd_table_rows.specs.Changes.{with_change};

use fwd_base::limits::MOST_OUTPUTS;
use fwd_base::{ChunkId, Memory, OutputId, is_set};
use fwd_retry::{Timer, earlier};
use std::alloc::Global;
use std::marker::Model;
use std::mem;

/// An output that a chunk is pending for.
#[derive(Clone, Copy, Debug, PartialEq, Eq)]
pub struct Route {
    pub output: OutputId,
    /// The time in milliseconds from which a flush may start.
    pub due: u64,
    /// How many flushes have failed.
    pub tries: u64,
    /// Whether a flush is in flight.
    pub flying: bool,
}

/// A change of a route that stays pending.
#[derive(Clone, Copy, Debug, PartialEq, Eq)]
pub enum Change {
    Starts,
    Stays,
    Retries { due: u64 },
}

impl Route {
    /// Returns a route that is idle, due at a time and not tried yet.
    fn idle_at(output: OutputId, due: u64) -> Route
        ensures { result ≡ idle_at due output }
    {
        Route {
            output,
            due,
            tries: 0,
            flying: false,
        }
    }

    fn with_change(self, change: Change) -> Route
        ensures { result ≡ with_change change self }
    {
        match change {
            Change::Starts => Route {
                flying: true,
                ..self
            },
            Change::Stays => Route {
                flying: false,
                ..self
            },
            Change::Retries { due } => Route {
                due,
                tries: self.tries.saturating_add(1),
                flying: false,
                ..self
            },
        }
    }

    /// Returns the route, changed if it is the one to this output.
    fn with_change_at(self, output: OutputId, change: Change) -> Route
        ensures { result ≡ (if is_to output self then with_change change self else self) }
    {
        if self.output == output {
            self.with_change(change)
        } else {
            self
        }
    }

    /// Returns the timer of the route, which is one of a chunk.
    pub fn timer(self, chunk: ChunkId) -> Timer
        ensures { result ≡ timer_of chunk self }
    {
        Timer {
            due: self.due,
            chunk,
            output: self.output,
        }
    }
}

/// Adds the routes to the outputs below `end` whose bits are set.
fn put_routes(routes: &mut Vec<Route>, owed: u64, end: u32)
    requires within { end ≤ most_outputs }
    requires none { routes.old.items ≡ [] }
    requires room { end ≤ vec_capacity routes.old }
    ensures { routes.new.items ≡ routes_below end owed }
{
    for output in 0..end {
        if is_set(owed, output) {
            routes.push_reserved(Route::idle_at(OutputId(output), 0));
        }
    }
}

fn find_route(routes: &[Route], output: OutputId) -> Option<&Route>
    ensures { option_copied result ≡ find (is_to output) routes.now }
{
    routes.iter().find(|route| route.output == output)
}

fn begin_routes(routes: &mut [Route], due: u64)
    ensures { routes.new ≡ map (due_at due) routes.old }
{
    for route in routes.iter_mut() {
        route.due = due;
    }
}

fn change_routes(routes: &mut [Route], output: OutputId, change: Change)
    ensures { routes.new ≡ on_output output (with_change change) routes.old }
{
    for route in routes.iter_mut() {
        *route = route.with_change_at(output, change);
    }
}

/// The routes of a chunk, ordered by output.
#[derive(Debug, Drop)]
pub struct Routes {
    routes: Vec<Route>,
}

impl Model for Routes {
    ghost use Rattle.std.specs.Prelude.{List};
    ghost use Rattle.fwd_table_rows.specs.declared.route.Route.{Route};
    ghost use Rattle.fwd_table_rows.specs.Routes.{RiseFrom};

    ghost Value = { List Route };

    ghost view = { λ r. r.routes.items };

    ghost invariant = { λ r. RiseFrom 0 r.routes.items };
}

impl Routes {
    /// Returns the routes to the outputs whose bits are set, not due yet. They go into `storage`, which
    /// needs room for all outputs; this allocates nothing.
    pub fn to(mut storage: Vec<Route>, owed: u64) -> Self
        requires { most_outputs ≤ vec_capacity storage }
        ensures value { result ≡ routes_to owed }
        ensures bits { IsMaskOf (routes_to owed) owed }
    {
        storage.clear();
        put_routes(&mut storage, owed, MOST_OUTPUTS as u32);
        Routes { routes: storage }
    }

    /// Moves the routes to a list of exactly their number, and returns the list that they had.
    pub fn tighten(&mut self, alloc: Global) -> Result<Vec<Route>, Memory>
        ensures { self.new ≡ self.old }
    {
        let mut tight = Vec::with_capacity(alloc, self.routes.len())?;
        tight.extend_from_slice(&self.routes)?;
        Ok(mem::replace(&mut self.routes, tight))
    }

    pub fn is_empty(&self) -> bool
        ensures { result ≡ (length self.now == 0) }
    {
        self.routes.is_empty()
    }

    pub fn as_slice(&self) -> &[Route]
        ensures value { result.now ≡ self.now }
        ensures rise { RiseFrom 0 self.now }
    {
        self.routes.as_slice()
    }

    /// Returns whether a flush of one of them is in flight.
    pub fn any_flies(&self) -> bool
        ensures { result ≡ not (length (flying_of self.now) == 0) }
    {
        self.routes.iter().any(|route| route.flying)
    }

    /// Returns whether the flush to an output is in flight; `None` if the route isn't pending.
    pub fn is_flying(&self, output: OutputId) -> Option<bool>
        ensures { result ≡ option_map (λ r. r.flying) (find (is_to output) self.now) }
    {
        match find_route(&self.routes, output) {
            Some(route) => Some(route.flying),
            None => None,
        }
    }

    /// Returns how many flushes to an output have failed; 0 if the route isn't pending.
    pub fn tries(&self, output: OutputId) -> u64
        ensures { result ≡ tries_to output self.now }
    {
        match find_route(&self.routes, output) {
            Some(route) => route.tries,
            None => 0,
        }
    }

    /// Makes all routes due at a time.
    pub fn begin(&mut self, due: u64)
        ensures { self.new ≡ map (due_at due) self.old }
    {
        begin_routes(&mut self.routes, due);
    }

    /// Changes the route to an output, if it is pending.
    pub fn change(&mut self, output: OutputId, change: Change)
        ensures { self.new ≡ on_output output (with_change change) self.old }
    {
        change_routes(&mut self.routes, output, change);
    }

    /// Removes the route to an output, if it is pending.
    pub fn remove(&mut self, output: OutputId)
        ensures { self.new ≡ without_output output self.old }
    {
        self.routes.retain(|route| route.output != output);
    }

    /// Returns the mask of the outputs.
    pub fn owed(&self) -> u64
        ensures value { result ≡ mask_of self.now }
        ensures bits { IsMaskOf self.now result }
    {
        let mut mask: u64 = 0;
        for route in &self.routes {
            mask |= 1 << route.output.0;
        }
        mask
    }

    /// Returns the mask of the outputs with a flush in flight.
    pub fn flying_mask(&self) -> u64
        ensures value { result ≡ mask_of (flying_of self.now) }
        ensures bits { IsMaskOf (flying_of self.now) result }
    {
        let mut mask: u64 = 0;
        for route in &self.routes {
            if route.flying {
                mask |= 1 << route.output.0;
            }
        }
        mask
    }

    /// Returns the first of `first` and the timers of the idle routes that are due at `now` and come after
    /// `after`.
    pub fn next(
        &self,
        chunk: ChunkId,
        now: u64,
        after: Option<Timer>,
        first: Option<Timer>,
    ) -> Option<Timer>
        ensures { result ≡ fold (λ found timer. Some (earlier_of found timer)) first
            (filter (is_next now after) (idle_timers chunk self.now)) }
    {
        let mut first = first;
        for route in &self.routes {
            let timer = route.timer(chunk);
            if !route.flying && timer.is_next(now, after) {
                first = Some(earlier(first, timer));
            }
        }
        first
    }

    /// Appends the timers of the idle routes that are due at `now`.
    pub fn put_due(&self, chunk: ChunkId, now: u64, timers: &mut Vec<Timer>) -> Result<(), Memory>
        ensures { OnOk result
            (timers.new.items
            ≡ timers.old.items ++ filter (λ (t : Timer). nat_le t.due now) (idle_timers chunk self.now)) }
    {
        for route in &self.routes {
            if !route.flying && route.due <= now {
                timers.push(route.timer(chunk))?;
            }
        }
        Ok(())
    }
}
