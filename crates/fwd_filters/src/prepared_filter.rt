//! Filters prepared for many events.

ghost use Rattle.std.specs.Prelude.{◌≡◌, ℕ, List, map, IfOk};
ghost use Rattle.fwd_filters.specs.declared.filter_step.FilterKind.{FilterKind as TheKind};
ghost use Rattle.fwd_filters.specs.FilterRelation.{AreMatching};
ghost use Rattle.fwd_filters.specs.Step.{step_of, through};
ghost use Rattle.fwd_filters.specs.FilterFunction.{matching};
ghost use Rattle.fwd_filters.specs.Prepared.{kind_of, remaining_of};

use crate::record_filters::{lift_event, modify_event, nest_event};
use crate::{FilterKind, FilterStep, FilterSteps};
use fwd_base::Memory;
use fwd_event::Event;
use fwd_grep::GrepSearches;
use fwd_reshape::{LiftRule, ModifyRules, NestRule};
use fwd_route::matches;
use std::alloc::Global;

/// A prepared filter. The rules of a grep have their searches.
#[derive(Drop)]
pub enum PreparedFilter<'f> {
    Grep(GrepSearches<'f>),
    Modify(&'f ModifyRules),
    Nest(&'f NestRule),
    Lift(&'f LiftRule),
}

/// Filters that several threads may share; each thread prepares them for itself.
pub trait Filters {
    // The filters under a tag, in order.
    ghost kinds: { Self → List ℕ → List TheKind };

    /// Returns the filters under the tag, prepared, in order.
    fn ready(&self, alloc: Global, tag: &[u8]) -> Result<Vec<PreparedFilter<'_>>, Memory>
        ensures { IfOk result (λ filters. map kind_of filters.items ≡ kinds self.now tag.now) };

    /// Returns whether the filters under the tag change no event, and only drop some.
    fn only_drop(&self, tag: &[u8]) -> bool;
}

impl Filters for FilterSteps {
    ghost kinds = { λ steps tag. matching tag steps };

    fn ready(&self, alloc: Global, tag: &[u8]) -> Result<Vec<PreparedFilter<'_>>, Memory> {
        prepare_filters(alloc, self.as_slice(), tag)
    }

    fn only_drop(&self, tag: &[u8]) -> bool {
        for step in self.as_slice() {
            if matches(step.glob.as_slice(), tag) && changes(&step.kind) {
                return false;
            }
        }
        true
    }
}

/// Returns whether a filter may change an event.
fn changes(kind: &FilterKind) -> bool {
    match kind {
        FilterKind::Grep(_) => false,
        FilterKind::Modify(_) | FilterKind::Nest(_) | FilterKind::Lift(_) => true,
    }
}

/// Returns the filters whose glob matches the tag, prepared, in order.
fn prepare_filters<'f>(
    alloc: Global,
    steps: &'f [FilterStep],
    tag: &[u8],
) -> Result<Vec<PreparedFilter<'f>>, Memory>
    ensures { IfOk result (λ filters. AreMatching tag.now steps.now (map kind_of filters.items)) }
{
    let mut filters = Vec::new(alloc);
    for step in steps {
        if matches(step.glob.as_slice(), tag) {
            filters.push(ready(alloc, &step.kind)?)?;
        }
    }
    Ok(filters)
}

fn ready(alloc: Global, kind: &FilterKind) -> Result<PreparedFilter<'_>, Memory>
    ensures { IfOk result (λ filter. kind_of filter ≡ kind.now) }
{
    match kind {
        FilterKind::Grep(rules) => Ok(PreparedFilter::Grep(GrepSearches::new(alloc, rules)?)),
        FilterKind::Modify(rules) => Ok(PreparedFilter::Modify(rules)),
        FilterKind::Nest(rule) => Ok(PreparedFilter::Nest(rule)),
        FilterKind::Lift(rule) => Ok(PreparedFilter::Lift(rule)),
    }
}

/// An event after filters. A dropped event is returned, so that the thread that allocated it can free it.
#[derive(Debug, Drop)]
pub enum FilterOutcome {
    Left(Event),
    Dropped(Event),
}

/// Applies one filter to the event.
fn apply_one(
    alloc: Global,
    filter: &mut PreparedFilter<'_>,
    event: Event,
) -> Result<FilterOutcome, Memory>
    ensures after { IfOk result (λ after. remaining_of after ≡ step_of (kind_of filter.old) event) }
    ensures same { kind_of filter.new ≡ kind_of filter.old }
{
    match filter {
        PreparedFilter::Grep(searches) => {
            if searches.keeps(&event.body) {
                Ok(FilterOutcome::Left(event))
            } else {
                Ok(FilterOutcome::Dropped(event))
            }
        }
        PreparedFilter::Modify(rules) => Ok(FilterOutcome::Left(modify_event(
            alloc, rules, event,
        )?)),
        PreparedFilter::Nest(rule) => Ok(FilterOutcome::Left(nest_event(alloc, rule, event)?)),
        PreparedFilter::Lift(rule) => Ok(FilterOutcome::Left(lift_event(alloc, rule, event)?)),
    }
}

/// Applies the filters to the event, one after another, until one drops it.
pub fn apply_all(
    alloc: Global,
    filters: &mut Vec<PreparedFilter<'_>>,
    event: Event,
) -> Result<FilterOutcome, Memory>
    ensures after { IfOk result (λ after. remaining_of after
        ≡ through (map kind_of filters.old.items) event) }
    ensures same { map kind_of filters.new.items ≡ map kind_of filters.old.items }
{
    let mut left = event;
    for i in 0..filters.len() {
        match apply_one(alloc, &mut filters[i], left)? {
            FilterOutcome::Left(event) => left = event,
            FilterOutcome::Dropped(event) => return Ok(FilterOutcome::Dropped(event)),
        }
    }
    Ok(FilterOutcome::Left(left))
}
