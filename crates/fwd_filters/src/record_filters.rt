//! Filters that change the record of an event.

ghost use Rattle.std.specs.Prelude.{◌≡◌, IfOk, Some};
ghost use Rattle.fwd_filters.specs.Step.{step_of};
ghost use Rattle.fwd_filters.specs.declared.filter_step.FilterKind.TheVariants as kind;

use fwd_base::Memory;
use fwd_event::Event;
use fwd_reshape::{LiftRule, ModifyRules, NestRule, lift, modify, nest};
use std::alloc::Global;

/// Applies the rules of a `modify` filter to the record of an event.
pub fn modify_event(alloc: Global, rules: &ModifyRules, event: Event) -> Result<Event, Memory>
    ensures { IfOk result (λ after. Some after ≡ step_of (kind.Modify rules.now) event) }
{
    let Event {
        sec,
        nsec,
        meta,
        body,
    } = event;
    let body = modify(alloc, rules, body)?;
    Ok(Event {
        sec,
        nsec,
        meta,
        body,
    })
}

/// Applies the rule of a `nest` filter that nests to the record of an event.
pub fn nest_event(alloc: Global, rule: &NestRule, event: Event) -> Result<Event, Memory>
    ensures { IfOk result (λ after. Some after ≡ step_of (kind.Nest rule.now) event) }
{
    let Event {
        sec,
        nsec,
        meta,
        body,
    } = event;
    let body = nest(alloc, rule, body)?;
    Ok(Event {
        sec,
        nsec,
        meta,
        body,
    })
}

/// Applies the rule of a `nest` filter that lifts to the record of an event.
pub fn lift_event(alloc: Global, rule: &LiftRule, event: Event) -> Result<Event, Memory>
    ensures { IfOk result (λ after. Some after ≡ step_of (kind.Lift rule.now) event) }
{
    let Event {
        sec,
        nsec,
        meta,
        body,
    } = event;
    let body = lift(alloc, rule, body)?;
    Ok(Event {
        sec,
        nsec,
        meta,
        body,
    })
}
