//! Reads the entries of a FILTER section into a step of the filters: a glob of tags, and the rules of its
//! plugin.

ghost use Rattle.std.specs.Prelude.{◌≡◌, IfOk};
ghost use Rattle.fwd_settings_entries.specs.Reading.{ReturnsResult, known};
ghost use Rattle.fwd_settings.specs.Filters.{filter_kind, operation_by, nest_by, lift_by, filter_from, glob_of};
ghost use Rattle.fwd_settings_schema.specs.Property.{text_at};

use fwd_base::{Bytes, Memory};
use fwd_config::Place;
use fwd_filters::{FilterKind, FilterStep};
use fwd_json::Floats;
use fwd_reshape::{LiftRule, NestRule};
use fwd_settings_entries::{ReadErr, refuse};
use fwd_settings_schema::{
    FilterPlugin, Key, Operation, Properties, Property, SettingKind, grep_rules, modify_rules,
    operation_at, own_text, text_or, wildcards,
};
use std::alloc::Global;

fn nest(alloc: Global, place: &Place, properties: &[Property]) -> Result<FilterKind, ReadErr>
    ensures { ReturnsResult (known (nest_by place.now properties.now (text_at Key.NestUnder properties.now))) result }
{
    let Some(under) = own_text(alloc, properties, Key::NestUnder)? else {
        return refuse(alloc, SettingKind::Missing, place);
    };
    let wildcards = wildcards(alloc, properties)?;
    if wildcards.len() == 0 {
        return refuse(alloc, SettingKind::Missing, place);
    }
    Ok(FilterKind::Nest(NestRule {
        wildcards,
        under,
        remove_prefix: text_or(alloc, properties, Key::RemovePrefix, b"")?,
        add_prefix: text_or(alloc, properties, Key::AddPrefix, b"")?,
    }))
}

fn lift(alloc: Global, place: &Place, properties: &[Property]) -> Result<FilterKind, ReadErr>
    ensures { ReturnsResult (known (lift_by place.now properties.now (text_at Key.NestedUnder properties.now))) result }
{
    let Some(under) = own_text(alloc, properties, Key::NestedUnder)? else {
        return refuse(alloc, SettingKind::Missing, place);
    };
    Ok(FilterKind::Lift(LiftRule {
        under,
        remove_prefix: text_or(alloc, properties, Key::RemovePrefix, b"")?,
        add_prefix: text_or(alloc, properties, Key::AddPrefix, b"")?,
    }))
}

fn nest_kind(
    alloc: Global,
    place: &Place,
    operation: Option<Operation>,
    properties: &[Property],
) -> Result<FilterKind, ReadErr>
    ensures { ReturnsResult (known (operation_by place.now properties.now operation)) result }
{
    match operation {
        Some(Operation::Nest) => nest(alloc, place, properties),
        Some(Operation::Lift) => lift(alloc, place, properties),
        None => refuse(alloc, SettingKind::Missing, place),
    }
}

/// Returns the rules of a filter.
fn filter_kind(
    alloc: Global,
    floats: Floats,
    plugin: FilterPlugin,
    place: &Place,
    properties: Properties,
) -> Result<FilterKind, ReadErr>
    ensures { ReturnsResult (known (filter_kind floats plugin place.now properties)) result }
{
    match plugin {
        FilterPlugin::Grep => Ok(FilterKind::Grep(grep_rules(alloc, floats, properties)?)),
        FilterPlugin::Modify => Ok(FilterKind::Modify(modify_rules(alloc, properties)?)),
        FilterPlugin::Nest => {
            let operation = operation_at(properties.as_slice(), Key::Operation);
            nest_kind(alloc, place, operation, properties.as_slice())
        }
    }
}

/// Returns the glob of the tags that a filter or an output matches, by default all.
pub fn glob_of(alloc: Global, properties: &[Property]) -> Result<Bytes, Memory>
    ensures { IfOk result (λ glob. glob ≡ glob_of properties.now) }
{
    text_or(alloc, properties, Key::Match, b"*")
}

/// Returns the settings of a filter.
pub fn filter_from(
    alloc: Global,
    floats: Floats,
    plugin: FilterPlugin,
    place: &Place,
    properties: Properties,
) -> Result<FilterStep, ReadErr>
    ensures { ReturnsResult (known (filter_from floats plugin place.now properties)) result }
{
    let glob = glob_of(alloc, properties.as_slice())?;
    let kind = filter_kind(alloc, floats, plugin, place, properties)?;
    Ok(FilterStep { glob, kind })
}
