//! Checks sections in order, and collects their settings.

ghost use Rattle.std.specs.Prelude.{◌≡◌, ◌++◌, ℕ, List, Bool, IfOk, OnOk};
ghost use Rattle.std.specs.List.{list_any};
ghost use Rattle.fwd_settings_schema.specs.Keys.{head_of};
ghost use Rattle.fwd_settings_entries.specs.Reading.{ReturnsResult, known};
ghost use Rattle.fwd_settings.specs.Inputs.{has_path, input_from};
ghost use Rattle.fwd_settings.specs.Filters.{filter_from};
ghost use Rattle.fwd_settings.specs.Floats.{floats_in};
ghost use Rattle.fwd_settings.specs.Outputs.{output_from};
ghost use Rattle.fwd_settings_entries.specs.Parsers.{name_entry};
ghost use Rattle.fwd_settings.specs.Settings.{nothing, is_full, by_name, of_header, part_of, entries_here, with_target, with_input, with_filter, with_output, with_section, with_sections, all_of, settings_of, AreSettingsOf};
ghost use Rattle.fwd_settings.specs.Requirements.{MeetsRequirements};

use crate::filters::filter_from;
use crate::floats::floats_in;
use crate::inputs::{any_path, input_from};
use crate::outputs::output_from;
use crate::service::service_of;
use crate::{AllSettings, InputSets, OutputSets, SettingFault};
use fwd_base::Memory;
use fwd_base::limits::{MOST_INPUTS, MOST_OUTPUTS};
use fwd_config::{Entry, Place, Section, Sections};
use fwd_filters::FilterSteps;
use fwd_json::Floats;
use fwd_settings_entries::{ReadErr, name_entry, read_entries, refuse};
use fwd_settings_schema::{
    FilterPlugin, InputPlugin, OutputPlugin, Properties, SectionKind, SettingKind, Target,
};
use std::alloc::Global;

/// The settings of the sections so far.
#[derive(Drop)]
pub struct PartialSettings {
    /// The entries of the SERVICE sections.
    pub service: Properties,
    pub inputs: InputSets,
    pub filters: FilterSteps,
    pub outputs: OutputSets,
    /// What floats are, by all SERVICE sections.
    pub floats: Floats,
}

impl PartialSettings {
    fn new(alloc: Global, floats: Floats) -> Self
        ensures { result ≡ nothing floats }
    {
        PartialSettings {
            service: Properties::new(alloc),
            inputs: InputSets::new(alloc),
            filters: FilterSteps::new(alloc),
            outputs: OutputSets::new(alloc),
            floats,
        }
    }

    /// Returns whether there may be no more sections of this kind.
    fn is_full(&self, head: SectionKind) -> bool
        ensures { result ≡ is_full self.now head }
    {
        match head {
            SectionKind::Input => self.inputs.len() >= MOST_INPUTS,
            SectionKind::Output => self.outputs.len() >= MOST_OUTPUTS,
            SectionKind::Service | SectionKind::Parser | SectionKind::Filter => false,
        }
    }

    /// Returns what a section configures, by its header and its Name.
    fn part_of(&self, alloc: Global, section: &Section) -> Result<Target, ReadErr>
        ensures { ReturnsResult (known (part_of self.now section.now)) result }
    {
        let Some(head) = SectionKind::of(section.name.as_slice()) else {
            return refuse(alloc, SettingKind::UnknownSection, &section.place);
        };
        if let SectionKind::Service = head {
            return Ok(Target::Service);
        }
        if self.is_full(head) {
            return refuse(alloc, SettingKind::TooMany, &section.place);
        }
        by_name(alloc, head, section)
    }

    /// Adds the settings of a section that configures this part.
    fn with_target(
        self,
        alloc: Global,
        path: bool,
        target: Target,
        place: &Place,
        properties: Properties,
    ) -> Result<PartialSettings, ReadErr>
        ensures { ReturnsResult (known (with_target path self target place.now properties)) result }
    {
        match target {
            Target::Service => self.with_service(properties),
            Target::Parser => Ok(self),
            Target::Input(plugin) => self.with_input(alloc, path, plugin, place, properties),
            Target::Filter(plugin) => self.with_filter(alloc, plugin, place, properties),
            Target::Output(plugin) => self.with_output(alloc, plugin, place, properties),
        }
    }

    fn with_service(self, properties: Properties) -> Result<PartialSettings, ReadErr>
        ensures { ReturnsResult (known (Ok (record self { service = self.service ++ properties }))) result }
    {
        let mut partial = self;
        for item in properties.into_vec() {
            partial.service.push(item)?;
        }
        Ok(partial)
    }

    fn with_input(
        self,
        alloc: Global,
        path: bool,
        plugin: InputPlugin,
        place: &Place,
        properties: Properties,
    ) -> Result<PartialSettings, ReadErr>
        ensures { ReturnsResult (known (with_input self (input_from path self.floats plugin place.now self.inputs properties))) result }
    {
        let mut partial = self;
        let set = input_from(
            alloc,
            path,
            partial.floats,
            plugin,
            place,
            partial.inputs.as_slice(),
            properties,
        )?;
        partial.inputs.push(set)?;
        Ok(partial)
    }

    fn with_filter(
        self,
        alloc: Global,
        plugin: FilterPlugin,
        place: &Place,
        properties: Properties,
    ) -> Result<PartialSettings, ReadErr>
        ensures { ReturnsResult (known (with_filter self (filter_from self.floats plugin place.now properties))) result }
    {
        let mut partial = self;
        let step = filter_from(alloc, partial.floats, plugin, place, properties)?;
        partial.filters.push(step)?;
        Ok(partial)
    }

    fn with_output(
        self,
        alloc: Global,
        plugin: OutputPlugin,
        place: &Place,
        properties: Properties,
    ) -> Result<PartialSettings, ReadErr>
        ensures { ReturnsResult (known (with_output self (output_from self.floats plugin place.now self.outputs properties))) result }
    {
        let mut partial = self;
        let set = output_from(
            alloc,
            partial.floats,
            plugin,
            place,
            partial.outputs.as_slice(),
            properties.as_slice(),
        )?;
        partial.outputs.push(set)?;
        Ok(partial)
    }

    /// Returns all settings.
    fn finish(self, alloc: Global) -> Result<AllSettings, Memory>
        ensures { IfOk result (λ all. all ≡ all_of self) }
    {
        let PartialSettings {
            service,
            inputs,
            filters,
            outputs,
            floats: _,
        } = self;
        Ok(AllSettings {
            service: service_of(alloc, service.as_slice())?,
            inputs,
            filters,
            outputs,
        })
    }
}

/// Returns what a section configures whose kind requires a Name.
fn by_name(alloc: Global, head: SectionKind, section: &Section) -> Result<Target, ReadErr>
    ensures { ReturnsResult (known (by_name head section.now.place (name_entry section.now.entries))) result }
{
    let Some(name) = name_entry(section.entries.as_slice()) else {
        return refuse(alloc, SettingKind::Missing, &section.place);
    };
    if let SectionKind::Parser = head {
        return Ok(Target::Parser);
    }
    match head.plugin(name.value.as_slice()) {
        Some(plugin) => Ok(plugin),
        None => refuse(alloc, SettingKind::UnknownPlugin, &name.place),
    }
}

/// Returns the entries of a section that are read at its place.
fn entries_here(target: Target, entries: &[Entry]) -> &[Entry]
    ensures { result.now ≡ entries_here target entries.now }
{
    match target {
        Target::Parser => &[],
        Target::Service | Target::Input(_) | Target::Filter(_) | Target::Output(_) => entries,
    }
}

fn take_section(
    alloc: Global,
    all: &[Section],
    path: bool,
    partial: PartialSettings,
    section: &Section,
) -> Result<PartialSettings, ReadErr>
    ensures { ReturnsResult (with_section all.now path partial section.now) result }
{
    let target = partial.part_of(alloc, section)?;
    let entries = entries_here(target, section.entries.as_slice());
    let properties = read_entries(alloc, all, target, entries)?;
    partial.with_target(alloc, path, target, &section.place, properties)
}

fn take_sections(alloc: Global, all: &[Section], path: bool) -> Result<PartialSettings, ReadErr>
    ensures { ReturnsResult (with_sections all.now path (nothing (floats_in all.now)) all.now) result }
{
    let mut partial = PartialSettings::new(alloc, floats_in(all));
    for section in all {
        partial = take_section(alloc, all, path, partial, section)?;
    }
    Ok(partial)
}

fn all_settings(alloc: Global, sections: &[Section]) -> Result<AllSettings, ReadErr>
    ensures { ReturnsResult (settings_of sections.now) result }
{
    let partial = take_sections(alloc, sections, any_path(sections))?;
    Ok(partial.finish(alloc)?)
}

/// Returns the settings of a configuration. It checks the sections in order, each first by its header, its
/// Name and its plugin, then entry by entry, then for what else is required. Fails with the first error, at
/// its place.
pub fn settings(alloc: Global, sections: &Sections) -> Result<AllSettings, SettingFault>
    ensures meaning { AreSettingsOf sections.now result }
    ensures sound { IfOk result MeetsRequirements }
{
    match all_settings(alloc, sections.as_slice()) {
        Ok(all) => Ok(all),
        Err(ReadErr::Memory) => Err(SettingFault::out_of_memory(alloc)),
        Err(ReadErr::Refused(refusal)) => Err(refusal),
    }
}
