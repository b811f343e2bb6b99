//! Kinds of sections.

ghost use Rattle.std.specs.Prelude.{◌≡◌};
ghost use Rattle.std.specs.List.{find};
ghost use Rattle.fwd_settings_schema.specs.Keys.{heads, name_of_head, is_head_named, head_of, plugin_of};

use crate::plugins::{FilterPlugin, InputPlugin, OutputPlugin};
use fwd_settings_values::same_name;

/// The kind of a section.
#[derive(Clone, Copy)]
pub enum SectionKind {
    Service,
    Input,
    Parser,
    Filter,
    Output,
}

/// What a section configures: the service, a parser, or the plugin of an input, a filter or an output.
#[derive(Clone, Copy)]
pub enum Target {
    Service,
    Parser,
    Input(InputPlugin),
    Filter(FilterPlugin),
    Output(OutputPlugin),
}

const HEADS: [SectionKind; 5] = [
    SectionKind::Service,
    SectionKind::Input,
    SectionKind::Parser,
    SectionKind::Filter,
    SectionKind::Output,
];

impl SectionKind {
    fn name(self) -> &'static [u8]
        ensures { result.now ≡ name_of_head self }
    {
        match self {
            SectionKind::Service => b"service",
            SectionKind::Input => b"input",
            SectionKind::Parser => b"parser",
            SectionKind::Filter => b"filter",
            SectionKind::Output => b"output",
        }
    }

    fn is_named(self, name: &[u8]) -> bool
        ensures { result ≡ is_head_named name.now self }
    {
        same_name(self.name(), name)
    }

    /// Returns the kind of section with this name.
    #[tactic(auto, unfolding(crate::specs::Keys::heads))]
    pub fn of(name: &[u8]) -> Option<SectionKind>
        ensures { result ≡ head_of name.now }
    {
        HEADS.iter().copied().find(|head| head.is_named(name))
    }

    /// Returns what a section of this kind configures if its plugin has this name.
    pub fn plugin(self, name: &[u8]) -> Option<Target>
        ensures { result ≡ plugin_of self name.now }
    {
        match self {
            SectionKind::Input => Some(Target::Input(InputPlugin::of(name)?)),
            SectionKind::Filter => Some(Target::Filter(FilterPlugin::of(name)?)),
            SectionKind::Output => Some(Target::Output(OutputPlugin::of(name)?)),
            SectionKind::Service | SectionKind::Parser => None,
        }
    }
}
