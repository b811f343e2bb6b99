//! The plugins of inputs, filters and outputs.

ghost use Rattle.std.specs.Prelude.{◌≡◌};
ghost use Rattle.std.specs.List.{find};
ghost use Rattle.fwd_settings_schema.specs.Keys.{name_of_input, is_input_named, input_of, name_of_filter, is_filter_named, filter_of, name_of_output, is_output_named, output_of};

use fwd_settings_values::same_name;

/// The plugin of an input.
#[derive(Clone, Copy)]
pub enum InputPlugin {
    Tail,
    Tcp,
    Forward,
    Stdin,
}

/// The plugin of a filter.
#[derive(Clone, Copy)]
pub enum FilterPlugin {
    Grep,
    Modify,
    Nest,
}

/// The plugin of an output.
#[derive(Clone, Copy)]
pub enum OutputPlugin {
    Stdout,
    File,
    Tcp,
    Forward,
    Http,
}

/// The port of tcp peers by default.
pub const TCP_PORT: u16 = 5170;

/// The port of the forward protocol by default.
pub const FORWARD_PORT: u16 = 24224;

/// The port of HTTP by default.
pub const HTTP_PORT: u16 = 80;

const INPUTS: &[InputPlugin] = &[
    InputPlugin::Tail,
    InputPlugin::Tcp,
    InputPlugin::Forward,
    InputPlugin::Stdin,
];

const FILTERS: &[FilterPlugin] = &[FilterPlugin::Grep, FilterPlugin::Modify, FilterPlugin::Nest];

const OUTPUTS: &[OutputPlugin] = &[
    OutputPlugin::Stdout,
    OutputPlugin::File,
    OutputPlugin::Tcp,
    OutputPlugin::Forward,
    OutputPlugin::Http,
];

impl InputPlugin {
    /// Returns the name, in lower case.
    pub fn name(self) -> &'static [u8]
        ensures { result.now ≡ name_of_input self }
    {
        match self {
            InputPlugin::Tail => b"tail",
            InputPlugin::Tcp => b"tcp",
            InputPlugin::Forward => b"forward",
            InputPlugin::Stdin => b"stdin",
        }
    }

    fn is_named(self, name: &[u8]) -> bool
        ensures { result ≡ is_input_named name.now self }
    {
        same_name(self.name(), name)
    }

    /// Returns the plugin with this name.
    pub fn of(name: &[u8]) -> Option<InputPlugin>
        ensures { result ≡ input_of name.now }
    {
        INPUTS.iter().copied().find(|plugin| plugin.is_named(name))
    }
}

impl FilterPlugin {
    /// Returns the name, in lower case.
    pub fn name(self) -> &'static [u8]
        ensures { result.now ≡ name_of_filter self }
    {
        match self {
            FilterPlugin::Grep => b"grep",
            FilterPlugin::Modify => b"modify",
            FilterPlugin::Nest => b"nest",
        }
    }

    fn is_named(self, name: &[u8]) -> bool
        ensures { result ≡ is_filter_named name.now self }
    {
        same_name(self.name(), name)
    }

    /// Returns the plugin with this name.
    pub fn of(name: &[u8]) -> Option<FilterPlugin>
        ensures { result ≡ filter_of name.now }
    {
        FILTERS.iter().copied().find(|plugin| plugin.is_named(name))
    }
}

impl OutputPlugin {
    /// Returns the name, in lower case.
    pub fn name(self) -> &'static [u8]
        ensures { result.now ≡ name_of_output self }
    {
        match self {
            OutputPlugin::Stdout => b"stdout",
            OutputPlugin::File => b"file",
            OutputPlugin::Tcp => b"tcp",
            OutputPlugin::Forward => b"forward",
            OutputPlugin::Http => b"http",
        }
    }

    fn is_named(self, name: &[u8]) -> bool
        ensures { result ≡ is_output_named name.now self }
    {
        same_name(self.name(), name)
    }

    /// Returns the plugin with this name.
    pub fn of(name: &[u8]) -> Option<OutputPlugin>
        ensures { result ≡ output_of name.now }
    {
        OUTPUTS.iter().copied().find(|plugin| plugin.is_named(name))
    }
}
