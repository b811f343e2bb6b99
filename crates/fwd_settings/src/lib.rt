//! Checks the sections of a configuration, each key and value by the table of keys, and returns typed
//! settings, with a default for each setting that isn't given.
//!
//! `settings` returns the settings of the sections, or their first error with its place, or out of memory
//! (`meaning`). Returned settings meet what an engine requires (`sound`). `ends` returns the endpoints that
//! a loop connects by them. The definitions leave one thing open: whether a text is a pattern.
#![tactic(auto)]

mod endpoints;
mod filters;
mod floats;
mod inputs;
mod outputs;
mod sections;
mod service;
mod settings_types;
mod shared_keys;

pub use endpoints::ends;
pub use fwd_base::{Form, Retries};
pub use fwd_json::{Floats, PayloadForm};
pub use fwd_outside::{Ends, InEnd, InEnds, OutEnd, OutEnds};
pub use fwd_settings_schema::{SettingFault, SettingKind};
pub use sections::settings;
pub use settings_types::{
    AllSettings, HttpOptions, InputKind, InputSet, InputSets, OutputKind, OutputSet, OutputSets,
    Service, SharedKey,
};
