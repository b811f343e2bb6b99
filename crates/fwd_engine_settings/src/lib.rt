//! The settings of a run, with the getters that the engine needs.
#![tactic(auto)]

mod lemmas;
mod run_settings;

pub use lemmas::lemma_output_names_fit;
pub use run_settings::RunSettings;
