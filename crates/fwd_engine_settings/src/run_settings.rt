//! The settings of a run, checked once, with what follows from them.

ghost use Rattle.std.specs.Prelude.{◌≡◌, ◌≤◌, ◌==◌, length, map, option_copied, IfOk};
ghost use Rattle.fwd_base.specs.Limits.{most_inputs};
ghost use Rattle.fwd_route.specs.GlobTest.{globs};
ghost use Rattle.fwd_table.specs.Routes.{idle_at, routes_to};
ghost use Rattle.fwd_settings.specs.Requirements.{MeetsRequirements};
ghost use Rattle.fwd_settings.specs.declared.settings_types.AllSettings.{AllSettings};
ghost use Rattle.fwd_settings.specs.declared.settings_types.InputSet.{InputSet};
ghost use Rattle.fwd_model.specs.Settings.{input_at, output_at, outputs_for, slots_at, places_of, retries_at, home_at, input_name, output_name, total_limit_at, hears_peers, accepts_connections_at, reads_standard, reads_stdin_at};
ghost use Rattle.fwd_model.specs.Notes.{is_empty};

use fwd_base::limits::{MOST_OUTPUTS, MOST_PEER_FLUSHES};
use fwd_base::{Bytes, InputId, Memory, Names, OutputId, Retries, is_set};
use fwd_filters::FilterSteps;
use fwd_limits::MemLimits;
use fwd_outside::Home;
use fwd_route::matches;
use fwd_settings::{AllSettings, InputKind, InputSet, OutputKind, OutputSet};
use std::alloc::Global;
use std::marker::Model;

/// The settings of a run, as every valid configuration gives them: at most 64 inputs and 64 outputs, each
/// named by its plugin and number, and a storage path if an input stores its chunks in files. In contracts
/// a value is its settings.
#[derive(Debug, Drop)]
pub struct RunSettings {
    settings: AllSettings,
    memory_limits: MemLimits,
}

impl Model for RunSettings {
    ghost use Rattle.std.specs.Prelude.{◌≡◌, map};
    ghost use Rattle.fwd_settings.specs.declared.settings_types.InputSet.{InputSet};
    ghost use Rattle.fwd_settings.specs.Requirements.{MeetsRequirements};
    ghost use Rattle.fwd_settings.specs.declared.settings_types.AllSettings.{AllSettings};
    ghost use Rattle.fwd_settings.specs.contracts.settings_types.AllSettings as all;

    ghost Value = { AllSettings };

    ghost coded = { all.the_row.coded };

    ghost view = { λ s. s.settings };

    ghost invariant = { λ s. MeetsRequirements s.settings × (s.memory_limits ≡ map (λ (set : InputSet). set.mem_limit) s.settings.inputs) };
}

/// Returns the memory limits of inputs, in their order.
fn memory_limits_of(alloc: Global, inputs: &[InputSet]) -> Result<MemLimits, Memory>
    ensures { IfOk result (λ limits. limits ≡ map (λ (set : InputSet). set.mem_limit) inputs.now) }
{
    let mut limits = MemLimits::new(alloc);
    for set in inputs {
        limits.push(set.mem_limit)?;
    }
    Ok(limits)
}

impl RunSettings {
    /// Wraps settings that satisfy `MeetsRequirements`, as those of every valid configuration do.
    pub fn new(alloc: Global, settings: AllSettings) -> Result<RunSettings, Memory>
        requires { MeetsRequirements settings }
        ensures { IfOk result (λ run. run ≡ settings) }
    {
        let memory_limits = memory_limits_of(alloc, settings.inputs.as_slice())?;
        Ok(RunSettings {
            settings,
            memory_limits,
        })
    }

    /// Lemma: the settings satisfy `MeetsRequirements`.
    pub fn lemma_settings_are_sound(&self)
        ensures { MeetsRequirements self.now }
    {
        let _ = &self.settings;
    }

    /// Returns the settings.
    pub fn into_settings(self) -> AllSettings
        ensures { result ≡ self }
    {
        self.settings
    }

    /// Returns the number of inputs.
    pub fn inputs(&self) -> usize
        ensures { result ≡ length self.now.inputs }
    {
        self.settings.inputs.len()
    }

    /// Returns the number of outputs.
    pub fn outputs(&self) -> usize
        ensures { result ≡ length self.now.outputs }
    {
        self.settings.outputs.len()
    }

    pub fn input(&self, input: InputId) -> Option<&InputSet>
        ensures { option_copied result ≡ input_at self.now input.0 }
    {
        self.settings.inputs.as_slice().get(input.0 as usize)
    }

    pub fn output(&self, output: OutputId) -> Option<&OutputSet>
        ensures { option_copied result ≡ output_at self.now output.0 }
    {
        self.settings.outputs.as_slice().get(output.0 as usize)
    }

    /// The bytes of memory that the chunks of each input may use, in the order of the configuration.
    pub fn memory_limits(&self) -> &MemLimits
        ensures value { result.now ≡ map (λ (set : InputSet). set.mem_limit) self.now.inputs }
        ensures most { length result.now ≤ most_inputs }
    {
        self.lemma_settings_are_sound();
        &self.memory_limits
    }

    /// Milliseconds between two closings of the open chunks.
    pub fn flush_ms(&self) -> u64
        ensures { result ≡ self.now.service.flush_ms }
    {
        self.settings.service.flush_ms
    }

    /// Seconds for which the run waits for pending flushes after a stop.
    pub fn grace_s(&self) -> u64
        ensures { result ≡ self.now.service.grace_s }
    {
        self.settings.service.grace_s
    }

    /// Seconds of the shortest wait before a retry, at least 1.
    pub fn base(&self) -> u64
        ensures value { result ≡ self.now.service.base }
        ensures least { 1 ≤ result }
    {
        self.settings.service.base
    }

    /// Seconds of the longest wait before a retry.
    pub fn cap(&self) -> u64
        ensures { result ≡ self.now.service.cap }
    {
        self.settings.service.cap
    }

    pub fn filters(&self) -> &FilterSteps
        ensures { result.now ≡ self.now.filters }
    {
        &self.settings.filters
    }

    /// Returns the mask of the outputs whose glob matches a tag: bit `i` is set for output `i`. It is 0
    /// exactly if no glob matches.
    pub fn routes_for(&self, tag: &[u8]) -> u64
        ensures routes { routes_to result ≡ map (λ output. idle_at 0 (record { 0 = output })) (outputs_for self.now tag.now) }
        ensures none { (result == 0) ≡ is_empty (outputs_for self.now tag.now) }
    {
        let mut mask: u64 = 0;
        for (i, output) in self.settings.outputs.as_slice().iter().enumerate() {
            if glob_matches(output, tag) {
                mask |= 1 << i;
            }
        }
        mask
    }

    /// Returns how many flushes to an output may be in flight at once, 0 if there is no such output.
    pub fn places(&self, output: OutputId) -> u64
        ensures { result ≡ slots_at (output_at self.now output.0) }
    {
        match self.output(output) {
            Some(set) => places_of(&set.kind),
            None => 0,
        }
    }

    /// Returns how many retries a flush to an output has.
    pub fn retries(&self, output: OutputId) -> Retries
        ensures { result ≡ retries_at (output_at self.now output.0) }
    {
        match self.output(output) {
            Some(set) => set.retries,
            None => Retries::Times(0),
        }
    }

    /// The folder of the chunk files, if the settings give one.
    pub fn root(&self) -> Option<&Bytes>
        ensures { option_copied result ≡ self.now.service.path }
    {
        self.settings.service.path.as_ref()
    }

    /// Whether each append is fsynced.
    pub fn full(&self) -> bool
        ensures { result ≡ self.now.service.full }
    {
        self.settings.service.full
    }

    /// How many chunks in files may be in flight at once.
    pub fn max_up(&self) -> u64
        ensures { result ≡ self.now.service.max_up }
    {
        self.settings.service.max_up
    }

    /// How many bytes of recovered chunks may be in flight at once.
    pub fn backlog_limit(&self) -> u64
        ensures { result ≡ self.now.service.backlog_limit }
    {
        self.settings.service.backlog_limit
    }

    /// Where the chunks of an input are kept.
    pub fn home(&self, input: InputId) -> Home
        ensures { result ≡ home_at self.now input.0 }
    {
        match self.input(input) {
            Some(set) if set.stored => Home::Disk,
            Some(_) | None => Home::Ram,
        }
    }

    /// The folder of an input's chunk files: the name of the input.
    pub fn stream(&self, input: InputId) -> &[u8]
        ensures { result.now ≡ input_name self.now input.0 }
    {
        match self.input(input) {
            Some(set) => set.name.as_slice(),
            None => &[],
        }
    }

    /// The name that stands for an output in chunk files.
    pub fn output_name(&self, output: OutputId) -> &[u8]
        ensures { result.now ≡ output_name self.now output.0 }
    {
        match self.output(output) {
            Some(set) => set.id.as_slice(),
            None => &[],
        }
    }

    /// Returns the names that stand in chunk files for the outputs of a mask, in the order of the
    /// configuration.
    pub fn names_of(&self, alloc: Global, routes: u64) -> Result<Names, Memory>
        ensures { IfOk result (λ names. names ≡ map (λ route. output_name self.now route.output.0) (routes_to routes)) }
    {
        let mut names = Names::new(alloc);
        for output in 0..MOST_OUTPUTS {
            if is_set(routes, output as u32) {
                let name = self.output_name(OutputId(output as u32));
                names.push(Bytes::from_slice(alloc, name)?)?;
            }
        }
        Ok(names)
    }

    /// The limit on the bytes of chunks in files that are pending for an output.
    pub fn limit(&self, output: OutputId) -> Option<u64>
        ensures { result ≡ total_limit_at self.now output.0 }
    {
        match self.output(output) {
            Some(set) => set.total_limit,
            None => None,
        }
    }

    /// Whether peers connect to an input.
    pub fn hears_peers(&self, input: InputId) -> bool
        ensures { result ≡ accepts_connections_at self.now input.0 }
    {
        match self.input(input) {
            Some(set) => accepts_peers(&set.kind),
            None => false,
        }
    }

    /// Whether an input reads standard input.
    pub fn reads_standard(&self, input: InputId) -> bool
        ensures { result ≡ reads_stdin_at self.now input.0 }
    {
        match self.input(input) {
            Some(set) => is_stdin(&set.kind),
            None => false,
        }
    }
}

fn accepts_peers(kind: &InputKind) -> bool
    ensures { result ≡ hears_peers kind.now }
{
    matches!(kind, InputKind::Tcp { .. } | InputKind::Forward { .. })
}

fn is_stdin(kind: &InputKind) -> bool
    ensures { result ≡ reads_standard kind.now }
{
    matches!(kind, InputKind::Stdin)
}

/// Whether the glob of an output matches a tag.
fn glob_matches(output: &OutputSet, tag: &[u8]) -> bool
    ensures { result ≡ globs output.now.glob tag.now }
{
    matches(output.glob.as_slice(), tag)
}

/// Returns how many flushes to an output of a kind may be in flight at once.
fn places_of(kind: &OutputKind) -> u64
    ensures { result ≡ places_of kind.now }
{
    match kind {
        OutputKind::Stdout { .. } | OutputKind::File { .. } => 1,
        OutputKind::Tcp { .. } | OutputKind::Forward { .. } | OutputKind::Http { .. } => {
            MOST_PEER_FLUSHES
        }
    }
}
