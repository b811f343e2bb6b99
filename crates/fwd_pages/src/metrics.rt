//! The pages of counters and of the uptime, as JSON.

ghost use Rattle.std.specs.Prelude.{◌≡◌, ◌++◌, length, IfOk, OnOk};
ghost use Rattle.fwd_pages.specs.Pages.{input_entry, input_entries, output_entry, output_entries, metrics_of, uptime_of};

use crate::sample::{push_count, push_name};
use fwd_base::{Bytes, Memory, Names};
use fwd_table::{InputTally, OutputTally, Tally};
use std::alloc::Global;

/// Appends the counters of the input at an index.
fn push_input(text: &mut Bytes, index: usize, name: &[u8], tally: InputTally) -> Result<(), Memory>
    ensures { OnOk result (text.new ≡ text.old ++ input_entry index name.now tally) }
{
    push_name(text, index, name)?;
    push_count(text, b"\"records\":", tally.events)?;
    push_count(text, b",\"batches\":", tally.batches)?;
    push_count(text, b",\"refused\":", tally.refused)?;
    text.extend_from_slice(b"}")?;
    Ok(())
}

/// Appends the counters of the output at an index.
fn push_output(
    text: &mut Bytes,
    index: usize,
    name: &[u8],
    tally: OutputTally,
) -> Result<(), Memory>
    ensures { OnOk result (text.new ≡ text.old ++ output_entry index name.now tally) }
{
    push_name(text, index, name)?;
    push_count(text, b"\"proc_bytes\":", tally.taken)?;
    push_count(text, b",\"errors\":", tally.bad)?;
    push_count(text, b",\"retries\":", tally.retry)?;
    push_count(text, b",\"retries_failed\":", tally.spent)?;
    push_count(text, b",\"chunks_ok\":", tally.good)?;
    push_count(text, b",\"chunks_lost\":", tally.lost)?;
    text.extend_from_slice(b"}")?;
    Ok(())
}

fn push_inputs(text: &mut Bytes, names: &[Bytes], tallies: &[InputTally]) -> Result<(), Memory>
    requires { length tallies.now ≡ length names.now }
    ensures { OnOk result (text.new ≡ text.old ++ input_entries names.now tallies.now) }
{
    for (index, name) in names.iter().enumerate() {
        push_input(text, index, name.as_slice(), tallies[index])?;
    }
    Ok(())
}

fn push_outputs(text: &mut Bytes, names: &[Bytes], tallies: &[OutputTally]) -> Result<(), Memory>
    requires { length tallies.now ≡ length names.now }
    ensures { OnOk result (text.new ≡ text.old ++ output_entries names.now tallies.now) }
{
    for (index, name) in names.iter().enumerate() {
        push_output(text, index, name.as_slice(), tallies[index])?;
    }
    Ok(())
}

/// Returns the counters of the inputs and the outputs.
pub fn metrics_page(
    alloc: Global,
    inputs: &Names,
    outputs: &Names,
    tally: &Tally,
) -> Result<Bytes, Memory>
    requires inputs { length tally.now.inputs ≡ length inputs.now }
    requires outputs { length tally.now.outputs ≡ length outputs.now }
    ensures { IfOk result (λ text. text ≡ metrics_of inputs.now outputs.now tally.now) }
{
    let mut text = Bytes::new(alloc);
    text.extend_from_slice(b"{\"input\":{")?;
    push_inputs(&mut text, inputs.as_slice(), tally.inputs.as_slice())?;
    text.extend_from_slice(b"},\"output\":{")?;
    push_outputs(&mut text, outputs.as_slice(), tally.outputs.as_slice())?;
    text.extend_from_slice(b"}}\n")?;
    Ok(text)
}

/// Returns how long a run has lasted, in seconds.
pub fn uptime_page(alloc: Global, uptime: u64) -> Result<Bytes, Memory>
    ensures { IfOk result (λ text. text ≡ uptime_of uptime) }
{
    let mut text = Bytes::new(alloc);
    push_count(&mut text, b"{\"uptime_sec\":", uptime)?;
    text.extend_from_slice(b"}\n")?;
    Ok(text)
}
