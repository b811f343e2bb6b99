//! The page for Prometheus.

ghost use Rattle.std.specs.Prelude.{◌≡◌, ◌<◌, ◌^◌, ◌++◌, length, IfOk, OnOk};
ghost use Rattle.fwd_pages.specs.Pages.{input_sample, input_samples, input_family, input_families, output_sample, output_samples, output_family, output_families, owed_sample, owed_samples, owed_family, total_families, prometheus_of};

use crate::count::{Counted, count_rows};
use crate::metric::{InputMetric, OutputMetric};
use crate::sample::{push_family, push_sample, push_total};
use fwd_base::{Bytes, Memory, Names, OutputId};
use fwd_table::{InputTally, OutputTally, Table, Tally};
use std::alloc::Global;

fn push_input_family(
    text: &mut Bytes,
    metric: InputMetric,
    names: &[Bytes],
    tallies: &[InputTally],
) -> Result<(), Memory>
    requires { length tallies.now ≡ length names.now }
    ensures { OnOk result (text.new ≡ text.old ++ input_family metric names.now tallies.now) }
{
    push_family(text, metric.name(), b"counter")?;
    push_input_samples(text, metric, names, tallies)?;
    Ok(())
}

fn push_input_sample(
    text: &mut Bytes,
    metric: InputMetric,
    name: &[u8],
    tally: InputTally,
) -> Result<(), Memory>
    ensures { OnOk result (text.new ≡ text.old ++ input_sample metric name.now tally) }
{
    push_sample(text, metric.name(), name, metric.value(tally))
}

fn push_input_samples(
    text: &mut Bytes,
    metric: InputMetric,
    names: &[Bytes],
    tallies: &[InputTally],
) -> Result<(), Memory>
    requires { length tallies.now ≡ length names.now }
    ensures { OnOk result (text.new ≡ text.old ++ input_samples metric names.now tallies.now) }
{
    for (index, name) in names.iter().enumerate() {
        push_input_sample(text, metric, name.as_slice(), tallies[index])?;
    }
    Ok(())
}

fn push_output_family(
    text: &mut Bytes,
    metric: OutputMetric,
    names: &[Bytes],
    tallies: &[OutputTally],
) -> Result<(), Memory>
    requires { length tallies.now ≡ length names.now }
    ensures { OnOk result (text.new ≡ text.old ++ output_family metric names.now tallies.now) }
{
    push_family(text, metric.name(), b"counter")?;
    push_output_samples(text, metric, names, tallies)?;
    Ok(())
}

fn push_output_sample(
    text: &mut Bytes,
    metric: OutputMetric,
    name: &[u8],
    tally: OutputTally,
) -> Result<(), Memory>
    ensures { OnOk result (text.new ≡ text.old ++ output_sample metric name.now tally) }
{
    push_sample(text, metric.name(), name, metric.value(tally))
}

fn push_output_samples(
    text: &mut Bytes,
    metric: OutputMetric,
    names: &[Bytes],
    tallies: &[OutputTally],
) -> Result<(), Memory>
    requires { length tallies.now ≡ length names.now }
    ensures { OnOk result (text.new ≡ text.old ++ output_samples metric names.now tallies.now) }
{
    for (index, name) in names.iter().enumerate() {
        push_output_sample(text, metric, name.as_slice(), tallies[index])?;
    }
    Ok(())
}

fn push_owed_sample(text: &mut Bytes, output: u32, name: &[u8], table: &Table) -> Result<(), Memory>
    ensures { OnOk result (text.new ≡ text.old ++ owed_sample table.now.rows output name.now) }
{
    let owed = count_rows(table, Counted::PendingFor(OutputId(output)));
    push_sample(text, b"fuztreb_chunks_owed", name, owed)
}

fn push_owed_samples(text: &mut Bytes, names: &[Bytes], table: &Table) -> Result<(), Memory>
    requires { length names.now < 2 ^ 32 }
    ensures { OnOk result (text.new ≡ text.old ++ owed_samples names.now table.now.rows) }
{
    for (index, name) in names.iter().enumerate() {
        push_owed_sample(text, index as u32, name.as_slice(), table)?;
    }
    Ok(())
}

fn push_inputs(text: &mut Bytes, names: &[Bytes], tallies: &[InputTally]) -> Result<(), Memory>
    requires { length tallies.now ≡ length names.now }
    ensures { OnOk result (text.new ≡ text.old ++ input_families names.now tallies.now) }
{
    push_input_family(text, InputMetric::Records, names, tallies)?;
    push_input_family(text, InputMetric::Batches, names, tallies)?;
    push_input_family(text, InputMetric::Refused, names, tallies)?;
    Ok(())
}

fn push_outputs(text: &mut Bytes, names: &[Bytes], tallies: &[OutputTally]) -> Result<(), Memory>
    requires { length tallies.now ≡ length names.now }
    ensures { OnOk result (text.new ≡ text.old ++ output_families names.now tallies.now) }
{
    push_output_family(text, OutputMetric::Bytes, names, tallies)?;
    push_output_family(text, OutputMetric::Retries, names, tallies)?;
    push_output_family(text, OutputMetric::RetriesFailed, names, tallies)?;
    push_output_family(text, OutputMetric::Errors, names, tallies)?;
    push_output_family(text, OutputMetric::ChunksOk, names, tallies)?;
    push_output_family(text, OutputMetric::ChunksLost, names, tallies)?;
    Ok(())
}

fn push_owed(text: &mut Bytes, names: &[Bytes], table: &Table) -> Result<(), Memory>
    requires { length names.now < 2 ^ 32 }
    ensures { OnOk result (text.new ≡ text.old ++ owed_family names.now table.now.rows) }
{
    push_family(text, b"fuztreb_chunks_owed", b"gauge")?;
    push_owed_samples(text, names, table)?;
    Ok(())
}

fn push_totals(text: &mut Bytes, tally: &Tally, uptime: u64) -> Result<(), Memory>
    ensures { OnOk result (text.new ≡ text.old ++ total_families tally.now uptime) }
{
    push_total(text, b"fuztreb_chunks_loaded_total", tally.loaded)?;
    push_total(text, b"fuztreb_chunks_unrouted_total", tally.unrouted)?;
    push_total(text, b"fuztreb_files_left_total", tally.left)?;
    push_total(text, b"fuztreb_faults_total", tally.faults)?;
    push_total(text, b"fluentbit_uptime", uptime)?;
    Ok(())
}

/// Returns the counters of a run in Prometheus' text format. The uptime is in seconds.
pub fn prometheus_page(
    alloc: Global,
    inputs: &Names,
    outputs: &Names,
    table: &Table,
    tally: &Tally,
    uptime: u64,
) -> Result<Bytes, Memory>
    requires inputs { length tally.now.inputs ≡ length inputs.now }
    requires outputs { length tally.now.outputs ≡ length outputs.now }
    requires few { length outputs.now < 2 ^ 32 }
    ensures { IfOk result (λ text. text ≡ prometheus_of inputs.now outputs.now table.now.rows tally.now uptime) }
{
    let mut text = Bytes::new(alloc);
    push_inputs(&mut text, inputs.as_slice(), tally.inputs.as_slice())?;
    push_outputs(&mut text, outputs.as_slice(), tally.outputs.as_slice())?;
    push_owed(&mut text, outputs.as_slice(), table)?;
    push_totals(&mut text, tally, uptime)?;
    Ok(text)
}
