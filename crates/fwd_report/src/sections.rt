//! The report, from its lines.

ghost use Rattle.std.specs.Prelude.{◌≡◌, ◌++◌, length, IfOk, OnOk};
ghost use Rattle.fwd_report.specs.Report.{input_lines, output_lines, total_line, report_of};

use crate::counters::{push_input, push_output, push_totals};
use crate::pending::push_owed;
use fwd_base::{Bytes, Memory, Names};
use fwd_table::{InputTally, OutputTally, Table, Tally};
use std::alloc::Global;

/// Appends a line for each input.
fn push_inputs(text: &mut Bytes, names: &[Bytes], tallies: &[InputTally]) -> Result<(), Memory>
    requires { length tallies.now ≡ length names.now }
    ensures { OnOk result (text.new ≡ text.old ++ input_lines names.now tallies.now) }
{
    for (index, name) in names.iter().enumerate() {
        push_input(text, name.as_slice(), tallies[index])?;
    }
    Ok(())
}

/// Appends a line for each output.
fn push_outputs(text: &mut Bytes, names: &[Bytes], tallies: &[OutputTally]) -> Result<(), Memory>
    requires { length tallies.now ≡ length names.now }
    ensures { OnOk result (text.new ≡ text.old ++ output_lines names.now tallies.now) }
{
    for (index, name) in names.iter().enumerate() {
        push_output(text, name.as_slice(), tallies[index])?;
    }
    Ok(())
}

/// Returns the report of a run. Each line ends in a line feed: the counters of each input and of each
/// output, with their names in the configuration; the counters of recovered files and of failed calls; the
/// number of pending routes, which saturates at 2^64 - 1; and for each pending chunk, ordered by id, its
/// id, its tag as JSON text, the size of its content in bytes, and the names of the outputs that it is
/// pending for, in the order of the configuration. Requires one entry of the tally for each name. The only
/// error is out of memory.
pub fn report(
    alloc: Global,
    inputs: &Names,
    outputs: &Names,
    table: &Table,
    tally: &Tally,
) -> Result<Bytes, Memory>
    requires inputs { length tally.now.inputs ≡ length inputs.now }
    requires outputs { length tally.now.outputs ≡ length outputs.now }
    ensures { IfOk result (λ text. text ≡ report_of inputs.now outputs.now table.now.rows tally.now) }
{
    let mut text = Bytes::new(alloc);
    push_inputs(&mut text, inputs.as_slice(), tally.inputs.as_slice())?;
    push_outputs(&mut text, outputs.as_slice(), tally.outputs.as_slice())?;
    push_totals(&mut text, tally)?;
    push_owed(alloc, &mut text, outputs.as_slice(), table)?;
    Ok(text)
}
