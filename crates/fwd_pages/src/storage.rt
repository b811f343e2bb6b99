//! The page of chunks, as JSON.

ghost use Rattle.std.specs.Prelude.{◌≡◌, ◌<◌, ◌^◌, ◌++◌, length, IfOk, OnOk};
ghost use Rattle.fwd_pages.specs.Pages.{input_chunks, all_input_chunks, output_chunks, all_output_chunks, chunk_totals, storage_of, truth_word};

use crate::count::{Counted, count_rows};
use crate::sample::{push_count, push_name};
use fwd_base::{Bytes, InputId, Memory, Names, OutputId, is_set};
use fwd_table::Table;
use std::alloc::Global;

fn truth_word(truth: bool) -> &'static [u8]
    ensures { result.now ≡ truth_word truth }
{
    if truth { b"true" } else { b"false" }
}

/// Appends the chunks of an input of this run, and whether it is paused.
fn push_input(
    text: &mut Bytes,
    input: u32,
    name: &[u8],
    table: &Table,
    paused: u64,
) -> Result<(), Memory>
    ensures { OnOk result (text.new ≡ text.old ++ input_chunks table.now.rows paused input name.now) }
{
    push_name(text, input as usize, name)?;
    text.extend_from_slice(b"\"paused\":")?;
    text.extend_from_slice(truth_word(is_set(paused, input)))?;
    let from = InputId(input);
    push_count(
        text,
        b",\"open\":",
        count_rows(table, Counted::OpenOf(from)),
    )?;
    push_count(
        text,
        b",\"mem_chunks\":",
        count_rows(table, Counted::MemoryOf(from)),
    )?;
    push_count(
        text,
        b",\"fs_chunks\":",
        count_rows(table, Counted::FilesOf(from)),
    )?;
    text.extend_from_slice(b"}")?;
    Ok(())
}

/// Appends how many chunks are pending for an output.
fn push_output(text: &mut Bytes, output: u32, name: &[u8], table: &Table) -> Result<(), Memory>
    ensures { OnOk result (text.new ≡ text.old ++ output_chunks table.now.rows output name.now) }
{
    push_name(text, output as usize, name)?;
    let owed = count_rows(table, Counted::PendingFor(OutputId(output)));
    push_count(text, b"\"owed\":", owed)?;
    text.extend_from_slice(b"}")?;
    Ok(())
}

fn push_inputs(text: &mut Bytes, names: &[Bytes], table: &Table, paused: u64) -> Result<(), Memory>
    requires { length names.now < 2 ^ 32 }
    ensures { OnOk result (text.new ≡ text.old ++ all_input_chunks table.now.rows paused names.now) }
{
    for (index, name) in names.iter().enumerate() {
        push_input(text, index as u32, name.as_slice(), table, paused)?;
    }
    Ok(())
}

fn push_outputs(text: &mut Bytes, names: &[Bytes], table: &Table) -> Result<(), Memory>
    requires { length names.now < 2 ^ 32 }
    ensures { OnOk result (text.new ≡ text.old ++ all_output_chunks table.now.rows names.now) }
{
    for (index, name) in names.iter().enumerate() {
        push_output(text, index as u32, name.as_slice(), table)?;
    }
    Ok(())
}

/// Appends how many chunks there are in all.
fn push_totals(text: &mut Bytes, table: &Table) -> Result<(), Memory>
    ensures { OnOk result (text.new ≡ text.old ++ chunk_totals table.now.rows) }
{
    push_count(
        text,
        b"{\"storage_layer\":{\"chunks\":{\"total_chunks\":",
        table.len(),
    )?;
    push_count(
        text,
        b",\"mem_chunks\":",
        count_rows(table, Counted::InMemory),
    )?;
    push_count(
        text,
        b",\"fs_chunks\":",
        count_rows(table, Counted::InFiles),
    )?;
    text.extend_from_slice(b"}}")?;
    Ok(())
}

/// Returns how many chunks are open or pending, in memory and in files: in all, by the input of this run that
/// they came from, with whether it is paused, and by the output that they are pending for.
pub fn storage_page(
    alloc: Global,
    inputs: &Names,
    outputs: &Names,
    table: &Table,
    paused: u64,
) -> Result<Bytes, Memory>
    requires inputs { length inputs.now < 2 ^ 32 }
    requires outputs { length outputs.now < 2 ^ 32 }
    ensures { IfOk result (λ text. text ≡ storage_of inputs.now outputs.now table.now.rows paused) }
{
    let mut text = Bytes::new(alloc);
    push_totals(&mut text, table)?;
    text.extend_from_slice(b",\"input_chunks\":{")?;
    push_inputs(&mut text, inputs.as_slice(), table, paused)?;
    text.extend_from_slice(b"},\"output_chunks\":{")?;
    push_outputs(&mut text, outputs.as_slice(), table)?;
    text.extend_from_slice(b"}}\n")?;
    Ok(text)
}
