//! The lines of pending routes.

ghost use Rattle.std.specs.Prelude.{◌≡◌, [], ◌++◌, get_or, None, OnOk};
ghost use Rattle.std.specs.List.{flat_map};
ghost use Rattle.std.specs.Option.{option_map_or};
ghost use Rattle.fwd_json.specs.Text.{json};
ghost use Rattle.fwd_json.specs.declared.floats.Floats.TheVariants.{Tagged};
ghost use Rattle.fwd_value.specs.Val.{text as text_value};
ghost use Rattle.fwd_table.specs.Row.{Row};
ghost use Rattle.fwd_table.specs.Routes.{IsMaskOf};
ghost use Rattle.fwd_table.specs.Rows.{seen_of};
ghost use Rattle.fwd_report.specs.Report.{owed_routes, names_from, chunk_line, row_lines, owed_part};

use crate::counters::push_count;
use fwd_base::{Bytes, Memory};
use fwd_json::{Floats, Value, json_text};
use fwd_table::{RowSeen, Table};
use std::alloc::Global;

/// Returns the number of pending routes.
fn owed_routes(table: &Table) -> u64
    ensures { result ≡ owed_routes table.now.rows }
{
    let mut owed: u64 = 0;
    for place in 0..table.places() {
        if let Some(row) = table.row(place) {
            owed = owed.saturating_add(u64::from(row.owed.count_ones()));
        }
    }
    owed
}

/// Appends a tag as JSON text.
fn push_tag(alloc: Global, text: &mut Bytes, tag: &[u8]) -> Result<(), Memory>
    ensures { OnOk result (text.new ≡ text.old ++ json Tagged (text_value tag.now)) }
{
    let tag = Value::Text(Bytes::from_slice(alloc, tag)?);
    json_text(alloc, &tag, Floats::Tagged, text)?;
    Ok(())
}

/// Appends the names of the outputs in a mask, with a space before each.
fn push_names(text: &mut Bytes, outputs: &[Bytes], owed: u64) -> Result<(), Memory>
    ensures { OnOk result ((row : Row) → IsMaskOf row.routes owed → text.new ≡ text.old ++ names_from 0 outputs.now row) }
{
    let mut rest = owed;
    for name in outputs {
        if rest & 1 == 1 {
            text.extend_from_slice(b" ")?;
            text.extend_from_slice(name.as_slice())?;
        }
        rest >>= 1;
    }
    Ok(())
}

/// Appends the line of a row.
fn push_chunk(
    alloc: Global,
    text: &mut Bytes,
    outputs: &[Bytes],
    seen: &RowSeen,
    tag: &[u8],
) -> Result<(), Memory>
    ensures { OnOk result ((row : Row) → seen.now ≡ seen_of row → tag.now ≡ row.tag → IsMaskOf row.routes seen.now.owed → text.new ≡ text.old ++ chunk_line outputs.now row) }
{
    push_count(text, b"chunk ", seen.chunk.0)?;
    text.extend_from_slice(b" ")?;
    push_tag(alloc, text, tag)?;
    push_count(text, b" ", seen.size)?;
    push_names(text, outputs, seen.owed)?;
    text.extend_from_slice(b"\n")?;
    Ok(())
}

/// Appends the line of the slot at an index, if it has a row that is pending for an output.
fn push_row(
    alloc: Global,
    text: &mut Bytes,
    outputs: &[Bytes],
    table: &Table,
    place: u64,
) -> Result<(), Memory>
    ensures { OnOk result (text.new ≡ text.old ++ option_map_or (row_lines outputs.now) (get_or table.now.places place None) []) }
{
    if let Some(row) = table.row(place) {
        if row.owed != 0 {
            push_chunk(alloc, text, outputs, &row, table.tag(place))?;
        }
    }
    Ok(())
}

/// Appends a line for each row that is pending for an output.
fn push_rows(
    alloc: Global,
    text: &mut Bytes,
    outputs: &[Bytes],
    table: &Table,
) -> Result<(), Memory>
    ensures { OnOk result (text.new ≡ text.old ++ flat_map (row_lines outputs.now) table.now.rows) }
{
    for place in 0..table.places() {
        push_row(alloc, text, outputs, table, place)?;
    }
    Ok(())
}

/// Appends the number of pending routes, and a line for each row that is pending for an output.
pub fn push_owed(
    alloc: Global,
    text: &mut Bytes,
    outputs: &[Bytes],
    table: &Table,
) -> Result<(), Memory>
    ensures { OnOk result (text.new ≡ text.old ++ owed_part outputs.now table.now.rows) }
{
    push_count(text, b"owed ", owed_routes(table))?;
    text.push(b'\n')?;
    push_rows(alloc, text, outputs, table)?;
    Ok(())
}
