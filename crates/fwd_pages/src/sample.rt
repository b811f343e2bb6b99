//! Pieces of pages.

ghost use Rattle.std.specs.Prelude.{◌≡◌, ◌++◌, OnOk, decimal};
ghost use Rattle.fwd_pages.specs.Pages.{comma, family_line, name_start, sample_line, total_lines};

use fwd_base::{Bytes, Memory};

/// Appends a text and a number.
pub fn push_count(text: &mut Bytes, word: &[u8], count: u64) -> Result<(), Memory>
    ensures { OnOk result (text.new ≡ text.old ++ word.now ++ decimal count) }
{
    text.extend_from_slice(word)?;
    text.push_decimal(count)?;
    Ok(())
}

/// Appends the line that begins the samples of a counter, or of a number that may fall.
pub fn push_family(text: &mut Bytes, metric: &[u8], kind: &[u8]) -> Result<(), Memory>
    ensures { OnOk result (text.new ≡ text.old ++ family_line metric.now kind.now) }
{
    text.extend_from_slice(b"# TYPE ")?;
    text.extend_from_slice(metric)?;
    text.extend_from_slice(b" ")?;
    text.extend_from_slice(kind)?;
    text.extend_from_slice(b"\n")?;
    Ok(())
}

/// Appends a sample of an input or an output.
pub fn push_sample(text: &mut Bytes, metric: &[u8], name: &[u8], value: u64) -> Result<(), Memory>
    ensures { OnOk result (text.new ≡ text.old ++ sample_line metric.now name.now value) }
{
    text.extend_from_slice(metric)?;
    text.extend_from_slice(b"{name=\"")?;
    text.extend_from_slice(name)?;
    push_count(text, b"\"} ", value)?;
    text.extend_from_slice(b"\n")?;
    Ok(())
}

/// Appends a counter of the whole run.
pub fn push_total(text: &mut Bytes, metric: &[u8], value: u64) -> Result<(), Memory>
    ensures { OnOk result (text.new ≡ text.old ++ total_lines metric.now value) }
{
    push_family(text, metric, b"counter")?;
    text.extend_from_slice(metric)?;
    push_count(text, b" ", value)?;
    text.extend_from_slice(b"\n")?;
    Ok(())
}

/// Appends a comma before each element but the first.
fn push_comma(text: &mut Bytes, index: usize) -> Result<(), Memory>
    ensures { OnOk result (text.new ≡ text.old ++ comma index) }
{
    if index != 0 {
        text.push(b',')?;
    }
    Ok(())
}

/// Appends the beginning of a JSON object with this name, the element at an index.
pub fn push_name(text: &mut Bytes, index: usize, name: &[u8]) -> Result<(), Memory>
    ensures { OnOk result (text.new ≡ text.old ++ name_start index name.now) }
{
    push_comma(text, index)?;
    text.extend_from_slice(b"\"")?;
    text.extend_from_slice(name)?;
    text.extend_from_slice(b"\":{")?;
    Ok(())
}
