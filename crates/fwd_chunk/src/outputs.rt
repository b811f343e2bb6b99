//! The outputs that a file of mark 2 names.

ghost use Rattle.std.specs.Prelude.{◌≡◌, ◌++◌, [], ◌∷◌, true, false, drop, MatchOption, IfOk, OnOk, None, Some};
ghost use Rattle.std.specs.List.{list_all};
ghost use Rattle.fwd_chunk.specs.Layout.{NamedOutput};
ghost use Rattle.fwd_chunk.specs.Metadata.{names_of, done_of, all_differ, is_output_name, are_outputs, output_at, outputs_in, counted_outputs, if_allowed, with_outputs, no_outputs};

use crate::RECORDED;
use fwd_base::limits::{LONGEST_NAME, MOST_OUTPUTS};
use fwd_base::{Bytes, Memory, Names, is_utf8};
use std::alloc::Global;

/// The outputs that metadata name, in order, and those with a recorded outcome.
#[derive(Debug, Drop)]
pub struct Outputs {
    pub names: Names,
    pub done: Names,
}

impl Outputs {
    pub fn new(alloc: Global) -> Self
        ensures { result ≡ no_outputs }
    {
        Outputs {
            names: Names::new(alloc),
            done: Names::new(alloc),
        }
    }

    fn push(&mut self, alloc: Global, outcome: u8, name: &[u8]) -> Result<(), Memory>
        ensures { OnOk result (self.new ≡ with_outputs self.old (record { name = name.now; outcome = outcome } ∷ [])) }
    {
        if outcome == RECORDED {
            self.done.push(Bytes::from_slice(alloc, name)?)?;
        }
        self.names.push(Bytes::from_slice(alloc, name)?)
    }
}

/// An output at the start of bytes, and the bytes after it.
#[derive(Clone, Copy)]
struct Next<'a> {
    outcome: u8,
    name: &'a [u8],
    rest: &'a [u8],
}

fn output_at(bytes: &[u8]) -> Option<Next<'_>>
    ensures { MatchOption result (output_at bytes.now ≡ None) (λ next. output_at bytes.now ≡ Some (record { name = next.name.now; outcome = next.outcome }, next.rest.now)) }
{
    let [outcome, size, rest @ ..] = bytes else {
        return None;
    };
    let size = usize::from(*size);
    if rest.len() < size {
        return None;
    }
    Some(Next {
        outcome: *outcome,
        name: &rest[..size],
        rest: &rest[size..],
    })
}

/// Reads `count` outputs and adds them to `outputs`. Returns false if the bytes aren't exactly so many
/// outputs.
fn read_outputs(
    alloc: Global,
    count: u8,
    bytes: &[u8],
    outputs: &mut Outputs,
) -> Result<bool, Memory>
    ensures { IfOk result (λ whole. MatchOption (outputs_in count bytes.now) (whole ≡ false) (λ named. (whole ≡ true) × (outputs.new ≡ with_outputs outputs.old named))) }
{
    if count == 0 {
        return Ok(bytes.is_empty());
    }
    let Some(next) = output_at(bytes) else {
        return Ok(false);
    };
    outputs.push(alloc, next.outcome, next.name)?;
    read_outputs(alloc, count - 1, next.rest, outputs)
}

fn all_differ(names: &[Bytes]) -> bool
    ensures { result ≡ all_differ names.now }
{
    match names {
        [] => true,
        [name, others @ ..] => !others.contains(name) && all_differ(others),
    }
}

fn is_output_name(name: &[u8]) -> bool
    ensures { result ≡ is_output_name name.now }
{
    1 <= name.len() && name.len() <= LONGEST_NAME && is_utf8(name)
}

fn are_output_names(names: &[Bytes]) -> bool
    ensures { result ≡ list_all is_output_name names.now }
{
    names.iter().all(|name| is_output_name(name.as_slice()))
}

/// Returns whether a file may name these outputs: at most 64 (`MOST_OUTPUTS`) different names of 1 to 255
/// bytes (`LONGEST_NAME`) of UTF-8.
fn are_outputs(names: &[Bytes]) -> bool
    ensures { result ≡ are_outputs names.now }
{
    names.len() <= MOST_OUTPUTS && are_output_names(names) && all_differ(names)
}

/// Parses the number of the outputs and the outputs. Returns `None` if bytes follow them or a file may not
/// name them.
pub fn parse_outputs(alloc: Global, bytes: &[u8]) -> Result<Option<Outputs>, Memory>
    ensures { IfOk result (λ found. MatchOption (if_allowed (counted_outputs bytes.now)) (found ≡ None) (λ named. found ≡ Some (with_outputs no_outputs named))) }
{
    let [count, rest @ ..] = bytes else {
        return Ok(None);
    };
    let mut outputs = Outputs::new(alloc);
    let whole = read_outputs(alloc, *count, rest, &mut outputs)?;
    if whole && are_outputs(outputs.names.as_slice()) {
        Ok(Some(outputs))
    } else {
        Ok(None)
    }
}
