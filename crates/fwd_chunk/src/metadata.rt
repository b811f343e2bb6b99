//! The metadata of a chunk file: a tag, and outputs if the mark is 2.

ghost use Rattle.std.specs.Prelude.{◌≡◌, ◌⊎◌, Some, None, Ok, Err, MatchOption, IfOk};
ghost use Rattle.std.specs.Option.{option_map};
ghost use Rattle.fwd_chunk.specs.declared.refusal.NotAChunk.TheVariants as not_a_chunk;
ghost use Rattle.fwd_chunk.specs.Metadata.{tag_of, named_parts, parse_named, as_metadata, without_outputs, parse_metadata};

use crate::NotAChunk;
use crate::outputs::parse_outputs;
use fwd_base::{Bytes, Memory, Names};
use std::alloc::Global;

/// The meaning of metadata: the tag, the outputs that are named, in order, and those with a recorded
/// outcome.
#[derive(Debug, Drop)]
pub struct Metadata {
    pub tag: Bytes,
    pub outputs: Names,
    pub done: Names,
}

/// Returns the tag in metadata of marks 0 and 1; `None` if the metadata say that the chunk has no logs.
fn tag_of(meta: &[u8]) -> Option<&[u8]>
    ensures { MatchOption result (tag_of meta.now ≡ None) (λ tag. tag_of meta.now ≡ Some tag.now) }
{
    match meta {
        [0xf1, 0x77, 0, _, tag @ ..] => Some(tag),
        [0xf1, 0x77, 0] => Some(meta),
        [0xf1, 0x77, _, ..] => None,
        _ => Some(meta),
    }
}

/// Returns the tag and the bytes of the outputs in metadata of mark 2.
fn named_parts(meta: &[u8]) -> Option<(&[u8], &[u8])>
    ensures { MatchOption result (named_parts meta.now ≡ None) (λ parts. named_parts meta.now ≡ Some (parts.0.now, parts.1.now)) }
{
    let [0xf1, 0x77, 0, 2, high, low, rest @ ..] = meta else {
        return None;
    };
    let size = usize::from(u16::from_be_bytes([*high, *low]));
    if rest.len() < size {
        return None;
    }
    Some(rest.split_at(size))
}

fn without_outputs(alloc: Global, tag: &[u8]) -> Result<Metadata, Memory>
    ensures { IfOk result (λ metadata. metadata ≡ without_outputs tag.now) }
{
    Ok(Metadata {
        tag: Bytes::from_slice(alloc, tag)?,
        outputs: Names::new(alloc),
        done: Names::new(alloc),
    })
}

/// Parses metadata of mark 2. Returns `None` if they don't have its form.
fn parse_named(alloc: Global, meta: &[u8]) -> Result<Option<Metadata>, Memory>
    ensures { IfOk result (λ found. found ≡ option_map as_metadata (parse_named meta.now)) }
{
    let Some((tag, outputs)) = named_parts(meta) else {
        return Ok(None);
    };
    match parse_outputs(alloc, outputs)? {
        Some(outputs) => Ok(Some(Metadata {
            tag: Bytes::from_slice(alloc, tag)?,
            outputs: outputs.names,
            done: outputs.done,
        })),
        None => Ok(None),
    }
}

/// Parses the metadata of a file with this mark.
pub fn parse_metadata(alloc: Global, mark: u8, meta: &[u8]) -> Result<Metadata, NotAChunk>
    ensures { (result ≡ parse_metadata mark meta.now) ⊎ (result ≡ Err not_a_chunk.Memory) }
{
    let Some(tag) = tag_of(meta) else {
        return Err(NotAChunk::NotLogs);
    };
    if mark == 2 {
        parse_named(alloc, meta)?.ok_or(NotAChunk::BadOutputs)
    } else {
        Ok(without_outputs(alloc, tag)?)
    }
}
