ghost use Rattle.std.specs.Prelude.{◌≡◌, ◌≤◌, ℕ, List, [], ◌∷◌, ◌++◌, length, map, true, unwrap_or, option_copied, Some, IfOk, IfSome};
ghost use Rattle.fwd_base.specs.Limits.{longest_tag};
ghost use Rattle.fwd_event.specs.declared.event.Event.{Event};
ghost use Rattle.fwd_frames.specs.declared.line.Line.{Line};
ghost use Rattle.fwd_parser.specs.LineEvent.{parsed};
ghost use Rattle.fwd_filters.specs.FilterFunction.{filtered};
ghost use Rattle.fwd_theorem_depth.specs.Shallow.{are_shallow};
ghost use Rattle.fwd_model.specs.Settings.{input_at, own_tag, tag_at};
ghost use Rattle.fwd_model.specs.Batches.{events_of, batch_of};
ghost use Rattle.fwd_model.specs.Acceptance.{ingests};
ghost use Rattle.fwd_engine_state.specs.RefinesAction.{with_disk, RefinesAction};
ghost use Rattle.fwd_engine_chunks.specs.BatchOutcome.{HoldsEvents, IsEncodingOf};

use fwd_base::limits::LARGEST_BATCH;
use fwd_base::{Bytes, InputId, Memory};
use fwd_engine_chunks::{EncodedBatch, RunSettings, accept_encoded, encode};
use fwd_engine_state::Parts;
use fwd_event::Events;
use fwd_filters::{are_idle, filter};
use fwd_frames::Lines;
use fwd_outside::Disk;
use fwd_parser::LineReader;
use fwd_settings::InputSet;
use fwd_theorem_depth::lemma_encoded_length_decides;
use std::alloc::Global;
use std::thread::Threads;

/// The tag that the settings give to an input, if they do.
fn own_tag(run: &RunSettings, input: InputId) -> Option<&Bytes>
    ensures is { option_copied result ≡ own_tag run.now input.0 }
    ensures short { IfSome (option_copied result) (λ tag. length tag ≤ longest_tag) }
{
    run.lemma_settings_are_sound();
    match run.input(input) {
        Some(set) => set.tag.as_ref(),
        None => None,
    }
}

/// The tag that the settings give to an input, or else `other`.
pub fn tag_or<'a>(run: &'a RunSettings, input: InputId, other: &'a [u8]) -> &'a [u8]
    ensures is { result.now ≡ unwrap_or (own_tag run.now input.0) other.now }
    ensures short { length other.now ≤ longest_tag → length result.now ≤ longest_tag }
{
    match own_tag(run, input) {
        Some(tag) => tag.as_slice(),
        None => other,
    }
}

/// Parses lines with the parser of an input, at a clock value. Takes the lines by value, so that a line
/// that stays whole isn't copied.
fn parse_lines(alloc: Global, input: &InputSet, now: u64, lines: Lines) -> Result<Events, Memory>
    ensures { IfOk result (λ events. events ≡ events_of (Some input.now) now lines) }
{
    let mut reader = input.parser.reader(alloc)?;
    let mut events = Events::new(alloc);
    events.reserve(lines.len())?;
    for line in lines.into_vec() {
        events.push(reader.take(alloc, line.bytes, now)?)?;
    }
    Ok(events)
}

/// Parses lines at a clock value, with the parser of the input.
fn read_lines(
    run: &RunSettings,
    alloc: Global,
    input: InputId,
    now: u64,
    lines: Lines,
) -> Result<Events, Memory>
    ensures { IfOk result (λ events. events ≡ events_of (input_at run.now input.0) now lines) }
{
    match run.input(input) {
        Some(set) => parse_lines(alloc, set, now, lines),
        None => Ok(Events::new(alloc)),
    }
}

/// Parses and filters lines.
fn batch(
    rt: &(impl Threads + Sync),
    run: &RunSettings,
    alloc: Global,
    input: InputId,
    now: u64,
    lines: Lines,
) -> Result<Events, Memory>
    ensures is { IfOk result (λ events. events ≡ filtered run.now.filters (tag_at run.now input.0) (events_of (input_at run.now input.0) now lines)) }
    ensures shallow { IfOk result (λ events. are_shallow events ≡ true) }
{
    let events = read_lines(run, alloc, input, now, lines)?;
    filter(rt, alloc, run.filters(), tag_or(run, input, &[]), events)
}

/// Appends the encoding of the event of a line to bytes. Returns `None` if there are none, or if they become
/// too many to be stored.
fn append_line(
    alloc: Global,
    reader: &mut LineReader<'_>,
    now: u64,
    line: Bytes,
    bytes: Option<Bytes>,
) -> Result<Option<Bytes>, Memory>
    ensures encodes { (events : List Event) → IsEncodingOf events bytes
        → IfOk result (IsEncodingOf (events ++ parsed reader.old line now ∷ [])) }
    ensures same { reader.new ≡ reader.old }
{
    lemma_encoded_length_decides();
    let Some(mut bytes) = bytes else {
        return Ok(None);
    };
    if !reader.write(alloc, line, now, &mut bytes)? {
        return Ok(None);
    }
    if bytes.len() as u64 > LARGEST_BATCH {
        return Ok(None);
    }
    Ok(Some(bytes))
}

/// Returns the encodings of the events of lines, one after another, or `None` if they are too many bytes to
/// be stored.
fn encodings(
    alloc: Global,
    reader: &mut LineReader<'_>,
    now: u64,
    lines: Lines,
) -> Result<Option<Bytes>, Memory>
    ensures { IfOk result (IsEncodingOf (map (λ (line : Line). parsed reader.old line.bytes now) lines)) }
{
    let mut bytes = Some(Bytes::new(alloc));
    for line in lines.into_vec() {
        bytes = append_line(alloc, reader, now, line.bytes, bytes)?;
    }
    Ok(bytes)
}

/// Parses lines with the parser of an input, at a clock value, straight into the encodings of their events.
fn encode_lines(
    alloc: Global,
    input: &InputSet,
    now: u64,
    lines: Lines,
) -> Result<EncodedBatch, Memory>
    ensures { IfOk result (HoldsEvents (events_of (Some input.now) now lines)) }
{
    let mut reader = input.parser.reader(alloc)?;
    let count = lines.len();
    let bytes = encodings(alloc, &mut reader, now, lines)?;
    Ok(EncodedBatch { count, bytes })
}

/// Parses, filters and encodes lines.
fn encoded_batch(
    rt: &(impl Threads + Sync),
    run: &RunSettings,
    alloc: Global,
    input: InputId,
    now: u64,
    lines: Lines,
) -> Result<EncodedBatch, Memory>
    ensures { IfOk result (HoldsEvents (filtered run.now.filters (tag_at run.now input.0) (events_of (input_at run.now input.0) now lines))) }
{
    if lines.is_empty() {
        return Ok(EncodedBatch::of_encodings(0, Bytes::new(alloc)));
    }
    if let Some(set) = run.input(input) {
        if are_idle(run.filters().as_slice(), tag_or(run, input, &[])) {
            return encode_lines(alloc, set, now, lines);
        }
    }
    let events = batch(rt, run, alloc, input, now, lines)?;
    encode(alloc, &events)
}

/// Parses, filters and accepts lines of an input as one batch.
pub fn accept_lines<D: Disk>(
    rt: &(impl Threads + Sync),
    run: &RunSettings,
    parts: &mut Parts,
    disk: &mut D,
    input: InputId,
    lines: Lines,
) -> Result<(), Memory>
    ensures acts { RefinesAction run.now (with_disk (D.call_log disk.old)) (with_disk (D.call_log disk.new)) parts.old parts.new (λ h. ingests run.now (batch_of run.now h input.0 lines) h) result }
    ensures later { D.faults disk.old ≤ D.faults disk.new }
{
    let now = parts.state.clock();
    let batch = encoded_batch(rt, run, parts.state.alloc(), input, now, lines)?;
    accept_encoded(run, parts, disk, input, tag_or(run, input, &[]), &batch)?;
    Ok(())
}
