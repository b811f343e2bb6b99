ghost use Rattle.std.specs.Prelude.{◌≡◌, ◌≤◌, ◌<◌, ◌∷◌, false, length, List, Option, None, Some, IsSome};
ghost use Rattle.fwd_base.specs.Limits.{largest_batch, longest_tag};
ghost use Rattle.fwd_event.specs.declared.event.Event.{Event};
ghost use Rattle.fwd_outside.specs.declared.home.Home.TheVariants as home_of;
ghost use Rattle.fwd_model.specs.Fact.{History, Route, Batch, Accepted as Taken};
ghost use Rattle.fwd_model.specs.Settings.{outputs_for, home_at};
ghost use Rattle.fwd_model.specs.Chunks.{next, is_closed, size as size_of, open_chunk};
ghost use Rattle.fwd_model.specs.CloseActions.{closes_if_full};
ghost use Rattle.fwd_model.specs.Acceptance.{stores};
ghost use Rattle.fwd_model.specs.Refines.{Refines};
ghost use Rattle.fwd_model.specs.CallLogs.{CallLogs};
ghost use Rattle.fwd_engine_state.specs.StateRepresents.{StateRepresents, IsMaskOf};
ghost use Rattle.fwd_engine_state.specs.StoreRepresents.{StoreRepresents};
ghost use Rattle.fwd_engine_state.specs.PartsRepresent.{PartsRepresent, PartsRepresentIdle};
ghost use Rattle.fwd_engine_state.specs.RefinesAction.{with_disk, RefinesAccepting};
ghost use Rattle.fwd_engine_chunks.specs.BatchOutcome.{IsEncoded, AcceptsAs, StoreIsAhead, place_of, behind, SizesMatch, StoreHasTaken, goes_on, failed_history, WasOpen, refuses_after_fault};

use crate::close;
use fwd_base::limits::FULL_CHUNK;
use fwd_base::{ChunkId, InputId, Memory};
use fwd_engine_settings::{RunSettings, lemma_output_names_fit};
use fwd_engine_state::{Parts, Place, State};
use fwd_outside::{Disk, Home};
use fwd_store::{Accepted, Store, StoreRefusal};

/// Closes a chunk of `bytes` bytes if it is full.
fn close_if_full<D: Disk>(
    run: &RunSettings,
    parts: &mut Parts,
    disk: &mut D,
    chunk: ChunkId,
    bytes: u64,
) -> Result<(), Memory>
    ensures acts { (others : CallLogs) (h : History) → PartsRepresent run.now parts.old h None (Some chunk.0) → is_closed h chunk.0 ≡ false → chunk.0 < next h → bytes ≡ size_of h chunk.0
        → Refines (λ _ now. PartsRepresentIdle run.now parts.new now) (with_disk (D.call_log disk.old) others) (with_disk (D.call_log disk.new) others) (closes_if_full run.now chunk.0 h) result }
    ensures later { D.faults disk.old ≤ D.faults disk.new }
{
    if bytes >= FULL_CHUNK {
        close(run, parts, disk, chunk)
    } else {
        Ok(())
    }
}

/// Records in the state a batch that the store accepted. `routes` is the mask of the outputs whose glob
/// matches its tag.
fn note(
    run: &RunSettings,
    state: &mut State,
    input: InputId,
    place: Place,
    routes: u64,
    count: usize,
    accepted: Accepted,
)
    requires room { 1 ≤ state.old.chunks.spare }
    requires routes { IsMaskOf (outputs_for run.now place.tag) routes }
    ensures { (b : Batch) (h : History) (out : Option Route) → b.input ≡ input.0 → b.tag ≡ place.tag → length b.events ≡ count
        → StateRepresents run.now state.old h out → SizesMatch run.now h b accepted.chunk.0 accepted.size accepted.fresh
        → StateRepresents run.now state.new (Taken b (place_of accepted) ∷ h) out }
{
    if accepted.fresh {
        let home = run.home(input);
        state.begin_chunk(
            place,
            accepted.chunk,
            input,
            home,
            accepted.size,
            count,
            routes,
        );
    } else {
        state.grow_chunk(accepted.chunk, input, count, accepted.size);
    }
}

/// Records a batch that the store accepted, and closes the chunk if it is full.
fn take<D: Disk>(
    run: &RunSettings,
    parts: &mut Parts,
    disk: &mut D,
    input: InputId,
    place: Place,
    routes: u64,
    count: usize,
    accepted: Accepted,
) -> Result<bool, Memory>
    requires room { 1 ≤ parts.old.state.chunks.spare }
    requires routes { IsMaskOf (outputs_for run.now place.tag) routes }
    ensures acts { (others : CallLogs) (h : History) (b : Batch) → b.input ≡ input.0 → b.tag ≡ place.tag → length b.events ≡ count
        → StoreIsAhead run.now parts.old h (behind b h accepted) → StoreHasTaken run.now h b accepted
        → AcceptsAs run.now parts.new (with_disk (D.call_log disk.old) others) (with_disk (D.call_log disk.new) others) (goes_on run.now b h accepted) result }
    ensures later { D.faults disk.old ≤ D.faults disk.new }
{
    note(run, &mut parts.state, input, place, routes, count, accepted);
    close_if_full(run, parts, disk, accepted.chunk, accepted.size)?;
    Ok(true)
}

/// Refuses a batch after a failed disk call, and closes the open chunk that it was appended to, if there is
/// one.
fn refuse_after_fault<D: Disk>(
    run: &RunSettings,
    parts: &mut Parts,
    disk: &mut D,
    input: InputId,
    sealed: Option<ChunkId>,
) -> Result<bool, Memory>
    ensures acts { (others : CallLogs) (h : History) (b : Batch) → b.input ≡ input.0 → StoreIsAhead run.now parts.old h (failed_history b h sealed) → WasOpen h sealed
        → AcceptsAs run.now parts.new (with_disk (D.call_log disk.old) others) (with_disk (D.call_log disk.new) others) (refuses_after_fault run.now b h sealed) result }
    ensures later { D.faults disk.old ≤ D.faults disk.new }
{
    parts.state.count_fault();
    parts.state.count_refused(input);
    if let Some(chunk) = sealed {
        close(run, parts, disk, chunk)?;
    }
    Ok(false)
}

/// Returns where a new chunk of an input is kept: where the settings say, but in memory if the store has no
/// folder. The store has a folder if any input keeps its chunks in files.
fn home_for(run: &RunSettings, store: &Store, input: InputId) -> Home
    ensures root { result ≡ home_of.Disk → IsSome store.now.root }
    ensures home { (h : History) → StoreRepresents run.now store.now h → result ≡ home_at run.now input.0 }
{
    run.lemma_settings_are_sound();
    let home = run.home(input);
    if store.has_root() { home } else { Home::Ram }
}

/// Puts a batch into the open chunk of its input and tag, or into a new one. `routes` is the mask of the
/// outputs whose glob matches the tag, and `bytes` are the encodings of the `count` events of the batch.
/// Refuses the batch if the open chunk has no room, if no chunk number is left, or if the disk failed.
pub fn store<D: Disk>(
    run: &RunSettings,
    parts: &mut Parts,
    disk: &mut D,
    input: InputId,
    tag: &[u8],
    routes: u64,
    count: usize,
    bytes: &[u8],
) -> Result<bool, Memory>
    requires tag { length tag.now ≤ longest_tag }
    requires routes { IsMaskOf (outputs_for run.now tag.now) routes }
    requires short { length bytes.now ≤ largest_batch }
    ensures acts { (events : List Event) → IsEncoded events bytes.now → length events ≡ count
        → RefinesAccepting run.now (with_disk (D.call_log disk.old)) (with_disk (D.call_log disk.new)) parts.old parts.new
        (λ h. stores run.now (record { input = input.0; tag = tag.now; events = events }) (open_chunk h input.0 tag.now) h) result }
    ensures later { D.faults disk.old ≤ D.faults disk.new }
{
    lemma_output_names_fit();
    run.lemma_settings_are_sound();
    parts.store.is_sound();
    if !parts.store.has_room(input, tag) {
        // A chunk that is full has closed, so an open one has room.
        parts.state.count_refused(input);
        return Ok(false);
    }
    let home = home_for(run, &parts.store, input);
    let alloc = parts.state.alloc();
    let names = run.names_of(alloc, routes)?;
    let place = parts.state.reserve(tag)?;
    match parts.store.accept(
        alloc,
        disk,
        input,
        run.stream(input),
        tag,
        home,
        bytes,
        &names,
    ) {
        Ok(accepted) => take(run, parts, disk, input, place, routes, count, accepted),
        Err(StoreRefusal::DiskFailed { sealed }) => refuse_after_fault(
            run, parts, disk, input, sealed,
        ),
        Err(StoreRefusal::NoNumber) => {
            parts.state.count_refused(input);
            Ok(false)
        }
        // The bytes are at most `LARGEST_BATCH`.
        Err(StoreRefusal::BatchTooLarge) => unreachable!(),
        Err(StoreRefusal::Memory) => Err(Memory),
    }
}
