ghost use Rattle.std.specs.Prelude.{◌≡◌, ◌≢◌, ◌⊎◌, ◌↔◌, ℕ, ◌+◌, ◌<◌, ◌≤◌, ◌^◌, ◌==◌, [], List, length, Some, None, Option, IfOk, IfErr, OnOk, OnErr, IsTrue, IsSome, IsErrOf, is_some, unwrap_or, Err, false};
ghost use Rattle.std.specs.FinMap as map;
ghost use Rattle.fwd_base.specs.Limits.{chunk_header, largest_batch, longest_tag, numbers_end};
ghost use Rattle.fwd_outside.specs.Program.{Return, and_then};
ghost use Rattle.fwd_outside.specs.Log.{RunsFallible, LogGrew};
ghost use Rattle.fwd_outside.specs.Cause.{HasCause};
ghost use Rattle.fwd_outside.specs.Disk.{disk_outcome};
ghost use Rattle.fwd_outside.specs.declared.errors.DiskErr.TheVariants.{Failed};
ghost use Rattle.fwd_outside.specs.declared.home.Home.TheVariants as home_of;
ghost use Rattle.fwd_chunk.specs.Layout.{AreOutputs};
ghost use Rattle.fwd_chunk.specs.Append.{create_program, new_head};
ghost use Rattle.fwd_chunk.specs.Outcome.{FitsNames};
ghost use Rattle.fwd_chunk.specs.declared.kept.Kept.{Kept};
ghost use Rattle.fwd_chunk.specs.declared.kept.Kept.TheVariants.{InFile, InMemory};
ghost use Rattle.fwd_store.specs.declared.answer.StoreRefusal.TheVariants as refusal;
ghost use Rattle.fwd_chunk.specs.declared.chunk.Brief.{Brief};
ghost use Rattle.fwd_chunk.specs.declared.chunk.Seen.TheVariants.{Whole};
ghost use Rattle.fwd_outside.specs.PostCrash.{DiskSince, DiskAfter};
ghost use Rattle.fwd_chunk.specs.declared.content.PartErr.TheVariants as part_err;
ghost use Rattle.fwd_chunk.specs.Name.{file_name};
ghost use Rattle.fwd_store.specs.Crash.{file_for, KeepsOthers, IsReadyToAccept, TakesBatch, HasBatch, LeavesOldOrNone, IsGone, NamesOutputs, KeepsOutcomes, Recorded};
ghost use Rattle.fwd_chunk.specs.Content.{ReadReturns, read_content_program, IsContentOf, HasRecordedLength, IsValidContent, IsContentIn, ReturnsContent};
ghost use Rattle.fwd_chunk.specs.Kept.{size_of, end_of, size_of_optional, file_of_optional};
ghost use Rattle.fwd_store.specs.OpenChunk.{first_of};
ghost use Rattle.fwd_store.specs.Store.{has_room, kept_outcome, IsRefusalOf, begins_as, new_kept, sealed, named, after_failed_append, has_file, IsSound, chunk_for, new_name, accept_outcome, BeginsChunk, GrowsChunk, AcceptsBatch, AbandonsBatch, RefusesBatch, HasFailed, CanGrow, append_to_program, accept_into_program, accept_program, has_no_number, drops, without_chunk, with_kept, head_of, IsWhole, path_of_recovered, adopted, IsNew, IsNoLater, settle_for_program};

use crate::answer::{Accepted, StoreRefusal};
use crate::chunk_map::ChunkMap;
use crate::open_chunks::{OpenChunks, Source};
use fwd_base::limits::{FULL_CHUNK, LARGEST_BATCH, NUMBERS_END};
use fwd_chunk::{Brief, ChunkHead, Found, Kept, PartErr, Seen, create, file_name, found_name};
use fwd_event::Events;
use fwd_outside::{Bytes, ChunkId, Disk, DiskErr, Home, InputId, Memory, Names};
use std::alloc::Global;
use std::marker::Model;

/// The chunks of a forwarder by number, in files or in memory, and the open chunk of each input and tag.
#[derive(Drop)]
pub struct Store {
    root: Option<Bytes>,
    full: bool,
    next: u64,
    chunks: ChunkMap,
    opened: OpenChunks,
}

impl Model for Store {
    ghost use Rattle.fwd_store.specs.StoreState.{Stored};
    ghost use Rattle.fwd_store.specs.Codes.{stored_code};
    ghost use Rattle.fwd_store.specs.Store.{IsSound};

    ghost Value = { Stored };

    ghost coded = { stored_code };

    ghost view = { λ s. record { root = s.root; full = s.full; next = s.next; chunks = s.chunks.list; opened = s.opened.list } };

    ghost invariant = { λ s. IsSound (record { root = s.root; full = s.full; next = s.next; chunks = s.chunks.list; opened = s.opened.list }) };
}

/// Returns the refusal for a failed disk call, or for memory.
fn refusal_of(error: DiskErr, sealed: Option<ChunkId>) -> StoreRefusal
    ensures { IsRefusalOf error sealed result }
{
    match error {
        DiskErr::Failed => StoreRefusal::DiskFailed { sealed },
        DiskErr::Memory => StoreRefusal::Memory,
    }
}

/// Creates the file of a new chunk with its first batch, and uses up its number.
fn place<D: Disk>(
    alloc: Global,
    disk: &mut D,
    root: &[u8],
    stream: &[u8],
    next: &mut u64,
    tag: &[u8],
    batch: &[u8],
    outputs: &Names,
) -> Result<Kept, StoreRefusal>
    requires tag { length tag.now ≤ longest_tag }
    requires outputs { AreOutputs outputs.now }
    requires batch { length batch.now ≤ largest_batch }
    requires number { next.old < numbers_end }
    ensures calls { RunsFallible (D.call_log disk.old) (D.call_log disk.new) (and_then (create_program (file_name root.now stream.now next.old) tag.now batch.now outputs.now) (λ _. Return (Some tt))) (kept_outcome result) }
    ensures ok { IfOk result (λ kept. (kept ≡ InFile (new_head (file_name root.now stream.now next.old) tag.now batch.now outputs.now)) × (next.new ≡ next.old + 1)) }
    ensures err { IfErr result (λ e. ((e ≡ refusal.Memory) × LogGrew (D.call_log disk.old) (D.call_log disk.new) [] × (next.new ≡ next.old)) ⊎ (((e ≡ refusal.Memory) ⊎ (e ≡ refusal.DiskFailed None)) × (next.new ≡ next.old + 1))) }
    ensures cause { HasCause (D.faults disk.old) (D.faults disk.new) (result ≡ Err (refusal.DiskFailed None)) }
{
    let name = file_name(alloc, root, stream, *next)?;
    *next += 1;
    match create(alloc, disk, name.as_slice(), tag, batch, outputs) {
        Ok(head) => Ok(Kept::InFile(head)),
        Err(error) => Err(refusal_of(error, None)),
    }
}

/// Creates a new chunk with its first batch, in a file or in memory. The number is used up, unless memory
/// runs out before the first call.
fn create_chunk<D: Disk>(
    alloc: Global,
    disk: &mut D,
    root: &[u8],
    stream: &[u8],
    next: &mut u64,
    tag: &[u8],
    home: Home,
    batch: &[u8],
    outputs: &Names,
) -> Result<Kept, StoreRefusal>
    requires tag { length tag.now ≤ longest_tag }
    requires outputs { AreOutputs outputs.now }
    requires batch { length batch.now ≤ largest_batch }
    requires number { next.old < numbers_end }
    ensures calls { RunsFallible (D.call_log disk.old) (D.call_log disk.new) (begins_as (file_name root.now stream.now next.old) tag.now home batch.now outputs.now) (kept_outcome result) }
    ensures ok { IfOk result (λ kept. (kept ≡ new_kept (file_name root.now stream.now next.old) tag.now home batch.now outputs.now) × (next.new ≡ next.old + 1)) }
    ensures err { IfErr result (λ e. ((e ≡ refusal.Memory) × LogGrew (D.call_log disk.old) (D.call_log disk.new) [] × (next.new ≡ next.old)) ⊎ (((e ≡ refusal.Memory) ⊎ (e ≡ refusal.DiskFailed None)) × (next.new ≡ next.old + 1))) }
    ensures cause { HasCause (D.faults disk.old) (D.faults disk.new) (result ≡ Err (refusal.DiskFailed None)) }
{
    match home {
        Home::Disk => place(alloc, disk, root, stream, next, tag, batch, outputs),
        Home::Ram => {
            let content = Bytes::from_slice(alloc, batch)?;
            *next += 1;
            Ok(Kept::InMemory(content))
        }
    }
}

// Returns the head of a recovered file with this path.
fn recovered_head(alloc: Global, name: Bytes, brief: &Brief) -> Result<ChunkHead, Memory>
    ensures { IfOk result (λ head. head ≡ head_of name brief.now) }
{
    let outputs = brief.outputs.try_clone(alloc)?;
    Ok(ChunkHead {
        name,
        meta: brief.meta,
        size: brief.size,
        selector: 0,
        mark: brief.mark,
        outputs,
    })
}

// Returns the bytes of a name; no bytes if there is none.
fn bytes_of(name: &Option<Bytes>) -> &[u8]
    ensures { result.now ≡ unwrap_or name.now [] }
{
    match name {
        Some(name) => name.as_slice(),
        None => &[],
    }
}

impl Store {
    /// Returns a store without chunks. The files of its chunks are under `root`; if `full`, each append is
    /// synced; the first new chunk has the number `next`, from 1 to 2^63.
    pub fn new(alloc: Global, root: Option<Bytes>, full: bool, next: u64) -> Self
        requires { next ≤ numbers_end }
        ensures { result ≡ record { root = root; full = full; next = next; chunks = map.empty; opened = [] } }
    {
        Store {
            root,
            full,
            next,
            chunks: ChunkMap::new(alloc),
            opened: OpenChunks::new(alloc),
        }
    }

    /// Each open chunk is in the store and can grow, and the next number is above that of each chunk of the
    /// store.
    pub fn is_sound(&self)
        ensures { IsSound self.now }
    {
        let _ = &self.full;
    }

    /// Returns whether the store has a chunk.
    pub fn holds(&self, chunk: ChunkId) -> bool
        ensures { result ≡ is_some (map.get self.now.chunks chunk.0) }
    {
        self.chunks.get(chunk.0).is_some()
    }

    /// Returns the outputs that the file of a chunk names. They are for a watcher, and no clause speaks of them.
    pub fn named_outputs(&self, chunk: ChunkId) -> Option<&Names> {
        match self.chunks.get(chunk.0) {
            Some(Kept::InFile(head)) => Some(&head.outputs),
            Some(Kept::Adopted(head)) => Some(&head.outputs),
            Some(Kept::InMemory(_)) | None => None,
        }
    }

    /// Closes a chunk, if it is open.
    pub fn shut(&mut self, chunk: ChunkId)
        ensures { self.new ≡ sealed self.old chunk.0 }
    {
        self.opened.close(chunk.0);
    }

    /// Returns the open chunk that was opened first. The program doesn't use it: it is for callers that close
    /// chunks in that order.
    pub fn first_open(&self) -> Option<ChunkId>
        ensures { result ≡ named (first_of self.now.opened) }
    {
        match self.opened.first() {
            Some(number) => Some(ChunkId(number)),
            None => None,
        }
    }

    /// Returns whether there is a folder for chunk files.
    pub fn has_root(&self) -> bool
        ensures { result ≡ is_some self.now.root }
    {
        self.root.is_some()
    }

    /// Returns whether the open chunk of this input and tag, if there is one, has less than 2,048,000 bytes
    /// (`FULL_CHUNK`) of content. It allocates nothing.
    pub fn has_room(&self, input: InputId, tag: &[u8]) -> bool
        ensures { result ≡ has_room self.now (chunk_for self.now input.0 tag.now) }
    {
        match self.opened.find(input, tag) {
            Some(number) => self.size(number) < FULL_CHUNK,
            None => true,
        }
    }

    /// Accepts a batch of whole events for an input and a tag. It appends the batch to their open chunk, or
    /// begins a new chunk, with the next number, in a file below the root and `stream`, or in memory.
    ///
    /// The tag is a text of 1 to 1,024 bytes. A store without a root has no chunk in a file (`has_root`). An
    /// open chunk has less than 2,048,000 bytes of content (`has_room`): the caller closes one that reached
    /// this size. A number whose file creation failed isn't used again. A new file names `outputs`; an open
    /// chunk keeps its own.
    pub fn accept<D: Disk>(
        &mut self,
        alloc: Global,
        disk: &mut D,
        input: InputId,
        stream: &[u8],
        tag: &[u8],
        home: Home,
        batch: &[u8],
        outputs: &Names,
    ) -> Result<Accepted, StoreRefusal>
        requires tag { length tag.now ≤ longest_tag }
        requires outputs { AreOutputs outputs.now }
        requires root { home ≡ home_of.Disk → IsSome self.old.root }
        requires room { IsTrue (has_room self.old (chunk_for self.old input.0 tag.now)) }
        ensures calls { RunsFallible (D.call_log disk.old) (D.call_log disk.new) (accept_program self.old input.0 stream.now tag.now home batch.now outputs.now) (accept_outcome result) }

        // The store after each answer.
        ensures ok { IfOk result (AcceptsBatch self.old self.new (chunk_for self.old input.0 tag.now) input.0 stream.now tag.now home batch.now outputs.now) }
        ensures err { IfErr result (RefusesBatch (D.call_log disk.old) (D.call_log disk.new) self.old self.new (chunk_for self.old input.0 tag.now)) }

        // It checks the size of the batch first, and the number second.
        ensures too_large { (result ≡ Err refusal.BatchTooLarge) ↔ (largest_batch < length batch.now) }
        ensures no_number { (result ≡ Err refusal.NoNumber) ↔ ((length batch.now ≤ largest_batch) × IsTrue (has_no_number self.old input.0 tag.now)) }

        // Under full sync a crash at any point of the call leaves the open chunk's file with the old
        // content, or with that and the batch, and a new file complete or absent. After Ok the file has the
        // batch.
        ensures any_moment { IsTrue self.old.full → (meta content : List ℕ) → DiskSince (D.call_log disk.old) (D.call_log disk.new)
            (IsReadyToAccept self.old (chunk_for self.old input.0 tag.now) stream.now home meta content) (TakesBatch self.old (chunk_for self.old input.0 tag.now) stream.now tag.now home batch.now outputs.now meta content) }
        ensures settled { (meta content : List ℕ) → IfOk result (λ accepted. IsTrue self.old.full → DiskAfter (D.call_log disk.old) (D.call_log disk.new)
            (IsReadyToAccept self.old (chunk_for self.old input.0 tag.now) stream.now home meta content) (λ _ last. HasBatch (chunk_for self.old input.0 tag.now) (map.get self.new.chunks accepted.chunk.0) tag.now batch.now outputs.now meta content last)) }
        ensures others { DiskSince (D.call_log disk.old) (D.call_log disk.new) (λ _. Unit {0}) (KeepsOthers (file_for self.old (chunk_for self.old input.0 tag.now) stream.now home)) }
        ensures cause { HasCause (D.faults disk.old) (D.faults disk.new) (HasFailed result) }
    {
        self.is_sound();
        self.accept_batch(alloc, disk, input, stream, tag, home, batch, outputs)
    }

    /// Returns the content of a chunk of the store, whole events. The content of a chunk in a file is read
    /// from it, in pieces. It is `Damaged` if the bytes aren't whole events of the recorded length, which
    /// can't happen on a disk that keeps synced bytes. It reads as `bytes` does. The program asks for `bytes`;
    /// this is for callers that want whole events.
    pub fn content<D: Disk>(
        &self,
        alloc: Global,
        disk: &mut D,
        chunk: ChunkId,
    ) -> Result<Bytes, PartErr>
        requires { IsSome (map.get self.now.chunks chunk.0) }
        ensures calls { (kept : Kept) → map.get self.now.chunks chunk.0 ≡ Some kept → ReadReturns (D.call_log disk.old) (D.call_log disk.new) (read_content_program kept) (IsContentOf kept) result }

        // If the content is in its place, it is the answer.
        ensures stands { (kept : Kept) (content : List ℕ) → map.get self.now.chunks chunk.0 ≡ Some kept → IsValidContent kept content
            → DiskAfter (D.call_log disk.old) (D.call_log disk.new) (IsContentIn kept content) (λ _ _. ReturnsContent content result) }
        ensures any_moment { DiskSince (D.call_log disk.old) (D.call_log disk.new) (λ _. Unit {0}) (λ first now. now ≡ first) }
        ensures cause { HasCause (D.faults disk.old) (D.faults disk.new) (IsErrOf result part_err.DiskFailed) }
    {
        self.kept(chunk.0).content(alloc, disk)
    }

    /// Returns the bytes of a chunk's content, as many as are recorded. It doesn't check that they encode
    /// events.
    pub fn bytes<D: Disk>(
        &self,
        alloc: Global,
        disk: &mut D,
        chunk: ChunkId,
    ) -> Result<Bytes, PartErr>
        requires { IsSome (map.get self.now.chunks chunk.0) }
        ensures calls { (kept : Kept) → map.get self.now.chunks chunk.0 ≡ Some kept → ReadReturns (D.call_log disk.old) (D.call_log disk.new) (read_content_program kept) (HasRecordedLength (size_of kept)) result }

        // If the content is in its place, it is the answer.
        ensures stands { (kept : Kept) (content : List ℕ) → map.get self.now.chunks chunk.0 ≡ Some kept → IsValidContent kept content
            → DiskAfter (D.call_log disk.old) (D.call_log disk.new) (IsContentIn kept content) (λ _ _. ReturnsContent content result) }
        ensures any_moment { DiskSince (D.call_log disk.old) (D.call_log disk.new) (λ _. Unit {0}) (λ first now. now ≡ first) }
        ensures cause { HasCause (D.faults disk.old) (D.faults disk.new) (IsErrOf result part_err.DiskFailed) }
    {
        self.kept(chunk.0).bytes(alloc, disk)
    }

    /// Records in the file of a chunk that an output has its outcome. Returns false, with no disk call, if
    /// the chunk is in memory or its file doesn't name the output. It allocates nothing.
    pub fn settle<D: Disk>(
        &self,
        disk: &mut D,
        chunk: ChunkId,
        output: &[u8],
    ) -> Result<bool, DiskErr>
        requires { IsSome (map.get self.now.chunks chunk.0) }
        ensures calls { RunsFallible (D.call_log disk.old) (D.call_log disk.new) (settle_for_program (map.get self.now.chunks chunk.0) output.now self.now.full) (disk_outcome result) }

        // A crash at any point of the call leaves the file with the tag, the content and the outcomes of
        // some state from before, except for the outcome of this output, and no other file changes. After
        // true under full sync the outcome is durable.
        ensures any_moment { DiskSince (D.call_log disk.old) (D.call_log disk.new) (NamesOutputs (map.get self.now.chunks chunk.0)) (KeepsOutcomes (map.get self.now.chunks chunk.0) output.now) }
        ensures recorded { IfOk result (λ done. IsTrue done → IsTrue self.now.full → DiskAfter (D.call_log disk.old) (D.call_log disk.new) (NamesOutputs (map.get self.now.chunks chunk.0)) (Recorded (map.get self.now.chunks chunk.0) output.now)) }
        ensures cause { HasCause (D.faults disk.old) (D.faults disk.new) (IsErrOf result Failed) }
    {
        self.settle_inner(disk, chunk.0, output)
    }

    /// Removes a chunk from the store, and its file, if it has one, by one call. The chunk is gone from the
    /// store whatever the call answers.
    pub fn drop_chunk<D: Disk>(&mut self, disk: &mut D, chunk: ChunkId) -> Result<(), DiskErr>
        requires { IsSome (map.get self.old.chunks chunk.0) }
        ensures calls { RunsFallible (D.call_log disk.old) (D.call_log disk.new) (drops (map.get self.old.chunks chunk.0)) (disk_outcome result) }
        ensures dropped { self.new ≡ without_chunk self.old chunk.0 }

        // A crash at any point of the call leaves the file as it could have left it before, or no file;
        // after Ok, no file.
        ensures any_moment { DiskSince (D.call_log disk.old) (D.call_log disk.new) (λ _. Unit {0}) (LeavesOldOrNone (file_of_optional (map.get self.old.chunks chunk.0))) }
        ensures gone { OnOk result (DiskAfter (D.call_log disk.old) (D.call_log disk.new) (λ _. Unit {0}) (λ _ last. IsGone (file_of_optional (map.get self.old.chunks chunk.0)) last)) }
        ensures cause { HasCause (D.faults disk.old) (D.faults disk.new) (IsErrOf result Failed) }
    {
        let answer = self.remove_file(disk, chunk.0);
        self.chunks.remove(chunk.0);
        self.opened.close(chunk.0);
        answer
    }

    /// Makes a recovered file the file of this chunk, which takes no batches. The store has a root, the file
    /// belongs to no other chunk and to none to come, and the number is below the next one and new to the
    /// store. `Memory` leaves the store unchanged.
    pub fn adopt(&mut self, alloc: Global, chunk: ChunkId, found: &Found) -> Result<(), Memory>
        requires root { IsSome self.old.root }
        requires whole { IsWhole found.now }
        requires number { chunk.0 < self.old.next }
        requires new { map.get self.old.chunks chunk.0 ≡ None }
        requires own { IsNew self.old (path_of_recovered self.old found.now) }
        requires free { IsNoLater self.old.root self.old.next (path_of_recovered self.old found.now) }
        ensures ok { OnOk result ((brief : Brief) → found.now.seen ≡ Whole brief → self.new ≡ with_kept self.old chunk.0 (adopted self.old found.now brief)) }
        ensures err { OnErr result (self.new ≡ self.old) }
    {
        match &found.seen {
            Seen::Whole(brief) => self.adopt_file(alloc, chunk.0, found, brief),
            Seen::Empty(_) | Seen::Refused(_) => unreachable!(),
        }
    }

    // Adopts a file whose description is `brief`.
    fn adopt_file(
        &mut self,
        alloc: Global,
        number: u64,
        found: &Found,
        brief: &Brief,
    ) -> Result<(), Memory>
        requires number { number < self.old.next }
        requires new { map.get self.old.chunks number ≡ None }
        requires offsets { chunk_header + brief.now.meta + brief.now.size < 2 ^ 64 }
        requires names { FitsNames (head_of [] brief.now) }
        requires own { IsNew self.old (path_of_recovered self.old found.now) }
        requires free { IsNoLater self.old.root self.old.next (path_of_recovered self.old found.now) }
        ensures ok { OnOk result (self.new ≡ with_kept self.old number (adopted self.old found.now brief.now)) }
        ensures err { OnErr result (self.new ≡ self.old) }
    {
        self.chunks.reserve()?;
        let root = bytes_of(&self.root);
        let name = found_name(alloc, root, found.stream.as_slice(), found.name.as_slice())?;
        let head = recovered_head(alloc, name, brief)?;
        self.chunks.insert(number, Kept::Adopted(head));
        Ok(())
    }

    // Removes the file of a chunk of the store, if it has one.
    fn remove_file<D: Disk>(&self, disk: &mut D, number: u64) -> Result<(), DiskErr>
        requires { IsSome (map.get self.now.chunks number) }
        ensures calls { RunsFallible (D.call_log disk.old) (D.call_log disk.new) (drops (map.get self.now.chunks number)) (disk_outcome result) }
        ensures cause { HasCause (D.faults disk.old) (D.faults disk.new) (IsErrOf result Failed) }
    {
        match self.chunks.get(number) {
            Some(kept) => kept.remove(disk),
            None => unreachable!(),
        }
    }

    // Returns a chunk of the store.
    fn kept(&self, number: u64) -> &Kept
        requires { IsSome (map.get self.now.chunks number) }
        ensures found { map.get self.now.chunks number ≡ Some result.now }
        ensures fits { end_of result.now < 2 ^ 64 }
    {
        match self.chunks.get(number) {
            Some(kept) => kept,
            None => unreachable!(),
        }
    }

    // Makes the calls of `settle` for a chunk of the store.
    fn settle_inner<D: Disk>(
        &self,
        disk: &mut D,
        number: u64,
        output: &[u8],
    ) -> Result<bool, DiskErr>
        requires { IsSome (map.get self.now.chunks number) }
        ensures calls { RunsFallible (D.call_log disk.old) (D.call_log disk.new) (settle_for_program (map.get self.now.chunks number) output.now self.now.full) (disk_outcome result) }
        ensures cause { HasCause (D.faults disk.old) (D.faults disk.new) (IsErrOf result Failed) }
    {
        match self.chunks.get(number) {
            Some(kept) => kept.settle(disk, output, self.full),
            None => unreachable!(),
        }
    }

    // Returns whether the batch needs a new chunk and no number is left.
    fn has_no_number(&self, input: InputId, tag: &[u8]) -> bool
        ensures { result ≡ has_no_number self.now input.0 tag.now }
    {
        self.next == NUMBERS_END && self.opened.find(input, tag).is_none()
    }

    // Works as `accept`; its contract says nothing of crashes.
    fn accept_batch<D: Disk>(
        &mut self,
        alloc: Global,
        disk: &mut D,
        input: InputId,
        stream: &[u8],
        tag: &[u8],
        home: Home,
        batch: &[u8],
        outputs: &Names,
    ) -> Result<Accepted, StoreRefusal>
        requires tag { length tag.now ≤ longest_tag }
        requires outputs { AreOutputs outputs.now }
        requires root { home ≡ home_of.Disk → IsSome self.old.root }
        requires room { IsTrue (has_room self.old (chunk_for self.old input.0 tag.now)) }
        ensures calls { RunsFallible (D.call_log disk.old) (D.call_log disk.new) (accept_program self.old input.0 stream.now tag.now home batch.now outputs.now) (accept_outcome result) }

        // The store after each answer.
        ensures ok { IfOk result (AcceptsBatch self.old self.new (chunk_for self.old input.0 tag.now) input.0 stream.now tag.now home batch.now outputs.now) }
        ensures err { IfErr result (RefusesBatch (D.call_log disk.old) (D.call_log disk.new) self.old self.new (chunk_for self.old input.0 tag.now)) }

        // It checks the size of the batch first, and the number second.
        ensures too_large { (result ≡ Err refusal.BatchTooLarge) ↔ (largest_batch < length batch.now) }
        ensures no_number { (result ≡ Err refusal.NoNumber) ↔ ((length batch.now ≤ largest_batch) × IsTrue (has_no_number self.old input.0 tag.now)) }
        ensures cause { HasCause (D.faults disk.old) (D.faults disk.new) (HasFailed result) }
    {
        if batch.len() as u64 > LARGEST_BATCH {
            return Err(StoreRefusal::BatchTooLarge);
        }
        if self.has_no_number(input, tag) {
            return Err(StoreRefusal::NoNumber);
        }
        self.take(alloc, disk, input, stream, tag, home, batch, outputs)
    }

    // Accepts a batch of an allowed size, if a number is left.
    fn take<D: Disk>(
        &mut self,
        alloc: Global,
        disk: &mut D,
        input: InputId,
        stream: &[u8],
        tag: &[u8],
        home: Home,
        batch: &[u8],
        outputs: &Names,
    ) -> Result<Accepted, StoreRefusal>
        requires tag { length tag.now ≤ longest_tag }
        requires outputs { AreOutputs outputs.now }
        requires batch { length batch.now ≤ largest_batch }
        requires number { has_no_number self.old input.0 tag.now ≡ false }
        requires room { IsTrue (has_room self.old (chunk_for self.old input.0 tag.now)) }
        ensures calls { RunsFallible (D.call_log disk.old) (D.call_log disk.new) (accept_into_program self.old (chunk_for self.old input.0 tag.now) stream.now tag.now home batch.now outputs.now) (accept_outcome result) }
        ensures ok { IfOk result (AcceptsBatch self.old self.new (chunk_for self.old input.0 tag.now) input.0 stream.now tag.now home batch.now outputs.now) }
        ensures err { IfErr result (AbandonsBatch (D.call_log disk.old) (D.call_log disk.new) self.old self.new (chunk_for self.old input.0 tag.now)) }
        ensures cause { HasCause (D.faults disk.old) (D.faults disk.new) (HasFailed result) }
    {
        let owned = Bytes::from_slice(alloc, tag)?;
        let source = Source {
            input,
            tag: owned.into_vec(),
        };
        match self.opened.get(&source) {
            Some(number) => self.append(disk, number, batch),
            None => self.begin_chunk(alloc, disk, source, stream, tag, home, batch, outputs),
        }
    }

    // Returns the length of a chunk's content in bytes; 0 if the store doesn't have it.
    fn size(&self, number: u64) -> u64
        ensures { result ≡ size_of_optional (map.get self.now.chunks number) }
    {
        match self.chunks.get(number) {
            Some(kept) => kept.size(),
            None => 0,
        }
    }

    // Closes a chunk in a file after a failed append; one in memory stays open.
    fn seal_chunk(&mut self, number: u64)
        ensures { self.new ≡ after_failed_append self.old number (map.get self.old.chunks number) }
    {
        if self.is_in_file(number) {
            self.opened.close(number);
        }
    }

    fn is_in_file(&self, number: u64) -> bool
        ensures { result ≡ has_file (map.get self.now.chunks number) }
    {
        match self.chunks.get(number) {
            Some(kept) => kept.is_in_file(),
            None => false,
        }
    }

    // Begins a new chunk with a batch.
    fn begin_chunk<D: Disk>(
        &mut self,
        alloc: Global,
        disk: &mut D,
        source: Source,
        stream: &[u8],
        tag: &[u8],
        home: Home,
        batch: &[u8],
        outputs: &Names,
    ) -> Result<Accepted, StoreRefusal>
        requires tag { length tag.now ≤ longest_tag }
        requires outputs { AreOutputs outputs.now }
        requires batch { length batch.now ≤ largest_batch }
        requires source { source.tag.items ≡ tag.now }
        requires none { chunk_for self.old source.input.0 tag.now ≡ None }
        requires number { self.old.next < numbers_end }
        ensures calls { RunsFallible (D.call_log disk.old) (D.call_log disk.new) (begins_as (new_name self.old stream.now) tag.now home batch.now outputs.now) (accept_outcome result) }
        ensures ok { IfOk result (BeginsChunk self.old self.new source.input.0 stream.now tag.now home batch.now outputs.now) }
        ensures err { IfErr result (AbandonsBatch (D.call_log disk.old) (D.call_log disk.new) self.old self.new None) }
        ensures cause { HasCause (D.faults disk.old) (D.faults disk.new) (HasFailed result) }
    {
        self.chunks.reserve()?;
        self.opened.reserve()?;
        let number = self.next;
        let root = bytes_of(&self.root);
        match create_chunk(
            alloc,
            disk,
            root,
            stream,
            &mut self.next,
            tag,
            home,
            batch,
            outputs,
        ) {
            Ok(kept) => {
                self.chunks.insert(number, kept);
                self.opened.push(source, number);
                Ok(Accepted {
                    chunk: ChunkId(number),
                    size: batch.len() as u64,
                    fresh: true,
                })
            }
            Err(refusal) => Err(refusal),
        }
    }

    // Appends a batch to an open chunk.
    fn append<D: Disk>(
        &mut self,
        disk: &mut D,
        number: u64,
        batch: &[u8],
    ) -> Result<Accepted, StoreRefusal>
        requires grows { CanGrow (map.get self.old.chunks number) }
        requires batch { length batch.now ≤ largest_batch }
        requires room { IsTrue (has_room self.old (Some number)) }
        ensures calls { RunsFallible (D.call_log disk.old) (D.call_log disk.new) (append_to_program (map.get self.old.chunks number) batch.now self.old.full) (accept_outcome result) }
        ensures ok { IfOk result (GrowsChunk self.old self.new number batch.now) }
        ensures err { IfErr result (AbandonsBatch (D.call_log disk.old) (D.call_log disk.new) self.old self.new (Some number)) }
        ensures cause { HasCause (D.faults disk.old) (D.faults disk.new) (HasFailed result) }
    {
        match self.chunks.append(disk, number, batch, self.full) {
            Ok(()) => Ok(Accepted {
                chunk: ChunkId(number),
                size: self.size(number),
                fresh: false,
            }),
            Err(error) => {
                self.seal_chunk(number);
                Err(refusal_of(error, Some(ChunkId(number))))
            }
        }
    }
}
