//! Theorems: the content of a chunk is at the offset in its file that reads use.

ghost use Rattle.std.specs.Prelude.{List, ℕ, ◌++◌, ◌≡◌, length};
ghost use Rattle.fwd_outside.specs.Disk.{DiskEntry, DiskGiven};
ghost use Rattle.fwd_outside.specs.DiskStates.{Files, IsReachable};
ghost use Rattle.fwd_outside.specs.PostCrash.{AllPostCrash};
ghost use Rattle.fwd_event.specs.declared.event.Event.{Event};
ghost use Rattle.fwd_event.specs.Event.{AreEvents};
ghost use Rattle.fwd_chunk.specs.declared.append.ChunkHead.{ChunkHead};
ghost use Rattle.fwd_chunk.specs.Append.{DurableIn, LeavesOldOrNew};
ghost use Rattle.fwd_chunk.specs.declared.kept.Kept.TheVariants.{InFile};
ghost use Rattle.fwd_chunk.specs.Content.{IsContentIn, IsValidContent};

/// If a file has one post-crash state, and that has the head's lengths, its content is where reads look for
/// it.
pub fn durable_content_is_read()
    ensures stands { (head : ChunkHead) (meta content : List ℕ) (files : Files) → DurableIn head meta content files → IsContentIn (InFile head) content files }
    ensures kept { (head : ChunkHead) (meta content : List ℕ) (files : Files) (events : List Event) → DurableIn head meta content files → AreEvents events content → IsValidContent (InFile head) content }
{}

/// If a file has a content, or that content and the batch of a failed append, the content is where reads
/// look for it.
pub fn sealed_content_is_read()
    ensures { (head : ChunkHead) (meta content batch : List ℕ) (given : DiskGiven) (before : List DiskEntry) (files : Files)
        → IsReachable given before files → AllPostCrash head.name (LeavesOldOrNew head.mark meta content (content ++ batch)) files → length meta ≡ head.meta → length content ≡ head.size
        → IsContentIn (InFile head) content files }
{}
