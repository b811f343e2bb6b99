//! Theorems: what was written is read back, and bytes have one reading.

ghost use Rattle.std.specs.Prelude.{List, ℕ, ◌≡◌, ◌<◌, ◌^◌, ◌↔◌, length, take, IsTrue, Some, Ok};
ghost use Rattle.std.specs.Str.{is_utf8};
ghost use Rattle.fwd_event.specs.declared.event.Event.{Event};
ghost use Rattle.fwd_event.specs.Event.{AreEvents};
ghost use Rattle.fwd_chunk.specs.Layout.{HasParts, NamedOutput, named_meta_bytes, AreOutputs, meta_length};
ghost use Rattle.fwd_chunk.specs.declared.chunk.Chunk.{Chunk};
ghost use Rattle.fwd_chunk.specs.declared.chunk.Seen.{Seen};
ghost use Rattle.fwd_chunk.specs.declared.metadata.Metadata.{Metadata};
ghost use Rattle.fwd_chunk.specs.Metadata.{names_of, done_of, tag_of, parse_named, with_tag, as_metadata, without_outputs, parse_metadata};
ghost use Rattle.fwd_chunk.specs.Format.{ChunkRead, StandsFor, chunk_of};
ghost use Rattle.fwd_chunk.specs.FormatFunction.{stands};
ghost use Rattle.fwd_chunk.specs.Check.{IsCheckResult, enough_bytes};

/// A marked file with these metadata and this content is read as the tag and outputs of the metadata, and
/// this content.
pub fn written_parts_are_read()
    ensures { (mark : ℕ) (bytes meta content : List ℕ) (metadata : Metadata) (events : List Event)
        → HasParts mark bytes meta content → parse_metadata mark meta ≡ Ok metadata → IsTrue (is_utf8 metadata.tag) → AreEvents events content
        → (chunk : Chunk) × StandsFor bytes (Ok chunk) × (chunk.meta ≡ meta_length bytes) × (chunk.mark ≡ mark) × (chunk.tag ≡ metadata.tag)
        × (chunk.outputs ≡ metadata.outputs) × (chunk.done ≡ metadata.done) × (chunk.content ≡ content) × (chunk.events ≡ length events) }
{}

/// Metadata are read as this tag and these outputs exactly if they were written for them.
pub fn named_metadata_are_read()
    ensures { (meta tag : List ℕ) (outputs : List NamedOutput)
        → (parse_named meta ≡ Some (with_tag tag outputs)) ↔ ((meta ≡ named_meta_bytes tag outputs) × (length tag < 2 ^ 16) × AreOutputs (names_of outputs)) }
{}

/// Metadata of mark 2 have the tag, the outputs and the recorded ones that were written; metadata of mark 1
/// have the tag.
pub fn metadata_are_read_back()
    ensures named { (tag : List ℕ) (outputs : List NamedOutput) → length tag < 2 ^ 16 → AreOutputs (names_of outputs) → parse_metadata 2 (named_meta_bytes tag outputs) ≡ Ok (as_metadata (with_tag tag outputs)) }
    ensures unnamed { (meta tag : List ℕ) → tag_of meta ≡ Some tag → parse_metadata 1 meta ≡ Ok (without_outputs tag) }
{}

/// What bytes represent is a function of the bytes.
pub fn bytes_have_one_reading()
    ensures { (bytes : List ℕ) (answer : ChunkRead) → StandsFor bytes answer ↔ (answer ≡ stands bytes) }
{}

/// A file's first 67,108,865 bytes are read as the whole file is: a file with that many bytes is too long.
pub fn prefix_determines_reading()
    ensures { (bytes : List ℕ) (seen : Seen) → IsCheckResult (take enough_bytes bytes) seen → IsCheckResult bytes seen }
{}
