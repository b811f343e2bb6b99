ghost use Rattle.std.specs.Prelude.{◌≡◌, [], map, IfOk};
ghost use Rattle.fwd_engine_inputs.specs.FilesRepresent.{FilesRepresent};
ghost use Rattle.fwd_model.specs.Settings.{followed_paths, starts_at_head};
ghost use Rattle.fwd_engine_recovery.specs.FollowedPaths.{followed_paths_of};

use fwd_base::{Bytes, InputId, Memory};
use fwd_engine_inputs::FollowedFiles;
use fwd_engine_settings::RunSettings;
use fwd_parser::{Floats, Parser, Shape};
use fwd_settings::{InputKind, InputSet};
use std::alloc::Global;

/// Returns a kind of input that follows the same files.
fn copy_kind(alloc: Global, kind: &InputKind) -> Result<InputKind, Memory>
    ensures { IfOk result (λ copy. (followed_paths copy ≡ followed_paths kind.now) × (starts_at_head copy ≡ starts_at_head kind.now)) }
{
    match kind {
        InputKind::Tail { paths, from_head } => Ok(InputKind::Tail {
            paths: paths.try_clone(alloc)?,
            from_head: *from_head,
        }),
        InputKind::Tcp { .. } | InputKind::Forward { .. } | InputKind::Stdin => {
            Ok(InputKind::Stdin)
        }
    }
}

/// Returns an input that follows the same files, with nothing else set.
fn copy_followed_input(alloc: Global, set: &InputSet) -> Result<InputSet, Memory>
    ensures { IfOk result (λ copy. followed_paths_of copy ≡ followed_paths_of set.now) }
{
    let kind = copy_kind(alloc, &set.kind)?;
    Ok(InputSet {
        name: Bytes::new(alloc),
        kind,
        tag: None,
        stored: false,
        mem_limit: None,
        db: None,
        parser: Parser {
            shape: Shape::Plain,
            time: None,
            floats: Floats::Tagged,
        },
        shared: None,
    })
}

/// Returns inputs that follow the same files as those of a run.
fn copy_followed_inputs(alloc: Global, run: &RunSettings) -> Result<Vec<InputSet>, Memory>
    ensures { IfOk result (λ sets. map followed_paths_of sets.items ≡ map followed_paths_of run.now.inputs) }
{
    run.lemma_settings_are_sound();
    let mut sets = Vec::new(alloc);
    for number in 0..run.inputs() {
        if let Some(set) = run.input(InputId(number as u32)) {
            sets.push(copy_followed_input(alloc, set)?)?;
        }
    }
    Ok(sets)
}

/// Returns the files that the inputs of a run follow, none of which was read yet.
pub fn followed_files(alloc: Global, run: &RunSettings) -> Result<FollowedFiles, Memory>
    ensures { IfOk result (λ followed_files. FilesRepresent run.now followed_files []) }
{
    let sets = copy_followed_inputs(alloc, run)?;
    FollowedFiles::new(alloc, sets.as_slice())
}
