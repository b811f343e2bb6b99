//! The endpoints that a loop connects to the engine.

ghost use Rattle.std.specs.Prelude.{◌≡◌, IfOk, map};
ghost use Rattle.fwd_settings.specs.Endpoints.{in_end_of, out_end_of, ends_of};

use crate::{AllSettings, InputKind, InputSet, OutputKind, OutputSet};
use fwd_base::{Bytes, Memory};
use fwd_outside::{Ends, InEnd, InEnds, OutEnd, OutEnds};
use std::alloc::Global;

/// Returns the endpoints of the inputs and outputs, in order: a loop listens for tcp and forward, reads
/// standard input and delivers nothing for a tail; it writes to standard output and to files, and connects
/// to the peers of tcp, forward and http.
pub fn ends(alloc: Global, s: &AllSettings) -> Result<Ends, Memory>
    ensures { IfOk result (λ ends. ends ≡ ends_of s.now) }
{
    Ok(Ends {
        inputs: in_ends(alloc, s.inputs.as_slice())?,
        outputs: out_ends(alloc, s.outputs.as_slice())?,
    })
}

fn in_ends(alloc: Global, inputs: &[InputSet]) -> Result<InEnds, Memory>
    ensures { IfOk result (λ ends. ends ≡ map (λ set. in_end_of set.kind) inputs.now) }
{
    let mut ends = InEnds::new(alloc);
    for set in inputs {
        ends.push(in_end(alloc, &set.kind)?)?;
    }
    Ok(ends)
}

fn in_end(alloc: Global, kind: &InputKind) -> Result<InEnd, Memory>
    ensures { IfOk result (λ end. end ≡ in_end_of kind.now) }
{
    match kind {
        InputKind::Tail { .. } => Ok(InEnd::Quiet),
        InputKind::Tcp { host, port } | InputKind::Forward { host, port } => Ok(InEnd::Listen {
            host: host.try_clone(alloc)?,
            port: *port,
        }),
        InputKind::Stdin => Ok(InEnd::Stdin),
    }
}

fn out_ends(alloc: Global, outputs: &[OutputSet]) -> Result<OutEnds, Memory>
    ensures { IfOk result (λ ends. ends ≡ map (λ set. out_end_of set.kind) outputs.now) }
{
    let mut ends = OutEnds::new(alloc);
    for set in outputs {
        ends.push(out_end(alloc, &set.kind)?)?;
    }
    Ok(ends)
}

fn out_end(alloc: Global, kind: &OutputKind) -> Result<OutEnd, Memory>
    ensures { IfOk result (λ end. end ≡ out_end_of kind.now) }
{
    match kind {
        OutputKind::Stdout { .. } => Ok(OutEnd::Stdout),
        OutputKind::File { folder, file, .. } => Ok(OutEnd::Folder {
            path: folder.try_clone(alloc)?,
            file: own_file(alloc, file)?,
        }),
        OutputKind::Tcp { host, port, .. }
        | OutputKind::Forward { host, port, .. }
        | OutputKind::Http { host, port, .. } => Ok(OutEnd::Peer {
            host: host.try_clone(alloc)?,
            port: *port,
        }),
    }
}

fn own_file(alloc: Global, file: &Option<Bytes>) -> Result<Option<Bytes>, Memory>
    ensures { IfOk result (λ own. own ≡ file.now) }
{
    match file {
        Some(file) => Ok(Some(file.try_clone(alloc)?)),
        None => Ok(None),
    }
}
