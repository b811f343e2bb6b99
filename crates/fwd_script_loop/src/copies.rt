//! Copies of lines and endpoints.

ghost use Rattle.std.specs.Prelude.{◌≡◌, IfOk};

use fwd_base::{Items, Memory};
use fwd_outside::{Ends, InEnds, OutEnds};
use fwd_script::{Plan, Planned};
use std::alloc::Global;

/// Returns a copy of a line.
fn copy_of_line(alloc: Global, planned: &Planned) -> Result<Planned, Memory>
    ensures { IfOk result (λ copy. copy ≡ planned.now) }
{
    Ok(match planned {
        Planned::Happens(happening) => Planned::Happens(happening.try_clone(alloc)?),
        Planned::Ticks { first, step, count } => Planned::Ticks {
            first: *first,
            step: *step,
            count: *count,
        },
        Planned::Changes(change) => Planned::Changes(change.try_clone(alloc)?),
    })
}

/// Returns a copy of the lines.
pub fn copy_of_lines(alloc: Global, lines: &Plan) -> Result<Plan, Memory>
    ensures { IfOk result (λ copy. copy ≡ lines.now) }
{
    let mut copy = Vec::with_capacity(alloc, lines.len())?;
    for line in lines.as_slice() {
        copy.push(copy_of_line(alloc, line)?)?;
    }
    Ok(Items::from_vec(copy))
}

fn copy_of_inputs(alloc: Global, ends: &InEnds) -> Result<InEnds, Memory>
    ensures { IfOk result (λ copy. copy ≡ ends.now) }
{
    let mut copy = Vec::with_capacity(alloc, ends.len())?;
    for end in ends.as_slice() {
        copy.push(end.try_clone(alloc)?)?;
    }
    Ok(Items::from_vec(copy))
}

fn copy_of_outputs(alloc: Global, ends: &OutEnds) -> Result<OutEnds, Memory>
    ensures { IfOk result (λ copy. copy ≡ ends.now) }
{
    let mut copy = Vec::with_capacity(alloc, ends.len())?;
    for end in ends.as_slice() {
        copy.push(end.try_clone(alloc)?)?;
    }
    Ok(Items::from_vec(copy))
}

/// Returns a copy of the endpoints.
pub fn copy_of_ends(alloc: Global, ends: &Ends) -> Result<Ends, Memory>
    ensures { IfOk result (λ copy. copy ≡ ends.now) }
{
    Ok(Ends {
        inputs: copy_of_inputs(alloc, &ends.inputs)?,
        outputs: copy_of_outputs(alloc, &ends.outputs)?,
    })
}
