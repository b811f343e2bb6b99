//! The rings of inputs and outputs.

ghost use Rattle.std.specs.Prelude.{◌≡◌, IfOk, map, option_map};
ghost use Rattle.fwd_secure_settings.specs.Keys.{ring_of, keys_of};

use fwd_base::Memory;
use fwd_secure::{Keys, Ring, Rings};
use fwd_settings::{AllSettings, InputSet, OutputSet, SharedKey};
use std::alloc::Global;

/// Returns the ring of each input and each output, in order; none for one without a shared key.
#[tactic(auto, unfolding(crate::specs::Keys::keys_of))]
pub fn keys(alloc: Global, s: &AllSettings) -> Result<Keys, Memory>
    ensures { IfOk result (λ keys. keys ≡ keys_of s.now) }
{
    Ok(Keys {
        inputs: input_rings(alloc, s.inputs.as_slice())?,
        outputs: output_rings(alloc, s.outputs.as_slice())?,
    })
}

fn input_rings(alloc: Global, inputs: &[InputSet]) -> Result<Rings, Memory>
    ensures { IfOk result (λ rings. rings ≡ map (λ set. option_map ring_of set.shared) inputs.now) }
{
    let mut rings = Rings::new(alloc);
    for set in inputs {
        rings.push(ring(alloc, &set.shared)?)?;
    }
    Ok(rings)
}

fn output_rings(alloc: Global, outputs: &[OutputSet]) -> Result<Rings, Memory>
    ensures { IfOk result (λ rings. rings ≡ map (λ set. option_map ring_of set.shared) outputs.now) }
{
    let mut rings = Rings::new(alloc);
    for set in outputs {
        rings.push(ring(alloc, &set.shared)?)?;
    }
    Ok(rings)
}

/// Returns the ring of a shared key, if there is one.
fn ring(alloc: Global, shared: &Option<SharedKey>) -> Result<Option<Ring>, Memory>
    ensures { IfOk result (λ ring. ring ≡ option_map ring_of shared.now) }
{
    match shared {
        Some(shared) => Ok(Some(Ring {
            key: shared.key.try_clone(alloc)?,
            host: shared.host.try_clone(alloc)?,
        })),
        None => Ok(None),
    }
}
