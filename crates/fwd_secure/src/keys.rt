//! The keys of a configuration.

ghost use Rattle.std.specs.Prelude.{◌≡◌, ◌||◌, [], ◌∷◌, ◌++◌, OnOk, OnErr};
ghost use Rattle.std.specs.Option.{option_copied};
ghost use Rattle.fwd_secure.specs.Keys.{ring_at, has_ring, has_keys};

use fwd_base::{Items, Memory};
use fwd_handshake::Ring;
use std::alloc::Global;

/// The ring of each input or each output, in the order of the configuration; `None` for one without a key.
pub type Rings = Items<Option<Ring>>;

/// The rings of all inputs and outputs. Without any, the keyed loop passes each call on.
#[derive(Drop)]
pub struct Keys {
    pub inputs: Rings,
    pub outputs: Rings,
}

impl Keys {
    /// Returns the keys of no inputs and no outputs.
    pub fn new(alloc: Global) -> Keys
        ensures { result ≡ record { inputs = []; outputs = [] } }
    {
        Keys {
            inputs: Items::new(alloc),
            outputs: Items::new(alloc),
        }
    }

    /// Appends the ring of the next input. After `Err` the keys are unchanged.
    pub fn push_input(&mut self, ring: Option<Ring>) -> Result<(), Memory>
        ensures ok { OnOk result (self.new ≡ record self.old { inputs = self.old.inputs ++ ring ∷ [] }) }
        ensures err { OnErr result (self.new ≡ self.old) }
    {
        self.inputs.push(ring)
    }

    /// Appends the ring of the next output. After `Err` the keys are unchanged.
    pub fn push_output(&mut self, ring: Option<Ring>) -> Result<(), Memory>
        ensures ok { OnOk result (self.new ≡ record self.old { outputs = self.old.outputs ++ ring ∷ [] }) }
        ensures err { OnErr result (self.new ≡ self.old) }
    {
        self.outputs.push(ring)
    }

    /// Returns whether any input or output has a ring.
    pub fn has_keys(&self) -> bool
        ensures { result ≡ has_keys self.now }
    {
        has_ring(&self.inputs) || has_ring(&self.outputs)
    }
}

/// Returns whether any of the rings is there.
fn has_ring(rings: &Rings) -> bool
    ensures { result ≡ has_ring rings.now }
{
    rings.iter().any(|ring| ring.is_some())
}

/// Returns the ring of an input or an output, if it has one.
pub fn ring_at(rings: &Rings, index: u32) -> Option<&Ring>
    ensures { option_copied result ≡ ring_at rings.now index }
{
    match rings.get(index as usize) {
        Some(Some(ring)) => Some(ring),
        _ => None,
    }
}
