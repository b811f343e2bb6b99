//! A device that wraps another one.

ghost use Rattle.std.specs.Prelude.{◌≡◌};

use crate::failing_call::Refusal;

/// Passes its calls on to another device, except the one that has to fail: it answers out of memory, and
/// the other device isn't called. Later calls are passed on again, so that a test sees how a run goes on
/// after the failure.
#[derive(Drop)]
pub struct Faulty<'r, D> {
    pub device: D,
    pub refusal: &'r Refusal,
}

impl<'r, D> Faulty<'r, D> {
    pub fn new(device: D, refusal: &'r Refusal) -> Faulty<'r, D>
        ensures { result.device ≡ device }
    {
        Faulty { device, refusal }
    }
}
