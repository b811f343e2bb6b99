//! What one side of a handshake has.

use fwd_base::Bytes;
use std::fmt;

/// The shared key, and the name of the host that has it. Printing it for debugging leaves out the key.
#[derive(Drop)]
pub struct Ring {
    pub key: Bytes,
    pub host: Bytes,
}

impl fmt::Debug for Ring {
    fn fmt<W: fmt::Write>(&self, f: &mut fmt::Formatter<W>) -> fmt::Result {
        f.debug_struct("Ring")
            .field("host", &self.host)
            .finish_non_exhaustive()
    }
}
