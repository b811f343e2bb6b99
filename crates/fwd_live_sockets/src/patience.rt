//! Time limits on silent peers of outputs.

/// How long an output's peer may be silent before its link breaks, in milliseconds.
#[derive(Clone, Copy, Debug, PartialEq, Eq)]
pub struct Patience {
    /// Until its dial completes.
    pub dial: u64,
    /// After that: without taking or sending bytes.
    pub silence: u64,
}

/// How many times as long as it may be silent a peer may send without taking anything. Else one that sends a
/// byte now and then would keep its link for good.
const MOST_SILENCES: u64 = 5;

impl Patience {
    /// Returns for how many milliseconds a peer may take nothing, whatever it sends.
    pub fn answer(self) -> u64 {
        self.silence.saturating_mul(MOST_SILENCES)
    }
}

/// Ten seconds for a dial, as Fluent Bit's `net.connect_timeout`, and a minute for everything else. Without
/// a limit, `MOST_PEER_FLUSHES` silent links would stop an output for good, and by `Mem_Buf_Limit` its
/// inputs too.
pub const USUAL_PATIENCE: Patience = Patience {
    dial: 10_000,
    silence: 60_000,
};
