/// What the bytes of a connection are to its input.
#[derive(Clone, Copy, Debug, PartialEq, Eq)]
pub enum StreamKind {
    /// The input ignores them.
    Nobody,
    /// Lines of a peer.
    Lines,
    /// Messages of a peer.
    Messages,
    /// Standard input.
    Standard,
}
