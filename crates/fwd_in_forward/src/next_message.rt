use fwd_wire::ConnFault;

/// What comes next in a stream: a message and its length in bytes, nothing whole yet, or what breaks the
/// stream.
#[derive(Drop)]
pub enum NextMessage<M> {
    Message(M, usize),
    Short,
    Broken(ConnFault),
}
