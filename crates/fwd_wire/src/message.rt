use fwd_base::Bytes;
use fwd_event::Events;
use fwd_msgpack::Value;

/// A message.
#[derive(Debug, Drop)]
pub enum Message {
    /// A nil value, which a peer sends to keep a connection alive.
    Nothing,
    /// Events of a tag. The chunk, if there is one, is to be acknowledged once they are accepted.
    Batch {
        tag: Bytes,
        events: Events,
        chunk: Option<Value>,
    },
}
