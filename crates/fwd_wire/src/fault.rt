use thiserror::Error;

/// Why a connection gives no more messages.
#[derive(Clone, Copy, Debug, PartialEq, Eq, Error)]
pub enum ConnFault {
    /// The next value isn't a message.
    #[error("no message comes")]
    NotAMessage,
    /// The next message is compressed.
    #[error("the message is compressed")]
    Compressed,
    /// The next message is too long.
    #[error("the message is too long")]
    TooLong,
}
