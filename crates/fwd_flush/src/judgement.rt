/// The judgement of a reply, from the bytes received so far.
#[derive(Clone, Copy, Debug, PartialEq, Eq)]
pub enum Judged {
    /// It is a prefix of an acknowledgement.
    More,
    /// It acknowledges the payload.
    Right,
    /// It isn't an acknowledgement, and can't become one.
    Wrong,
    /// It rejects the payload for good.
    Fatal,
}
