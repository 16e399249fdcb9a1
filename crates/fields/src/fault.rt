//! Why bytes are no message.

/// What is wrong with a message's bytes: the first fault from left to right.
#[derive(Clone, Copy, Debug, PartialEq, Eq)]
pub enum MalformedMessage {
    /// A field passes the end of the bytes.
    Short,
    /// The size that the message tells of itself isn't the number of its bytes.
    Size,
    /// Bytes stand behind the last field.
    Trailing,
}
