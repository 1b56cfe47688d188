// How a reader reads.

/// How a reader gets payloads and gives them.
#[derive(Clone, Copy)]
pub enum Style {
    /// Each node sends each payload that it has.
    EachCopy,
    /// One node sends each payload.
    OneCopy,
    /// Each node sends each payload that it has, and the reader gives the messages of a batch one by one.
    OfMessages,
}
