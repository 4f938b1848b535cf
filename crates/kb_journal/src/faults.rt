//! Why a call of a journal is refused.

/// Why a journal isn't opened.
#[derive(Clone, Copy, Debug, PartialEq, Eq)]
pub enum JournalFault {
    /// The disk stopped.
    Stopped,
    /// The disk's bytes are no journal.
    BadDisk,
    /// Memory ran out.
    Memory,
}

/// Why an operation isn't queued.
#[derive(Clone, Copy, Debug, PartialEq, Eq)]
pub enum AddFault {
    /// The last seq is 4,294,967,295.
    Spent,
    /// 4,096 operations are queued.
    QueueFull,
    /// The compacted text with the operation would need more bytes than an area has.
    Full { need: u32, room: u32 },
    /// Memory ran out, before any write.
    Memory,
    /// The disk stopped, and the journal has to be opened again.
    Stopped,
}
