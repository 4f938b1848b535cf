/// Why something was refused.
#[derive(Clone, Copy, Debug, PartialEq, Eq)]
pub enum Reason {
    /// No session is open.
    Closed,
    /// The device isn't a writer.
    ReadOnly,
    BadPath,
    TooDeep,
    NotFound,
    NotDir,
    NotFile,
    Exists,
    NotEmpty,
    Inside,
    TooBig,
    TreeFull,
    Spent,
    QueueFull,
    /// The bytes that the journal would need, and those that it has.
    Full { need: u32, room: u32 },
    Memory,
    Stopped,
    AlreadyOpen,
    NotMember,
    BadDisk,
    Foreign,
    BadFolder,
    InFlight,
    Branched,
    Idle,
    NoFlight,
    Unflushed,
    NoBranch,
    NoPlan,
    /// The request or the reply was lost.
    LinkFault,
    BadRevision,
    NotWriter,
    BadSignature,
    /// The folder's length.
    Stale { length: u32 },
    SeqGap,
    BadFit,
    ChainEnd,
    /// The id of the block.
    Collision { id: [u8; 32] },
    Known,
    LastWriter,
    GenEnd,
}
