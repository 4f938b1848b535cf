//! What a device answers.
use kb_blocks::Hash;
use kb_chain::{FolderRequest, PutRefusal};

/// The request that lands the first operation of the queue, with its seq and the number of its revision.
#[derive(Drop)]
pub struct Picked {
    pub seq: u32,
    pub number: u32,
    pub request: FolderRequest,
}

/// Why no request is picked.
#[derive(Clone, Copy, Debug, PartialEq, Eq)]
pub enum PickFault {
    /// No session is open.
    Closed,
    /// A flight is kept.
    InFlight,
    /// The queue is a branch.
    Branched,
    /// The queue is empty.
    Idle,
    Memory,
}

/// A put's result with its revision's hash.
#[derive(Clone, Copy, Debug)]
pub struct PutAnswer {
    pub number: Result<u32, PutRefusal>,
    pub hash: Hash,
}

/// What a note did.
#[derive(Clone, Copy, Debug, PartialEq, Eq)]
pub enum Noted {
    /// The operation landed in this revision, and left the queue.
    Landed { number: u32 },
    /// Another revision came first: the queue is a branch from this one.
    Branched { at: u32 },
    /// The operation waits on.
    Kept,
}

/// Why nothing is noted.
#[derive(Clone, Copy, Debug, PartialEq, Eq)]
pub enum NoteFault {
    /// No session is open.
    Closed,
    /// No flight is kept.
    NoFlight,
    /// The disk stopped.
    Stopped,
}

/// Why the head isn't pulled.
#[derive(Clone, Copy, Debug, PartialEq, Eq)]
pub enum PullFault {
    /// No session is open.
    Closed,
    /// The device is no member.
    NotMember,
    /// An operation waits.
    Unflushed,
    /// What was read of this revision isn't as it should be.
    BadFolder { number: u32 },
    Memory,
    /// The disk stopped.
    Stopped,
}

/// Why a device isn't opened, in the order in which the refusals are given.
#[derive(Clone, Copy, Debug, PartialEq, Eq)]
pub enum OpenFault {
    /// A session is open.
    AlreadyOpen,
    /// The device is no member.
    NotMember,
    /// The disk stopped: first, as the journal was opened, or last, at a note.
    Stopped,
    /// The disk's bytes are no journal.
    BadDisk,
    /// The journal isn't this device's, or doesn't meet the chain.
    Foreign { known: u32 },
    /// What was read of this revision isn't as it should be.
    BadFolder { number: u32 },
    Memory,
}
