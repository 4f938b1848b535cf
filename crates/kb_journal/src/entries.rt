//! The payloads of a journal.
use kb_ops::Op as Operation;

/// The SHA-256 of a revision's bytes.
pub type Hash = [u8; 32];

/// What one payload says.
#[derive(Drop)]
pub enum Entry {
    /// An operation is queued.
    Op(Operation),
    /// The first of the queue landed in this revision.
    Landed {
        number: u32,
        hash: Hash,
    },
    /// The folder moved on: the queue is a branch.
    Branched,
    /// The first `count` of the queue were merged in this revision.
    Merged {
        number: u32,
        hash: Hash,
        count: u32,
    },
    /// This revision is known, nothing is queued, and the last operation had this seq.
    Head {
        number: u32,
        hash: Hash,
        seq: u32,
        mark: bool,
    },
}

/// Why a payload can't be read.
#[derive(Clone, Copy, Debug, PartialEq, Eq)]
pub enum EntryFault {
    /// The bytes spell no payload.
    BadEntry,
    /// Memory ran out.
    Memory,
}

/// What a journal is told of the folder.
#[derive(Clone, Copy, Debug, PartialEq, Eq)]
pub enum Note {
    /// The first of the queue landed in this revision.
    Landed { number: u32, hash: Hash },
    /// The folder moved on: the queue is a branch.
    Branched,
    /// The first `count` of the queue were merged in this revision.
    Merged { number: u32, hash: Hash, count: u32 },
    /// This revision is known, and nothing is queued.
    Head { number: u32, hash: Hash },
}
