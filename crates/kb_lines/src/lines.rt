use super::reasons::Reason;
use kb_name::DeviceName;
use kb_ops::{Bytes, PlacedRows, Request, Row, Rows, Show};

/// What a revision of the folder's chain did.
#[derive(Debug, Drop)]
pub enum Did {
    Found {
        device: DeviceName,
    },
    Step {
        device: DeviceName,
        seq: u32,
    },
    Merge {
        device: DeviceName,
        first: u32,
        last: u32,
    },
    GrantWriter {
        by: DeviceName,
        device: DeviceName,
    },
    GrantReader {
        by: DeviceName,
        device: DeviceName,
    },
    Revoke {
        by: DeviceName,
        device: DeviceName,
    },
}

/// What a worker of a block asked a device or the folder for.
#[derive(Debug, Drop)]
pub enum Asked {
    Call { request: Request },
    Look { show: Show },
    Status,
    Pick,
    /// The answer to a put is noted.
    Note { put: Answer },
    /// A revision of this number is put.
    Put { revision: u32 },
}

/// An answer to a worker of a block.
#[derive(Debug, Drop)]
pub enum Answer {
    Done {
        seq: u32,
    },
    Same,
    Refused {
        reason: Reason,
    },
    Cat {
        bytes: Bytes,
    },
    Stat {
        row: Row,
    },
    Status {
        at: u32,
        queue: u32,
        last: u32,
        branched: bool,
        flight: bool,
    },
    Picked {
        seq: u32,
        revision: u32,
    },
    Landed {
        revision: u32,
    },
    Noted {
        revision: u32,
    },
    BranchedAt {
        revision: u32,
    },
    Kept,
}

/// A reply that is printed. Revisions are numbered from 1.
#[derive(Debug, Drop)]
pub enum Line {
    /// A revision was put by `found`, a grant or a revocation.
    FolderAt {
        revision: u32,
    },
    FolderRefused {
        reason: Reason,
    },
    /// A file call made an operation of this number.
    Done {
        device: DeviceName,
        seq: u32,
    },
    /// All was as the call asks for.
    Same {
        device: DeviceName,
    },
    Refused {
        device: DeviceName,
        reason: Reason,
    },
    Cat {
        device: DeviceName,
        bytes: Bytes,
    },
    /// The children of a directory.
    Ls {
        device: DeviceName,
        rows: Rows,
    },
    /// All rows but the root.
    Tree {
        device: DeviceName,
        at: u32,
        queue: u32,
        rows: PlacedRows,
    },
    Stat {
        device: DeviceName,
        row: Row,
    },
    Picked {
        device: DeviceName,
        seq: u32,
        revision: u32,
    },
    Landed {
        device: DeviceName,
        revision: u32,
    },
    Noted {
        device: DeviceName,
        revision: u32,
    },
    /// The mark of a branch was set; the revision is the known one.
    BranchedAt {
        device: DeviceName,
        revision: u32,
    },
    Kept {
        device: DeviceName,
    },
    /// A pull.
    At {
        device: DeviceName,
        revision: u32,
    },
    Fetched {
        device: DeviceName,
        revision: u32,
    },
    Merged {
        device: DeviceName,
        revision: u32,
        copies: u64,
        renamed: u64,
        joined: u64,
    },
    Status {
        device: DeviceName,
        at: u32,
        queue: u32,
        last: u32,
        branched: bool,
        flight: bool,
    },
    Opened {
        device: DeviceName,
        at: u32,
        queue: u32,
        last: u32,
    },
    Off {
        device: DeviceName,
    },
    /// The head of the list of the chain; a line for each revision follows.
    Chain {
        revisions: u32,
        generation: u32,
    },
    Revision {
        number: u32,
        did: Did,
    },
    /// The folder was audited.
    Whole {
        revisions: u32,
    },
    /// The head of the folder's history in a block of workers; so many entries follow.
    FolderCell {
        entries: u64,
    },
    /// The head of a device's history in a block.
    Cell {
        device: DeviceName,
        entries: u64,
    },
    /// What a worker of a block asked for, and the answer. Workers are numbered from 1.
    Entry {
        worker: u32,
        asked: Asked,
        answer: Answer,
    },
}
