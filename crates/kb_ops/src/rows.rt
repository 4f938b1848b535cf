ghost use Rattle.std.specs.Prelude.{◌≡◌};
ghost use Rattle.kb_ops.specs.Trees.{root_row};

use super::values::{Bytes, Kind};
use kb_name::{Moment, Name, NodeId};
use std::alloc::Global;

/// A file, a directory or a link. The root's row has itself as parent and no name.
#[derive(Clone, Debug, Drop, PartialEq)]
pub struct Row {
    pub id: NodeId,
    pub parent: NodeId,
    pub name: Name,
    pub kind: Kind,
    pub bytes: Bytes,
    pub exec: bool,
    pub mtime: Moment,
}

impl Row {
    /// The row of the root of a new tree.
    pub fn root(alloc: Global) -> Row
        ensures { result ≡ root_row }
    {
        Row {
            id: NodeId::ROOT,
            parent: NodeId::ROOT,
            name: Name::none(alloc),
            kind: Kind::Dir,
            bytes: Bytes::new(Vec::new(alloc)),
            exec: false,
            mtime: Moment::START,
        }
    }
}

/// What an operation does.
#[derive(Clone, Debug, Drop, PartialEq)]
pub enum Change {
    Create {
        parent: NodeId,
        name: Name,
        kind: Kind,
        bytes: Bytes,
    },
    Remove {
        node: NodeId,
    },
    Rename {
        node: NodeId,
        parent: NodeId,
        name: Name,
        replaced: Option<NodeId>,
    },
    Sync {
        node: NodeId,
        offset: u32,
        bytes: Bytes,
        length: u32,
    },
    Exec {
        node: NodeId,
        on: bool,
    },
    Touch {
        node: NodeId,
        mtime: Moment,
    },
}

/// One operation of one device.
#[derive(Clone, Debug, Drop, PartialEq)]
pub struct Op {
    pub device: u16,
    pub seq: u32,
    pub moment: Moment,
    pub change: Change,
}

/// Why a walk by names ended before its last name.
#[derive(Clone, Copy, Debug, PartialEq, Eq)]
pub enum WalkFault {
    NotDir,
    NotFound,
}
