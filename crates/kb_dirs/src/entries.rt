//! The entries of a directory.
use kb_blocks::Ptr;
use kb_name::{Moment, Name, NodeId};
use kb_ops::Kind;

/// A row of a directory, with the pointer to what it holds. A Dir's size is 0, that of a File or a Link is the number
/// of its bytes.
#[derive(Clone, Debug, Drop, PartialEq)]
pub struct Entry {
    pub name: Name,
    pub id: NodeId,
    pub kind: Kind,
    pub exec: bool,
    pub mtime: Moment,
    pub size: u32,
    pub ptr: Ptr,
}
