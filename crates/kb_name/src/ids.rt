/// Which row of a tree, the same on every device: the device and the seq of the operation that made it, and a part.
/// Ordered by device, then seq, then part.
#[derive(Clone, Copy, Debug, PartialEq, Eq, PartialOrd, Ord)]
pub struct NodeId {
    pub device: u16,
    pub seq: u32,
    pub part: u16,
}

impl NodeId {
    /// The root of every tree.
    pub const ROOT: NodeId = NodeId {
        device: 0,
        seq: 0,
        part: 0,
    };
}
