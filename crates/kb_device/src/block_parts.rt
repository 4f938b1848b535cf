//! What is lent to a block of callers and flushers.
use crate::Device;
use kb_blocks::BlockHash;
use kb_edge::Disk;
use kb_folder::Folder;
use kb_seal::Sealer;

/// A folder and its devices, in the order in which they are declared, as they are lent to a block.
#[derive(Drop)]
pub struct Parts<D: Disk, S: Sealer, H: BlockHash> {
    pub folder: Folder<S, H>,
    pub devices: Vec<Device<D, S, H>>,
}
