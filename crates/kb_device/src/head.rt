//! A revision as it was read.

use crate::behind::Done;
use kb_blocks::{BlockHash, Hash, Store};
use kb_keys::{KeyRing, Role};
use kb_snap::Pointers;
use kb_tree::Table;

/// A revision as it was read: its number and its hash, its tree twice, the pointers of its rows and the blocks that they
/// reach, the folder keys up to its generation, the device's own role there, and the last seq of the device's ids in the
/// tree, or 0.
#[derive(Drop)]
pub struct Head<H: BlockHash> {
    pub number: u32,
    pub hash: Hash,
    pub base: Table,
    pub shown: Table,
    pub pointers: Pointers,
    pub cache: Option<Store<H>>,
    pub ring: KeyRing,
    pub generation: u32,
    pub role: Option<Role>,
    pub last: u32,
}

/// What a branch is to be merged into: the number and the hash of a revision, its tree, the pointers of its rows and the
/// blocks that they reach, and the folder keys up to its generation; the tree of the revision that the branch began at, and
/// what the revisions behind it did.
#[derive(Drop)]
pub struct Goal<H: BlockHash> {
    pub number: u32,
    pub hash: Hash,
    pub merged: Table,
    pub pointers: Pointers,
    pub cache: Option<Store<H>>,
    pub ring: KeyRing,
    pub generation: u32,
    pub base: Table,
    pub done: Done,
}
