//! What a folder knows of its chain, what is put to it, and why it refuses.
ghost use Rattle.std.specs.Prelude.{◌≡◌, map as each};

use kb_blocks::Hash;
use kb_keys::{Half, Policy};
use kb_ops::Bytes;
use std::marker::Model;

/// The length and the head of a chain, its members, how many devices are registered, and the last seq of each device.
#[derive(Drop)]
pub struct ChainState {
    pub length: u32,
    pub head: Hash,
    pub policy: Policy,
    pub registered: u16,
    pub last: [u32; 33],
}

/// Why a folder doesn't take a revision.
#[derive(Clone, Copy, Debug, PartialEq, Eq)]
pub enum PutRefusal {
    /// The bytes are no revision.
    BadRevision,
    /// The writer isn't one of the folder's, or isn't registered where the folder is empty.
    NotWriter,
    /// The signature isn't the writer's.
    BadSignature,
    /// It isn't the next revision behind the head.
    Stale { len: u32, head: Hash },
    /// Its first seq isn't the next of its writer.
    SeqGap { expected: u32 },
    /// It doesn't fit the members and the keys.
    BadFit,
    /// The chain is full.
    ChainEnd,
    /// A block's id holds other bytes.
    Collision { id: Hash },
    Memory,
}

/// Sealed blocks, each of which stands under its hash once it is stored.
#[derive(Debug, Drop)]
pub struct Blocks {
    items: Vec<Vec<u8>>,
}

impl Model for Blocks {
    ghost use Rattle.std.specs.Prelude.{List, ℕ, map as each};

    ghost Value = { List (List ℕ) };

    ghost view = { λ b. each (λ v. v.items) b.items.items };
}

impl Blocks {
    pub fn new(items: Vec<Vec<u8>>) -> Blocks
        ensures { result ≡ each (λ v. v.items) items.items }
    {
        Blocks { items }
    }

    pub fn as_slice(&self) -> &[Vec<u8>]
        ensures { each (λ v. v.items) result.now ≡ self.now }
    {
        self.items.as_slice()
    }

    pub fn into_vec(self) -> Vec<Vec<u8>>
        ensures { each (λ v. v.items) result.items ≡ self }
    {
        self.items
    }
}

/// Halves that are sent to the folder, in order.
#[derive(Debug, Drop)]
pub struct SentHalves {
    items: Vec<Half>,
}

impl Model for SentHalves {
    ghost use Rattle.std.specs.Prelude.{List};
    ghost use Rattle.kb_keys.specs.declared.halves.Half.{Half};

    ghost Value = { List Half };

    ghost view = { λ h. h.items.items };
}

impl SentHalves {
    pub fn new(items: Vec<Half>) -> SentHalves
        ensures { result ≡ items.items }
    {
        SentHalves { items }
    }

    pub fn as_slice(&self) -> &[Half]
        ensures { result.now ≡ self.now }
    {
        self.items.as_slice()
    }

    pub fn into_vec(self) -> Vec<Half>
        ensures { result.items ≡ self }
    {
        self.items
    }
}

/// A revision's bytes with the blocks that it adds and the halves that its entries need.
#[derive(Debug, Drop)]
pub struct FolderRequest {
    pub revision: Bytes,
    pub blocks: Blocks,
    pub halves: SentHalves,
}
