//! The store of blocks.
ghost use Rattle.std.specs.Prelude.{◌≡◌, ◌+◌, ℕ, OnErr, IfOk, IfSome, Some, None, IsTrue, ◌↔◌, ◌<◌, ◌≤◌, vec_len, vec_capacity, map as each};
ghost use Rattle.std.specs.FinMap as map;
ghost use Rattle.std.specs.Option.{option_copied};
ghost use Rattle.kb_blocks.specs.Stores.{Adds, Keeps, Puts, PutsAll, undone};

use crate::hashing::{BlockHash, Hash};
use crate::steps::Steps;
use std::alloc::Global;
use std::collections::BTreeMap;
use std::marker::{Model, PhantomData};
use std::sync::ledger::Ledger;

/// No block has the id.
#[derive(Clone, Copy, Debug, PartialEq, Eq)]
pub struct Missing;

/// Why a block wasn't put.
#[derive(Clone, Copy, Debug, PartialEq, Eq)]
pub enum PutFault {
    /// The id holds other bytes.
    Collision { id: Hash },
    Memory,
}

fn is_same(a: &[u8], b: &[u8]) -> bool
    ensures { IsTrue result ↔ (a.now ≡ b.now) }
{
    a == b
}

/// Blocks by their hashes.
#[derive(Drop)]
pub struct Store<H: BlockHash> {
    by_id: BTreeMap<Hash, Vec<u8>>,
    alloc: Global,
    hash: PhantomData<H>,
}

impl<H: BlockHash> Model for Store<H> {
    ghost use Rattle.std.specs.Prelude.{◌≡◌, Some, List, ℕ, length};
    ghost use Rattle.std.specs.Coded.{coded_ℕ, coded_list};
    ghost use Rattle.std.specs.FinMap as map;
    ghost use Rattle.kb_blocks.specs.Entries.{id_cmp, blocks_of};

    ghost Value = { map.FinMap id_cmp (List ℕ) };

    ghost coded = { map.code (coded_list coded_ℕ) (coded_list coded_ℕ) };

    ghost view = { λ a. map.from_entries (blocks_of a.by_id.entries) };

    ghost invariant = { λ a. ((id bytes : List ℕ) → map.get (map.from_entries {R = id_cmp} (blocks_of a.by_id.entries)) id ≡ Some bytes → id ≡ H.hashed bytes) × (map.len (map.from_entries {R = id_cmp} (blocks_of a.by_id.entries)) ≡ length a.by_id.entries) };
}

impl<H: BlockHash> Store<H> {
    /// A store of no block.
    pub fn new(alloc: Global) -> Store<H>
        ensures { result ≡ map.empty }
    {
        Store {
            by_id: BTreeMap::new(alloc),
            alloc,
            hash: PhantomData,
        }
    }

    /// How many blocks there are.
    pub fn len(&self) -> usize
        ensures { result ≡ map.len self.now }
    {
        self.by_id.len()
    }

    /// The block with the id, read with no count.
    pub fn find(&self, id: &Hash) -> Option<&[u8]>
        ensures found { option_copied result ≡ map.get self.now id.now }
        ensures hashed { IfSome result (λ bytes. id.now ≡ H.hashed bytes.now) }
    {
        match self.by_id.get(id) {
            Some(bytes) => Some(bytes.as_slice()),
            None => None,
        }
    }

    /// The block with the id. It counts one step.
    pub fn get<L: Ledger>(&self, id: &Hash, steps: &mut Steps<L>) -> Result<&[u8], Missing>
        ensures found { IfOk result (λ bytes. map.get self.now id.now ≡ Some bytes.now) }
        ensures hashed { IfOk result (λ bytes. id.now ≡ H.hashed bytes.now) }
        ensures missing { OnErr result (map.get self.now id.now ≡ None) }
        ensures ticks { steps.new ≡ steps.old + 1 }
    {
        steps.tick();
        self.find(id).ok_or(Missing)
    }

    // Whether the block was added. If not, it was there.
    fn add(&mut self, id: &Hash, bytes: &[u8]) -> Result<bool, PutFault>
        requires { id.now ≡ H.hashed bytes.now }
        ensures { Adds self.old self.new id.now bytes.now result }
    {
        match self.find(id) {
            Some(held) => {
                if is_same(held, bytes) {
                    return Ok(false);
                }
                return Err(PutFault::Collision { id: *id });
            }
            None => {}
        }
        let copy = match Vec::from_slice(self.alloc, bytes) {
            Ok(copy) => copy,
            Err(_) => return Err(PutFault::Memory),
        };
        match self.by_id.insert(*id, copy) {
            Ok(_) => Ok(true),
            Err(_) => Err(PutFault::Memory),
        }
    }

    /// Puts a copy of the block under its hash, which is given back. A block that is there stays.
    pub fn put(&mut self, bytes: &[u8]) -> Result<Hash, PutFault>
        ensures put { Puts H.hashed self.old self.new bytes.now result }
        ensures kept { Keeps self.old self.new }
    {
        let id = H::hash(bytes);
        match self.add(&id, bytes) {
            Ok(_) => Ok(id),
            Err(refused) => Err(refused),
        }
    }

    // Takes the blocks of these ids away, from the last on.
    fn undo(&mut self, mut ids: Vec<Hash>)
        ensures { self.new ≡ undone ids.items self.old }
    {
        while let Some(id) = ids.pop() {
            self.drop_block(&id);
        }
    }

    fn drop_block(&mut self, id: &Hash)
        ensures { self.new ≡ map.remove self.old id.now }
    {
        let _ = self.by_id.remove(id);
    }

    // Puts a block, and notes its id where it is new.
    fn put_noted(&mut self, added: &mut Vec<Hash>, bytes: &[u8]) -> Result<Hash, PutFault>
        requires { vec_len added.old < vec_capacity added.old }
        ensures put { Puts H.hashed self.old self.new bytes.now result }
        ensures back { undone added.new.items self.new ≡ undone added.old.items self.old }
        ensures room { (vec_len added.new ≤ vec_len added.old + 1) × (vec_capacity added.new ≡ vec_capacity added.old) }
    {
        let id = H::hash(bytes);
        match self.add(&id, bytes) {
            Ok(true) => {
                added.push_reserved(id);
                Ok(id)
            }
            Ok(false) => Ok(id),
            Err(fault) => Err(fault),
        }
    }

    /// Puts copies of all blocks, each in turn, or none.
    pub fn put_all(&mut self, blocks: &[Vec<u8>]) -> Result<(), PutFault>
        ensures put { PutsAll H.hashed self.old self.new (each (λ b. b.items) blocks.now) result }
        ensures kept { Keeps self.old self.new }
    {
        let mut added = match Vec::with_capacity(self.alloc, blocks.len()) {
            Ok(added) => added,
            Err(_) => return Err(PutFault::Memory),
        };
        for i in 0..blocks.len() {
            match self.put_noted(&mut added, blocks[i].as_slice()) {
                Ok(_) => {}
                Err(fault) => {
                    self.undo(added);
                    return Err(fault);
                }
            }
        }
        Ok(())
    }
}
