//! What a branch is to be merged into.
ghost use Rattle.std.specs.Prelude.{◌≡◌, ◌≤◌, ℕ, List, length, true};
ghost use Rattle.kb_folder.specs.Chains.{Names};
ghost use Rattle.kb_folder.specs.Goes.{HasChain};
ghost use Rattle.kb_folder.specs.Held.{held, is_member};
ghost use Rattle.kb_snap.specs.Chains.{Chain, tree_at};
ghost use Rattle.kb_snap.specs.Members.{generation_at};
ghost use Rattle.kb_device.specs.Fetching.{FetchDoes, plan_from};
ghost use Rattle.kb_device.specs.Filling.{IfRead};
ghost use Rattle.kb_device.specs.Fresh.{IsOwned};
ghost use Rattle.kb_device.specs.Inside.{IsRunning};
ghost use Rattle.kb_device.specs.Stands.{RingStands};
ghost use Rattle.kb_device.specs.Views.{inside, plan_of, read_of};

use crate::behind::{Done, read_done};
use crate::fetched::FetchFault;
use crate::head::{Goal, Head};
use crate::heading::read_next;
use crate::reading::{ReadFault, read_tree};
use crate::session::Session;
use kb_blocks::BlockHash;
use kb_edge::Disk;
use kb_folder::Folder;
use kb_keys::KeyRing;
use kb_seal::{Key, Sealer};
use kb_tree::Table;
use std::alloc::Global;

// The tree of a revision that a member knows, from the folder keys up to its generation.
fn read_known<S: Sealer, H: BlockHash>(
    alloc: Global,
    folder: &Folder<S, H>,
    d: u16,
    ring: &KeyRing,
    known: u32,
) -> Result<Table, ReadFault>
    requires { 1 ≤ known }
    ensures { (seed : List ℕ) (names : Names) (c : Chain) → HasChain S.sealed S.signed H.hashed seed names (held folder.now) c → is_member (held folder.now) d ≡ true
        → RingStands seed (generation_at c known) ring.now → known ≤ length c → IfRead result (λ table. table.tree ≡ tree_at c known) }
{
    let lent = match folder.fetch(d, known - 1) {
        Ok(lent) => lent,
        Err(_) => return Err(ReadFault::BadFolder),
    };
    if lent.is_empty() {
        return Err(ReadFault::BadFolder);
    }
    match read_tree(alloc, folder, ring, &lent[0]) {
        Ok((table, _pointers, _cache)) => Ok(table),
        Err(fault) => Err(fault),
    }
}

impl<D: Disk, H: BlockHash> Session<D, H> {
    /// Keeps the folder's last revision as what the branch is to be merged into. The tree of the known revision is read
    /// again, since the base table may be ahead of it.
    pub fn fetch<S: Sealer>(
        &mut self,
        alloc: Global,
        folder: &Folder<S, H>,
        d: u16,
        secret: &Key,
    ) -> Result<u32, FetchFault>
        requires running { IsRunning (inside self.old) }
        requires numbered { 1 ≤ d }
        ensures does { FetchDoes S.sealed S.signed H.hashed (held folder.now) d secret.now (inside self.old) (inside self.new) result }
        ensures running { IsRunning (inside self.new) }
        ensures owned { IsOwned d (inside self.old) → IsOwned d (inside self.new) }
        ensures journal { self.new.journal ≡ self.old.journal }
    {
        let known = self.journal.known();
        let lent = match folder.fetch(d, known) {
            Ok(lent) => lent,
            Err(_) => return Err(FetchFault::NotMember),
        };
        if !self.journal.branched() {
            return Err(FetchFault::NoBranch);
        }
        let number = folder.length();
        // A branch began where another revision stands behind the known one.
        if lent.is_empty() {
            return Err(FetchFault::Memory);
        }
        let base = match read_known(alloc, folder, d, &self.ring, known) {
            Ok(base) => base,
            Err(ReadFault::BadFolder) => return Err(FetchFault::BadFolder { number }),
            Err(ReadFault::Memory) => return Err(FetchFault::Memory),
        };
        let head = match read_next(
            alloc,
            folder,
            d,
            secret,
            &self.ring,
            self.generation,
            known,
            self.journal.last(),
            lent,
        ) {
            Ok(head) => head,
            Err(ReadFault::BadFolder) => return Err(FetchFault::BadFolder { number }),
            Err(ReadFault::Memory) => return Err(FetchFault::Memory),
        };
        let done = match read_done(alloc, folder, &head.ring, lent) {
            Ok(done) => done,
            Err(ReadFault::BadFolder) => return Err(FetchFault::BadFolder { number }),
            Err(ReadFault::Memory) => return Err(FetchFault::Memory),
        };
        let number = head.number;
        self.plan = Some(goal_of(head, base, done));
        Ok(number)
    }
}

fn goal_of<H: BlockHash>(head: Head<H>, base: Table, done: Done) -> Goal<H>
    ensures { plan_of result ≡ plan_from (read_of head) base.tree done.ops.items done.plain }
{
    let hash = head.hash;
    Goal {
        number: head.number,
        hash,
        merged: head.base,
        pointers: head.pointers,
        cache: head.cache,
        ring: head.ring,
        generation: head.generation,
        base,
        done,
    }
}
