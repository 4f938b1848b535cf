//! Reading the last revision of a folder.
ghost use Rattle.std.specs.Prelude.{◌≡◌, ◌≤◌, ◌<◌, ◌+◌, ℕ, List, IfOk, length, map, drop, reverse, true};
ghost use Rattle.kb_keys.specs.Secrets.{device_secret};
ghost use Rattle.kb_snap.specs.Chains.{Chain, ops_of};
ghost use Rattle.kb_snap.specs.Members.{generation_at, roles_of};
ghost use Rattle.kb_folder.specs.Chains.{Names};
ghost use Rattle.kb_folder.specs.Held.{held, is_member};
ghost use Rattle.kb_folder.specs.Goes.{HasChain};
ghost use Rattle.kb_device.specs.Stands.{RingStands};
ghost use Rattle.kb_device.specs.Heads.{ReadStands};
ghost use Rattle.kb_device.specs.Left.{PointsAll};
ghost use Rattle.kb_device.specs.Views.{read_of};
ghost use Rattle.kb_device.specs.Filling.{IfRead};
ghost use Rattle.kb_device.specs.Fresh.{IdsEndAt, IsLastOf};
ghost use Rattle.kb_device.specs.Pulling.{is_readable};

use crate::head::Head;
use crate::reading::{ReadFault, fill, read_tree};
use crate::seqs::copy_with_last;
use kb_blocks::BlockHash;
use kb_chain::hash_of;
use kb_folder::Folder;
use kb_keys::KeyRing;
use kb_seal::{Key, Sealer};
use std::alloc::Global;

fn copy_key(copy: &mut KeyRing, ring: &KeyRing, i: u32, top: u32) -> Result<(), ReadFault>
    requires { i < top }
    ensures { (seed : List ℕ) (generation : ℕ) → RingStands seed generation ring.now → top ≤ generation → RingStands seed i copy.old → IfRead result (λ _. RingStands seed (i + 1) copy.new) }
{
    let Some(key) = ring.key(i + 1) else {
        return Err(ReadFault::BadFolder);
    };
    match copy.add(i + 1, *key) {
        Ok(()) => Ok(()),
        Err(_) => Err(ReadFault::Memory),
    }
}

// The folder keys of the generations up to this one, from a ring that has them.
fn copy_ring(alloc: Global, ring: &KeyRing, top: u32) -> Result<KeyRing, ReadFault>
    ensures { (seed : List ℕ) (generation : ℕ) → RingStands seed generation ring.now → top ≤ generation → IfRead result (λ copy. RingStands seed top copy) }
{
    let mut copy = KeyRing::new(alloc);
    'keys: for i in 0..top {
        match copy_key(&mut copy, ring, i, top) {
            Ok(()) => {}
            Err(fault) => return Err(fault),
        }
    }
    Ok(copy)
}

/// The last revision of a folder, for a member that knows an earlier one, of this generation, and has these keys.
pub fn read_head<S: Sealer, H: BlockHash>(
    alloc: Global,
    folder: &Folder<S, H>,
    d: u16,
    secret: &Key,
    ring: &KeyRing,
    generation: u32,
    lent: &[Vec<u8>],
) -> Result<Head<H>, ReadFault>
    requires { 0 < length lent.now }
    ensures same { IfOk result (λ head. head.shown.tree ≡ head.base.tree) }
    ensures all { IfOk result (λ head. PointsAll head.base.tree head.pointers) }
    ensures last { IfOk result (λ head. IsLastOf d head.base.tree head.last) }
    ensures stands { (seed : List ℕ) (names : Names) (c : Chain) (known : ℕ) → HasChain S.sealed S.signed H.hashed seed names (held folder.now) c → secret.now ≡ device_secret seed d → is_member (held folder.now) d ≡ true
        → generation ≡ generation_at c known → RingStands seed generation ring.now → known ≤ length c → map (λ b. b.items) lent.now ≡ drop known (reverse (held folder.now).revisions)
        → IfRead result (λ head. ReadStands S.sealed H.hashed seed (held folder.now) c (read_of head) × (head.number ≡ length c) × (head.role ≡ roles_of c d) × (1 ≤ head.generation) × (head.generation ≤ 64)) }
{
    let policy = folder.policy();
    let most = policy.generation();
    let role = policy.role(d);
    let mut keys = match copy_ring(alloc, ring, most.min(generation)) {
        Ok(keys) => keys,
        Err(fault) => return Err(fault),
    };
    match fill(alloc, folder, d, secret, most, &mut keys, lent) {
        Ok(()) => {}
        Err(fault) => return Err(fault),
    }
    let bytes = &lent[lent.len() - 1];
    let (base, pointers, cache) = match read_tree(alloc, folder, &keys, bytes) {
        Ok(made) => made,
        Err(fault) => return Err(fault),
    };
    let (shown, last) = match copy_with_last(&base, d) {
        Ok(made) => made,
        Err(fault) => return Err(fault),
    };
    let number = folder.length();
    let hash = hash_of(bytes);
    Ok(Head {
        number,
        hash,
        base,
        shown,
        pointers,
        cache,
        ring: keys,
        generation: most,
        role,
        last,
    })
}

pub fn is_readable<H: BlockHash>(known: u32, head: &Head<H>) -> bool
    ensures { result ≡ is_readable known (read_of head.now) }
{
    known <= head.number
        && 1 <= head.number
        && 1 <= head.generation
        && head.generation <= 64
        && head.ring.key(head.generation).is_some()
}

/// The last revision of a folder, which can be known behind an earlier one, by a device with this last seq.
pub fn read_next<S: Sealer, H: BlockHash>(
    alloc: Global,
    folder: &Folder<S, H>,
    d: u16,
    secret: &Key,
    ring: &KeyRing,
    generation: u32,
    known: u32,
    last: u32,
    lent: &[Vec<u8>],
) -> Result<Head<H>, ReadFault>
    requires some { 0 < length lent.now }
    requires numbered { 1 ≤ d }
    ensures same { IfOk result (λ head. head.shown.tree ≡ head.base.tree) }
    ensures all { IfOk result (λ head. PointsAll head.base.tree head.pointers) }
    ensures readable { IfOk result (λ head. is_readable known (read_of head) ≡ true) }
    ensures fresh { IfOk result (λ head. IdsEndAt d last head.base.tree) }
    ensures stands { (seed : List ℕ) (names : Names) (c : Chain) → HasChain S.sealed S.signed H.hashed seed names (held folder.now) c → secret.now ≡ device_secret seed d → is_member (held folder.now) d ≡ true
        → generation ≡ generation_at c known → RingStands seed generation ring.now → known ≤ length c → length (ops_of d c) ≤ last → map (λ b. b.items) lent.now ≡ drop known (reverse (held folder.now).revisions)
        → IfRead result (λ head. ReadStands S.sealed H.hashed seed (held folder.now) c (read_of head) × (head.number ≡ length c) × (head.role ≡ roles_of c d)) }
{
    let head = match read_head(alloc, folder, d, secret, ring, generation, lent) {
        Ok(head) => head,
        Err(fault) => return Err(fault),
    };
    if !is_readable(known, &head) {
        return Err(ReadFault::BadFolder);
    }
    if head.last > last {
        return Err(ReadFault::BadFolder);
    }
    Ok(head)
}
