//! What the revisions behind a known one did.
ghost use Rattle.std.specs.Prelude.{◌≡◌, ◌≤◌, ◌++◌, ◌∷◌, ◌&&◌, ℕ, List, length, map, drop, reverse};
ghost use Rattle.kb_folder.specs.Chains.{Plain, Back, Names, generation_in};
ghost use Rattle.kb_folder.specs.Stands.{Revisions, Spells};
ghost use Rattle.kb_folder.specs.Lands.{FolderStands};
ghost use Rattle.kb_folder.specs.Held.{held};
ghost use Rattle.kb_snap.specs.Chains.{ops_in};
ghost use Rattle.kb_device.specs.Behind.{all_ops, is_no_merge, are_plain};
ghost use Rattle.kb_device.specs.Filling.{IfRead};
ghost use Rattle.kb_device.specs.Stands.{RingStands};

use crate::reading::{ReadFault, decode, open};
use kb_blocks::BlockHash;
use kb_folder::Folder;
use kb_keys::KeyRing;
use kb_ops::Op;
use kb_seal::Sealer;
use std::alloc::Global;

/// The operations of some revisions, in order, and whether none of these is a merge.
#[derive(Drop)]
pub struct Done {
    pub ops: Vec<Op>,
    pub plain: bool,
}

// What one revision did.
fn done_in<S: Sealer>(alloc: Global, ring: &KeyRing, bytes: &[u8]) -> Result<Done, ReadFault>
    ensures { (seed : List ℕ) (names : Names) (bs : Revisions) (c : Back) (x : Plain) (top : ℕ) → Spells S.sealed S.signed seed names bs c bytes.now x → RingStands seed top ring.now → generation_in (x ∷ c) ≤ top
        → IfRead result (λ done. (done.ops.items ≡ ops_in x.deed) × (done.plain ≡ is_no_merge x.deed)) }
{
    let revision = match decode(alloc, bytes) {
        Ok(revision) => revision,
        Err(fault) => return Err(fault),
    };
    let Some(key) = ring.key(revision.generation) else {
        return Err(ReadFault::BadFolder);
    };
    let private = match open::<S>(alloc, &revision, key) {
        Ok(private) => private,
        Err(fault) => return Err(fault),
    };
    let plain = private.base.is_none();
    Ok(Done {
        ops: private.ops.into_vec(),
        plain,
    })
}

// What was done and then more.
fn add_done(done: &mut Done, mut more: Done) -> Result<(), ReadFault>
    ensures { IfRead result (λ _. (done.new.ops.items ≡ done.old.ops.items ++ more.ops.items) × (done.new.plain ≡ (done.old.plain && more.plain))) }
{
    match done.ops.append(&mut more.ops) {
        Ok(()) => {
            done.plain = done.plain && more.plain;
            Ok(())
        }
        Err(_) => Err(ReadFault::Memory),
    }
}

/// What the revisions behind a known one did, to a member with the folder keys up to the last generation.
pub fn read_done<S: Sealer, H: BlockHash>(
    alloc: Global,
    folder: &Folder<S, H>,
    ring: &KeyRing,
    lent: &[Vec<u8>],
) -> Result<Done, ReadFault>
    ensures { (seed : List ℕ) (names : Names) (known : ℕ) (c : Back) → FolderStands S.sealed S.signed H.hashed seed names (held folder.now) c → RingStands seed (generation_in c) ring.now → known ≤ length c
        → map (λ b. b.items) lent.now ≡ drop known (reverse (held folder.now).revisions) → IfRead result (λ done. (done.ops.items ≡ all_ops (drop known (reverse c))) × (done.plain ≡ are_plain (drop known (reverse c)))) }
{
    let mut done = Done {
        ops: Vec::new(alloc),
        plain: true,
    };
    'revisions: for bytes in lent {
        let more = match done_in::<S>(alloc, ring, bytes) {
            Ok(more) => more,
            Err(fault) => return Err(fault),
        };
        match add_done(&mut done, more) {
            Ok(()) => {}
            Err(fault) => return Err(fault),
        }
    }
    Ok(done)
}
