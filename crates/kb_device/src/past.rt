//! Reading what a folder keeps of an earlier revision, and of a device's own ones.
ghost use Rattle.std.specs.Prelude.{◌≡◌, ◌≤◌, ◌+◌, ◌-◌, ℕ, List, ◌∷◌, IfOk, length, map, drop, reverse, true};
ghost use Rattle.kb_keys.specs.Secrets.{device_secret};
ghost use Rattle.kb_snap.specs.Chains.{Chain};
ghost use Rattle.kb_snap.specs.Members.{roles_at};
ghost use Rattle.kb_folder.specs.Chains.{Plain, Back, Names, role_in, generation_in};
ghost use Rattle.kb_folder.specs.Stands.{Revisions, Spells, keys_to};
ghost use Rattle.kb_folder.specs.Lands.{FolderStands};
ghost use Rattle.kb_folder.specs.Held.{held, is_member};
ghost use Rattle.kb_folder.specs.Goes.{HasChain};
ghost use Rattle.kb_device.specs.Heads.{ReadStands};
ghost use Rattle.kb_device.specs.Views.{read_of};
ghost use Rattle.kb_device.specs.Filling.{IfRead};
ghost use Rattle.kb_device.specs.Left.{PointsAll};
ghost use Rattle.kb_device.specs.Fresh.{IsLastOf};
ghost use Rattle.kb_device.specs.Pulling.{is_readable};
ghost use Rattle.kb_device.specs.Past.{role_with, IsOwnAt, IsFirstOwn};

use crate::head::Head;
use crate::heading::is_readable;
use crate::reading::{ReadFault, decode, fill, read_tree};
use crate::seqs::copy_with_last;
use kb_blocks::BlockHash;
use kb_chain::{BundlePart, Revision, hash_of};
use kb_folder::Folder;
use kb_keys::{Action, KeyRing, Role};
use kb_seal::{Key, Sealer};
use std::alloc::Global;

/// A revision with operations, as its header tells: its number, and the seqs of its first and its last operation.
#[derive(Clone, Copy, Debug, PartialEq, Eq)]
pub struct Own {
    pub number: u32,
    pub first: u32,
    pub last: u32,
}

// The role of a device that had this one, after what a revision says of the members.
fn role_with(d: u16, bundle: &Option<BundlePart>, role: Option<Role>) -> Option<Role>
    ensures { result ≡ role_with d bundle.now role }
{
    match bundle {
        None => role,
        Some(part) => {
            if d != part.device {
                return role;
            }
            match part.action {
                Action::Found => Some(Role::Writer),
                Action::GrantWriter => Some(Role::Writer),
                Action::GrantReader => Some(Role::Reader),
                Action::Revoke => None,
            }
        }
    }
}

// The role of a device that had this one, after a revision.
fn role_behind<S: Sealer>(
    alloc: Global,
    d: u16,
    bytes: &[u8],
    role: Option<Role>,
) -> Result<Option<Role>, ReadFault>
    ensures { (seed : List ℕ) (names : Names) (bs : Revisions) (c : Back) (x : Plain) → Spells S.sealed S.signed seed names bs c bytes.now x → role ≡ role_in c d → IfRead result (λ after. after ≡ role_in (x ∷ c) d) }
{
    let revision = match decode(alloc, bytes) {
        Ok(revision) => revision,
        Err(fault) => return Err(fault),
    };
    Ok(role_with(d, &revision.bundle, role))
}

/// The role of a device after the first revisions, so many.
pub fn read_role<S: Sealer, H: BlockHash>(
    alloc: Global,
    folder: &Folder<S, H>,
    d: u16,
    lent: &[Vec<u8>],
    number: u32,
) -> Result<Option<Role>, ReadFault>
    requires { number ≤ length lent.now }
    ensures { (seed : List ℕ) (names : Names) (c : Back) → FolderStands S.sealed S.signed H.hashed seed names (held folder.now) c → map (λ b. b.items) lent.now ≡ reverse (held folder.now).revisions
        → IfRead result (λ role. role ≡ role_in (drop (length c - number) c) d) }
{
    let mut role = None;
    'revisions: for i in 0..number {
        match role_behind::<S>(alloc, d, &lent[i as usize], role) {
            Ok(after) => role = after,
            Err(fault) => return Err(fault),
        }
    }
    Ok(role)
}

// The revision, where it has operations of the device. Its private part stays closed.
fn own_in<S: Sealer>(alloc: Global, d: u16, bytes: &[u8]) -> Result<Option<Own>, ReadFault>
    ensures { (seed : List ℕ) (names : Names) (bs : Revisions) (c : Back) (x : Plain) → Spells S.sealed S.signed seed names bs c bytes.now x → IfRead result (IsOwnAt d (length c + 1) x) }
{
    let revision = match decode(alloc, bytes) {
        Ok(revision) => revision,
        Err(fault) => return Err(fault),
    };
    if revision.writer != d || revision.first == 0 {
        return Ok(None);
    }
    Ok(Some(Own {
        number: revision.number,
        first: revision.first,
        last: revision.last,
    }))
}

/// The first revision behind a known one that has operations of the device.
pub fn find_own<S: Sealer, H: BlockHash>(
    alloc: Global,
    folder: &Folder<S, H>,
    d: u16,
    lent: &[Vec<u8>],
) -> Result<Option<Own>, ReadFault>
    ensures { (seed : List ℕ) (names : Names) (known : ℕ) (c : Back) → FolderStands S.sealed S.signed H.hashed seed names (held folder.now) c → known ≤ length c → map (λ b. b.items) lent.now ≡ drop known (reverse (held folder.now).revisions)
        → IfRead result (IsFirstOwn d known (drop known (reverse c))) }
{
    'revisions: for bytes in lent {
        match own_in::<S>(alloc, d, bytes) {
            Ok(None) => {}
            Ok(Some(own)) => return Ok(Some(own)),
            Err(fault) => return Err(fault),
        }
    }
    Ok(None)
}

/// A revision of a folder that a device may know, for a member.
pub fn read_at<S: Sealer, H: BlockHash>(
    alloc: Global,
    folder: &Folder<S, H>,
    d: u16,
    secret: &Key,
    lent: &[Vec<u8>],
    number: u32,
) -> Result<Head<H>, ReadFault>
    requires { (1 ≤ number) × (number ≤ length lent.now) }
    ensures same { IfOk result (λ head. head.shown.tree ≡ head.base.tree) }
    ensures all { IfOk result (λ head. PointsAll head.base.tree head.pointers) }
    ensures last { IfOk result (λ head. IsLastOf d head.base.tree head.last) }
    ensures number { IfOk result (λ head. head.number ≡ number) }
    ensures readable { IfOk result (λ head. is_readable 0 (read_of head) ≡ true) }
    ensures stands { (seed : List ℕ) (names : Names) (c : Chain) → HasChain S.sealed S.signed H.hashed seed names (held folder.now) c → secret.now ≡ device_secret seed d → is_member (held folder.now) d ≡ true
        → map (λ b. b.items) lent.now ≡ reverse (held folder.now).revisions → IfRead result (λ head. ReadStands S.sealed H.hashed seed (held folder.now) c (read_of head) × (head.role ≡ roles_at c number d)) }
{
    let bytes = &lent[number as usize - 1];
    let revision = match decode(alloc, bytes) {
        Ok(revision) => revision,
        Err(fault) => return Err(fault),
    };
    let generation = revision.generation;
    let role = match read_role(alloc, folder, d, lent, number) {
        Ok(role) => role,
        Err(fault) => return Err(fault),
    };
    let mut ring = KeyRing::new(alloc);
    match fill(alloc, folder, d, secret, generation, &mut ring, lent) {
        Ok(()) => {}
        Err(fault) => return Err(fault),
    }
    let (base, pointers, cache) = match read_tree(alloc, folder, &ring, bytes) {
        Ok(made) => made,
        Err(fault) => return Err(fault),
    };
    let (shown, last) = match copy_with_last(&base, d) {
        Ok(made) => made,
        Err(fault) => return Err(fault),
    };
    let hash = hash_of(bytes);
    let head = Head {
        number,
        hash,
        base,
        shown,
        pointers,
        cache,
        ring,
        generation,
        role,
        last,
    };
    if is_readable(0, &head) {
        Ok(head)
    } else {
        Err(ReadFault::BadFolder)
    }
}
