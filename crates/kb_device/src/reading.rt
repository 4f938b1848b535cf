//! Reading the keys that a folder keeps for a device.
ghost use Rattle.std.specs.Prelude.{◌≡◌, ◌≤◌, ℕ, List, [], ◌∷◌, IfOk, length, map, drop, reverse, true};
ghost use Rattle.std.specs.FinMap.{get};
ghost use Rattle.kb_ops.specs.Trees.{Tree, look};
ghost use Rattle.kb_keys.specs.Rings.{key_at};
ghost use Rattle.kb_files.specs.Opens.{Opens};
ghost use Rattle.kb_snap.specs.Holds.{HoldsTree};
ghost use Rattle.kb_snap.specs.Pointers.{AllHold};
ghost use Rattle.kb_chain.specs.declared.revisions.Revision.{Revision as RevisionRecord};
ghost use Rattle.kb_chain.specs.declared.privates.Private.{Private as PrivateRecord};
ghost use Rattle.kb_chain.specs.Revisions.{revision_text, IsRevision};
ghost use Rattle.kb_chain.specs.Privates.{private_text, IsPrivate};
ghost use Rattle.kb_keys.specs.Secrets.{xored, folder_key};
ghost use Rattle.kb_keys.specs.Bundles.{made_entry};
ghost use Rattle.kb_folder.specs.Chains.{Place, Plain, Back, Names, places_of, tree_at, generation_in};
ghost use Rattle.kb_folder.specs.Stands.{Revisions, entries_for, bundle_for, Spells, IsWritten, keys_to};
ghost use Rattle.kb_folder.specs.Lands.{FolderStands};
ghost use Rattle.kb_folder.specs.Reading.{places_behind};
ghost use Rattle.kb_folder.specs.Held.{held};
ghost use Rattle.kb_device.specs.Stands.{RingStands};
ghost use Rattle.kb_device.specs.Caches.{known_in};
ghost use Rattle.kb_device.specs.Left.{PointsAll};
ghost use Rattle.kb_device.specs.Filling.{is_wanted, IsServed, IfRead, HasKeysOf};

use crate::caching::cache_of;
use kb_blocks::{BlockHash, Store};
use kb_chain::{BundlePart, Private, Revision, RevisionFault, open_private};
use kb_edge::Memory;
use kb_files::LoadFault;
use kb_folder::Folder;
use kb_keys::{Entry, KeyRing};
use kb_seal::{Key, OpenFault, Sealer};
use kb_snap::{Pointers, load, one_tree_law};
use kb_tree::Table;
use std::alloc::Global;

/// Why a folder isn't read.
#[derive(Clone, Copy, Debug, PartialEq, Eq)]
pub enum ReadFault {
    /// What was read isn't as it should be.
    BadFolder,
    Memory,
}

// Two texts of 32 bytes, one laid over the other.
fn xor_of(text: &[u8], mask: &Key) -> Key
    requires { length text.now ≡ 32 }
    ensures { result ≡ xored text.now mask.now }
{
    let mut out = [0u8; 32];
    'bytes: for i in 0..32 {
        out[i] = text[i] ^ mask[i];
    }
    out
}

// The key that a sealed text gives.
fn key_from<S: Sealer>(
    alloc: Global,
    sealed: &[u8; 64],
    secret: &Key,
    half: &Key,
) -> Result<Key, ReadFault>
    ensures one { (key : List ℕ) → length key ≡ 32 → sealed.now ≡ S.sealed secret.now (xored key half.now) → IfRead result (λ given. given ≡ key) }
{
    match S::open(alloc, secret, sealed) {
        Ok(plain) => Ok(xor_of(plain.as_slice(), half)),
        Err(OpenFault::NotSealed) => Err(ReadFault::BadFolder),
        Err(OpenFault::Memory) => Err(ReadFault::Memory),
    }
}

fn is_wanted(d: u16, most: u32, entry: &Entry) -> bool
    ensures { result ≡ is_wanted d most entry.now }
{
    entry.device == d && (1 <= entry.generation && entry.generation <= most)
}

// The folder key that the device's entry gives.
fn key_in<S: Sealer, H: BlockHash>(
    alloc: Global,
    folder: &Folder<S, H>,
    d: u16,
    secret: &Key,
    most: u32,
    entry: &Entry,
) -> Result<Key, ReadFault>
    requires { is_wanted d most entry.now ≡ true }
    ensures { (seed : List ℕ) → IsServed seed (held folder.now) d secret.now most → entry.now ≡ made_entry S.sealed seed entry.now.device entry.now.generation (folder_key seed entry.now.generation)
        → IfRead result (λ key. key ≡ folder_key seed entry.now.generation) }
{
    let half = match folder.half(d, entry.generation) {
        Ok(half) => half,
        Err(_) => return Err(ReadFault::BadFolder),
    };
    key_from::<S>(alloc, &entry.sealed, secret, &half)
}

// Keeps the key of an entry for the device.
fn add_entry<S: Sealer, H: BlockHash>(
    alloc: Global,
    folder: &Folder<S, H>,
    d: u16,
    secret: &Key,
    most: u32,
    ring: &mut KeyRing,
    entry: &Entry,
) -> Result<(), ReadFault>
    ensures { (seed : List ℕ) (p : Place) → IsServed seed (held folder.now) d secret.now most → entry.now ≡ made_entry S.sealed seed p.0 p.1 (folder_key seed p.1)
        → IfRead result (λ _. HasKeysOf seed d most (p ∷ []) ring.old ring.new) }
{
    if !is_wanted(d, most, entry) {
        return Ok(());
    }
    let key = key_in(alloc, folder, d, secret, most, entry)?;
    match ring.add(entry.generation, key) {
        Ok(()) => Ok(()),
        Err(_) => Err(ReadFault::Memory),
    }
}

// Keeps the keys of all entries for the device.
fn add_entries<S: Sealer, H: BlockHash>(
    alloc: Global,
    folder: &Folder<S, H>,
    d: u16,
    secret: &Key,
    most: u32,
    ring: &mut KeyRing,
    entries: &[Entry],
) -> Result<(), ReadFault>
    ensures { (seed : List ℕ) (ps : List Place) → IsServed seed (held folder.now) d secret.now most → entries.now ≡ entries_for S.sealed seed ps
        → IfRead result (λ _. HasKeysOf seed d most ps ring.old ring.new) }
{
    'entries: for entry in entries {
        match add_entry(alloc, folder, d, secret, most, ring, entry) {
            Ok(()) => {}
            Err(fault) => return Err(fault),
        }
    }
    Ok(())
}

pub fn decode(alloc: Global, bytes: &[u8]) -> Result<Revision, ReadFault>
    ensures { (r : RevisionRecord) → IsRevision r → bytes.now ≡ revision_text r → IfRead result (λ read. read ≡ r) }
{
    match Revision::decode(alloc, bytes) {
        Ok(revision) => Ok(revision),
        Err(RevisionFault::BadRevision) => Err(ReadFault::BadFolder),
        Err(RevisionFault::Memory) => Err(ReadFault::Memory),
    }
}

// Keeps the keys of a revision's bundle for the device.
fn add_bundle<S: Sealer, H: BlockHash>(
    alloc: Global,
    folder: &Folder<S, H>,
    d: u16,
    secret: &Key,
    most: u32,
    ring: &mut KeyRing,
    bundle: &Option<BundlePart>,
) -> Result<(), ReadFault>
    ensures { (seed : List ℕ) (c : Back) (x : Plain) → IsServed seed (held folder.now) d secret.now most → bundle.now ≡ bundle_for S.sealed seed x.writer x.deed (places_of (x ∷ c))
        → IfRead result (λ _. HasKeysOf seed d most (places_of (x ∷ c)) ring.old ring.new) }
{
    match bundle {
        None => Ok(()),
        Some(part) => add_entries(
            alloc,
            folder,
            d,
            secret,
            most,
            ring,
            part.entries.as_slice(),
        ),
    }
}

// Keeps the keys that a revision has for the device.
fn add_revision<S: Sealer, H: BlockHash>(
    alloc: Global,
    folder: &Folder<S, H>,
    d: u16,
    secret: &Key,
    most: u32,
    ring: &mut KeyRing,
    bytes: &[u8],
) -> Result<(), ReadFault>
    ensures { (seed : List ℕ) (names : Names) (bs : Revisions) (c : Back) (x : Plain) → IsServed seed (held folder.now) d secret.now most → Spells S.sealed S.signed seed names bs c bytes.now x
        → IfRead result (λ _. HasKeysOf seed d most (places_of (x ∷ c)) ring.old ring.new) }
{
    let revision = decode(alloc, bytes)?;
    add_bundle(alloc, folder, d, secret, most, ring, &revision.bundle)
}

/// Keeps the keys, up to a generation, that the revisions behind the first ones have for the device.
pub fn fill<S: Sealer, H: BlockHash>(
    alloc: Global,
    folder: &Folder<S, H>,
    d: u16,
    secret: &Key,
    most: u32,
    ring: &mut KeyRing,
    lent: &[Vec<u8>],
) -> Result<(), ReadFault>
    ensures { (seed : List ℕ) (names : Names) (known : ℕ) (c : Back) → IsServed seed (held folder.now) d secret.now most → FolderStands S.sealed S.signed H.hashed seed names (held folder.now) c → known ≤ length c
        → map (λ b. b.items) lent.now ≡ drop known (reverse (held folder.now).revisions) → IfRead result (λ _. HasKeysOf seed d most (places_behind known c) ring.old ring.new) }
{
    'revisions: for bytes in lent {
        match add_revision(alloc, folder, d, secret, most, ring, bytes) {
            Ok(()) => {}
            Err(fault) => return Err(fault),
        }
    }
    Ok(())
}

/// The private part of a revision, under the folder key of its generation.
pub fn open<S: Sealer>(alloc: Global, revision: &Revision, key: &Key) -> Result<Private, ReadFault>
    ensures { (p : PrivateRecord) → IsPrivate revision.now.kind p → revision.now.private ≡ S.sealed key.now (private_text revision.now.kind p) → IfRead result (λ read. read ≡ p) }
{
    match open_private::<S>(alloc, revision, key) {
        Ok(private) => Ok(private),
        Err(RevisionFault::BadRevision) => Err(ReadFault::BadFolder),
        Err(RevisionFault::Memory) => Err(ReadFault::Memory),
    }
}

fn load_tree<S: Sealer, H: BlockHash>(
    alloc: Global,
    folder: &Folder<S, H>,
    ring: &KeyRing,
    private: &Private,
) -> Result<(Table, Pointers, Option<Store<H>>), ReadFault>
    ensures read { (t : Tree) → HoldsTree (Opens S.sealed H.hashed (get (held folder.now).blocks) (key_at ring.now)) private.now.root private.now.mtime t
        → IfRead result (λ made. (made.0.tree ≡ t) × AllHold (Opens S.sealed H.hashed (known_in made.2 (get (held folder.now).blocks)) (key_at ring.now)) (look made.0.tree) made.1) }
    ensures all { IfOk result (λ made. PointsAll made.0.tree made.1) }
{
    one_tree_law::<S, H>();
    let store = folder.store();
    let (table, pointers) = match load::<S, H>(alloc, private.root, private.mtime, ring, store) {
        Ok(made) => made,
        Err(LoadFault::Memory) => return Err(ReadFault::Memory),
        Err(_) => return Err(ReadFault::BadFolder),
    };
    match cache_of::<S, H>(alloc, &table, &pointers, ring, store) {
        Ok(cache) => Ok((table, pointers, cache)),
        Err(Memory) => Err(ReadFault::Memory),
    }
}

/// The tree of a revision with pointers of its rows and the blocks that they reach, under the folder keys up to its
/// generation.
pub fn read_tree<S: Sealer, H: BlockHash>(
    alloc: Global,
    folder: &Folder<S, H>,
    ring: &KeyRing,
    bytes: &[u8],
) -> Result<(Table, Pointers, Option<Store<H>>), ReadFault>
    ensures read { (seed : List ℕ) (names : Names) (bs : Revisions) (c : Back) (x : Plain) → IsWritten S.sealed S.signed H.hashed seed names (get (held folder.now).blocks) bs c bytes.now x
        → RingStands seed (generation_in (x ∷ c)) ring.now
        → IfRead result (λ made. (made.0.tree ≡ tree_at (x ∷ c) (length (x ∷ c))) × AllHold (Opens S.sealed H.hashed (known_in made.2 (get (held folder.now).blocks)) (keys_to seed (generation_in (x ∷ c)))) (look made.0.tree) made.1) }
    ensures all { IfOk result (λ made. PointsAll made.0.tree made.1) }
{
    let revision = match decode(alloc, bytes) {
        Ok(revision) => revision,
        Err(fault) => return Err(fault),
    };
    let Some(key) = ring.key(revision.generation) else {
        return Err(ReadFault::BadFolder);
    };
    let private = match open::<S>(alloc, &revision, key) {
        Ok(private) => private,
        Err(fault) => return Err(fault),
    };
    load_tree(alloc, folder, ring, &private)
}
