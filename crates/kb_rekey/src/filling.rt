//! The keys that a member reads from a folder's bundles.
ghost use Rattle.std.specs.Prelude.{◌≡◌, ◌+◌, ◌≤◌, ◌<◌, ◌^◌, ℕ, List, [], true, length, map as each, IfOk, IfErr, Some};
ghost use Rattle.kb_keys.specs.Secrets.{device_secret, xored};
ghost use Rattle.kb_keys.specs.Halves.{half_at};
ghost use Rattle.kb_chain.specs.Checks.{entries_of};
ghost use Rattle.kb_folder.specs.Chains.{Back, Names, Place};
ghost use Rattle.kb_folder.specs.Held.{held, is_member};
ghost use Rattle.kb_folder.specs.Lands.{FolderStands};
ghost use Rattle.kb_rekey.specs.Filling.{Filled, FillsRing, RingCause, IsSpoilt, HasSpoilt, IsBad, BadAmong, Blames, BlamesOne, TellsOnly, Decoded, AreGood, AddedKeys, HasPlaces, HasHalves, AllHavePlaces, AddedPlaces, AddedAll};

use kb_blocks::BlockHash;
use kb_chain::{BundlePart, Revision, RevisionFault};
use kb_edge::Memory;
use kb_folder::Folder;
use kb_keys::{Entry, KeyFault, KeyRing};
use kb_seal::{Key, Sealer};
use std::alloc::Global;

/// Why a ring isn't filled.
#[derive(Clone, Copy, Debug, PartialEq, Eq)]
pub enum RingFault {
    /// The device isn't a member of the folder.
    NotMember,
    /// The revision with this number is none, or an entry of the device in it gives no key.
    BadFolder { number: u32 },
    Memory,
}

// Why a revision gives no keys.
#[derive(Clone, Copy, Debug, PartialEq, Eq)]
enum GiveFault {
    Bad,
    Memory,
}

// The key that a member's entry gives, with the half that the folder keeps.
fn key_in<S: Sealer, H: BlockHash>(
    alloc: Global,
    folder: &Folder<S, H>,
    secret: &Key,
    entry: &Entry,
) -> Result<Key, GiveFault>
    requires { is_member (held folder.now) entry.now.device ≡ true }
    ensures blame { Blames (IsSpoilt S.sealed secret.now (held folder.now).halves entry.now) result }
    ensures one { (key half : List ℕ) → length key ≡ 32 → half_at (held folder.now).halves entry.now.device entry.now.generation ≡ Some half → entry.now.sealed ≡ S.sealed secret.now (xored key half) → TellsOnly key result }
{
    let half = match folder.half(entry.device, entry.generation) {
        Ok(half) => half,
        Err(_) => return Err(GiveFault::Bad),
    };
    match entry.key::<S>(alloc, secret, &half) {
        Ok(key) => Ok(key),
        Err(KeyFault::NoEntry) => Err(GiveFault::Bad),
        Err(KeyFault::NotSealed) => Err(GiveFault::Bad),
        Err(KeyFault::Memory) => Err(GiveFault::Memory),
    }
}

// Adds the keys of the device's entries.
fn add_entries<S: Sealer, H: BlockHash>(
    alloc: Global,
    ring: &mut KeyRing,
    folder: &Folder<S, H>,
    d: u16,
    secret: &Key,
    entries: &[Entry],
) -> Result<(), GiveFault>
    requires { is_member (held folder.now) d ≡ true }
    ensures blame { Blames (HasSpoilt S.sealed secret.now (held folder.now).halves d entries.now) result }
    ensures adds { (seed : List ℕ) → secret.now ≡ device_secret seed d → AreGood S.sealed seed (held folder.now).halves d entries.now → AddedKeys seed d entries.now ring.old ring.new result }
{
    'entries: for entry in entries {
        if entry.device == d {
            let key = match key_in::<S, H>(alloc, folder, secret, entry) {
                Ok(key) => key,
                Err(fault) => return Err(fault),
            };
            match ring.add(entry.generation, key) {
                Ok(()) => {}
                Err(Memory) => return Err(GiveFault::Memory),
            }
        }
    }
    Ok(())
}

fn decode(alloc: Global, bytes: &[u8]) -> Result<Revision, GiveFault>
    ensures { Decoded bytes.now result }
{
    match Revision::decode(alloc, bytes) {
        Ok(revision) => Ok(revision),
        Err(RevisionFault::BadRevision) => Err(GiveFault::Bad),
        Err(RevisionFault::Memory) => Err(GiveFault::Memory),
    }
}

fn entries_in(bundle: &Option<BundlePart>) -> &[Entry]
    ensures { result.now ≡ entries_of bundle.now }
{
    match bundle {
        Some(part) => part.entries.as_slice(),
        None => &[],
    }
}

// Adds the keys that a revision gives the device.
fn add_revision<S: Sealer, H: BlockHash>(
    alloc: Global,
    ring: &mut KeyRing,
    folder: &Folder<S, H>,
    d: u16,
    secret: &Key,
    bytes: &[u8],
) -> Result<(), GiveFault>
    requires { is_member (held folder.now) d ≡ true }
    ensures blame { Blames (IsBad S.sealed secret.now (held folder.now).halves d bytes.now) result }
    ensures adds { (seed : List ℕ) (ps : List Place) → secret.now ≡ device_secret seed d → HasPlaces S.sealed seed bytes.now ps → HasHalves seed (held folder.now).halves d ps → AddedPlaces seed d ps ring.old ring.new result }
{
    let revision = match decode(alloc, bytes) {
        Ok(revision) => revision,
        Err(fault) => return Err(fault),
    };
    add_entries::<S, H>(alloc, ring, folder, d, secret, entries_in(&revision.bundle))
}

// Adds the keys that revisions give the device, which stand behind so many.
fn add_revisions<S: Sealer, H: BlockHash>(
    alloc: Global,
    ring: &mut KeyRing,
    folder: &Folder<S, H>,
    d: u16,
    secret: &Key,
    from: u32,
    texts: &[Vec<u8>],
) -> Result<(), RingFault>
    requires member { is_member (held folder.now) d ≡ true }
    requires room { from + length texts.now < 2 ^ 32 }
    ensures blame { BlamesOne (BadAmong S.sealed secret.now (held folder.now).halves d from (each (λ b. b.items) texts.now)) result }
    ensures adds { (seed : List ℕ) (pss : List (List Place)) → secret.now ≡ device_secret seed d → AllHavePlaces S.sealed seed (held folder.now).halves d (each (λ b. b.items) texts.now) pss → AddedAll seed d pss ring.old ring.new result }
{
    let mut number = from;
    'texts: for text in texts {
        number += 1;
        match add_revision::<S, H>(alloc, ring, folder, d, secret, text.as_slice()) {
            Ok(()) => {}
            Err(GiveFault::Bad) => return Err(RingFault::BadFolder { number }),
            Err(GiveFault::Memory) => return Err(RingFault::Memory),
        }
    }
    Ok(())
}

/// A device's ring with the keys that it gets in the revisions behind the first ones, whose keys it had. A refusal
/// changes nothing.
pub fn read_ring<S: Sealer, H: BlockHash>(
    alloc: Global,
    folder: &Folder<S, H>,
    d: u16,
    secret: &Key,
    ring: &KeyRing,
    from: u32,
) -> Result<KeyRing, RingFault>
    ensures cause { RingCause S.sealed (held folder.now) d secret.now from result }
    ensures fills { FillsRing S.sealed S.signed H.hashed (held folder.now) d secret.now from ring.now result }
{
    let texts = match folder.fetch(d, from) {
        Ok(texts) => texts,
        Err(_) => return Err(RingFault::NotMember),
    };
    let mut filled = match ring.copy() {
        Ok(filled) => filled,
        Err(Memory) => return Err(RingFault::Memory),
    };
    match add_revisions::<S, H>(alloc, &mut filled, folder, d, secret, from, texts) {
        Ok(()) => Ok(filled),
        Err(fault) => Err(fault),
    }
}

/// A device's ring with all keys that the folder gives it.
pub fn first_ring<S: Sealer, H: BlockHash>(
    alloc: Global,
    folder: &Folder<S, H>,
    d: u16,
    secret: &Key,
) -> Result<KeyRing, RingFault>
    ensures cause { RingCause S.sealed (held folder.now) d secret.now 0 result }
    ensures fills { (seed : List ℕ) (names : Names) (c : Back) → FolderStands S.sealed S.signed H.hashed seed names (held folder.now) c → secret.now ≡ device_secret seed d → Filled seed c d result }
{
    let ring = KeyRing::new(alloc);
    read_ring::<S, H>(alloc, folder, d, secret, &ring, 0)
}
