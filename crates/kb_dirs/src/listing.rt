//! Reading a directory's block.
ghost use Rattle.std.specs.Prelude.{◌≡◌, ◌<◌, IfSome, length};
ghost use Rattle.std.specs.FinMap as map;
ghost use Rattle.std.specs.List.{position};
ghost use Rattle.kb_keys.specs.Rings.{key_at};
ghost use Rattle.kb_files.specs.Opens.{Opens, Reads, RefusalNames};
ghost use Rattle.kb_dirs.specs.Dirs.{is_named, entry_named, HoldsDir, HoldsNamed};

use crate::decode::decode_dir;
use crate::entries::Entry;
use crate::faults::DirFault;
use kb_blocks::{BlockHash, Ptr, Store};
use kb_files::{LoadFault, open_block};
use kb_keys::KeyRing;
use kb_name::Name;
use kb_seal::Sealer;
use std::alloc::Global;

/// The entries of the directory that the pointer holds.
pub fn list_dir<S: Sealer, H: BlockHash>(
    alloc: Global,
    ptr: Ptr,
    keys: &KeyRing,
    store: &Store<H>,
) -> Result<Vec<Entry>, LoadFault>
    ensures reads { Reads (map.get store.now) (λ es. es.items) (HoldsDir (Opens S.sealed H.hashed (map.get store.now) (key_at keys.now)) ptr) result }
    ensures names { RefusalNames ptr.id result }
{
    let id = ptr.id;
    let text = match open_block::<S, H>(alloc, ptr, keys, store) {
        Ok(text) => text,
        Err(fault) => return Err(fault),
    };
    match decode_dir(alloc, &text) {
        Ok(entries) => Ok(entries),
        Err(DirFault::BadDir) => Err(LoadFault::BadBlock { id }),
        Err(DirFault::Memory) => Err(LoadFault::Memory),
    }
}

fn is_named(entry: &Entry, name: &Name) -> bool
    ensures { result ≡ is_named name.now entry.now }
{
    entry.name == *name
}

fn place_of(entries: &[Entry], name: &Name) -> Option<usize>
    ensures place { result ≡ position (is_named name.now) entries.now }
    ensures within { IfSome result (λ i. i < length entries.now) }
{
    entries.iter().position(|entry| is_named(entry, name))
}

fn take_named(mut entries: Vec<Entry>, name: &Name) -> Option<Entry>
    ensures { result ≡ entry_named name.now entries.items }
{
    match place_of(&entries, name) {
        Some(place) => Some(entries.swap_remove(place)),
        None => None,
    }
}

/// The entry of a name in the directory that the pointer holds, or none.
pub fn find_in<S: Sealer, H: BlockHash>(
    alloc: Global,
    ptr: Ptr,
    name: &Name,
    keys: &KeyRing,
    store: &Store<H>,
) -> Result<Option<Entry>, LoadFault>
    ensures reads { Reads (map.get store.now) (λ found. found) (HoldsNamed (Opens S.sealed H.hashed (map.get store.now) (key_at keys.now)) ptr name.now) result }
    ensures names { RefusalNames ptr.id result }
{
    let entries = match list_dir::<S, H>(alloc, ptr, keys, store) {
        Ok(entries) => entries,
        Err(fault) => return Err(fault),
    };
    Ok(take_named(entries, name))
}
