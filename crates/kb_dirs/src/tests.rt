//! Directories that are built, listed and searched.
ghost use Rattle.std.specs.Prelude.{◌≡◌, IfOk};
ghost use Rattle.kb_dirs.specs.Dirs.{IsProper, AreProper};

use crate::{Entry, build_dir, find_in, list_dir};
use kb_blocks::{Ptr, Sha256Hash, Store};
use kb_edge::Memory;
use kb_files::LoadFault;
use kb_keys::KeyRing;
use kb_name::{Moment, Name, NameFault, NodeId};
use kb_ops::Kind;
use kb_seal::HmacSealer;
use std::alloc::Global;

const KEY: [u8; 32] = [5; 32];

fn ring(alloc: Global) -> Result<KeyRing, Memory> {
    let mut ring = KeyRing::new(alloc);
    ring.add(7, KEY)?;
    Ok(ring)
}

fn file(alloc: Global, name: &[u8], seq: u32) -> Result<Entry, NameFault>
    ensures { IfOk result (λ e. (e.name ≡ name.now) × IsProper e) }
{
    Ok(Entry {
        name: Name::new(alloc, name)?,
        id: NodeId {
            device: 1,
            seq,
            part: 0,
        },
        kind: Kind::File,
        exec: true,
        mtime: Moment::START,
        size: 3,
        ptr: Ptr {
            id: [9; 32],
            generation: 7,
        },
    })
}

fn two_files(alloc: Global) -> Result<[Entry; 2], NameFault>
    ensures { IfOk result (λ es. AreProper es) }
{
    let first = file(alloc, b"a", 1)?;
    let second = file(alloc, b"b", 2)?;
    Ok([first, second])
}

// The pointer to a directory of two files, and its block.
fn built(alloc: Global) -> Option<(Ptr, Vec<Vec<u8>>)> {
    let entries = two_files(alloc).ok()?;
    build_dir::<HmacSealer, Sha256Hash>(alloc, &entries, &KEY, 7).ok()
}

fn stored(alloc: Global, blocks: &[Vec<u8>]) -> Option<Store<Sha256Hash>> {
    let mut store = Store::<Sha256Hash>::new(alloc);
    store.put_all(blocks).ok()?;
    Some(store)
}

fn comes_back(alloc: Global) -> Option<bool> {
    let entries = two_files(alloc).ok()?;
    let ring = ring(alloc).ok()?;
    let (ptr, blocks) = built(alloc)?;
    let store = stored(alloc, &blocks)?;
    let again = list_dir::<HmacSealer, Sha256Hash>(alloc, ptr, &ring, &store).ok()?;
    Some(blocks.len() == 1 && again.as_slice() == entries.as_slice())
}

// The seq of the file of this name, 0 where there is none.
fn found(alloc: Global, name: &[u8]) -> Option<u32> {
    let name = Name::new(alloc, name).ok()?;
    let ring = ring(alloc).ok()?;
    let (ptr, blocks) = built(alloc)?;
    let store = stored(alloc, &blocks)?;
    match find_in::<HmacSealer, Sha256Hash>(alloc, ptr, &name, &ring, &store).ok()? {
        Some(entry) => Some(entry.id.seq),
        None => Some(0),
    }
}

// Whether a block that isn't this directory's is refused.
fn is_bad(alloc: Global, block: &[u8]) -> Option<bool> {
    let ring = ring(alloc).ok()?;
    let mut store = Store::<Sha256Hash>::new(alloc);
    let id = store.put(block).ok()?;
    let ptr = Ptr { id, generation: 7 };
    match list_dir::<HmacSealer, Sha256Hash>(alloc, ptr, &ring, &store) {
        Ok(_) => Some(false),
        Err(fault) => Some(fault == LoadFault::BadBlock { id }),
    }
}

fn is_bad_when_altered(alloc: Global) -> Option<bool> {
    let (_, mut blocks) = built(alloc)?;
    let mut block = blocks.pop()?;
    let last = block.pop()?;
    block.push(last ^ 1).ok()?;
    is_bad(alloc, &block)
}

fn is_missing(alloc: Global) -> Option<bool> {
    let ring = ring(alloc).ok()?;
    let (ptr, _) = built(alloc)?;
    let id = ptr.id;
    let store = Store::<Sha256Hash>::new(alloc);
    match list_dir::<HmacSealer, Sha256Hash>(alloc, ptr, &ring, &store) {
        Ok(_) => Some(false),
        Err(fault) => Some(fault == LoadFault::Missing { id }),
    }
}

#[test]
fn a_directory_is_its_block(rt: HostRuntime) {
    assert!(&rt; comes_back(rt.alloc()) == Some(true));
}

#[test]
fn an_entry_is_found_by_its_name(rt: HostRuntime) {
    assert!(&rt; found(rt.alloc(), b"a") == Some(1));
    assert!(&rt; found(rt.alloc(), b"b") == Some(2));
    assert!(&rt; found(rt.alloc(), b"c") == Some(0));
}

#[test]
fn a_block_is_missing_or_bad(rt: HostRuntime) {
    assert!(&rt; is_missing(rt.alloc()) == Some(true));
    assert!(&rt; is_bad_when_altered(rt.alloc()) == Some(true));
    assert!(&rt; is_bad(rt.alloc(), b"abc") == Some(true));
}
