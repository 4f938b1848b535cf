//! Trees that are built and loaded.
ghost use Rattle.std.specs.Prelude.{replicate, refl, IfOk};
ghost use Rattle.kb_dirs.specs.Dirs.{IsProper, AreProper};

use crate::tests::apply::{link, mkdir, mkfile, write};
use kb_blocks::{BlockHash, Hash, Ptr, Sha256Hash, Store};
use kb_dirs::{Entry, build_dir};
use kb_edge::Memory;
use kb_files::LoadFault;
use kb_keys::KeyRing;
use kb_name::{Moment, Name, NodeId};
use kb_ops::Kind;
use kb_seal::HmacSealer;
use kb_snap::{Built, Pointers, build, load};
use kb_tree::Table;
use std::alloc::Global;
use std::test::Fail;

const OLD_KEY: [u8; 32] = [5; 32];

const NEW_KEY: [u8; 32] = [6; 32];

fn id(seq: u32) -> NodeId {
    NodeId {
        device: 1,
        seq,
        part: 0,
    }
}

// The root with `/d`, `/d/f` of 5,000 bytes, `/d/none` of none, `/d/e` and `/l`.
fn every_kind(alloc: Global) -> Result<Table, Fail> {
    let mut table = Table::new(alloc)?;
    mkdir(alloc, &mut table, 1, "/d")?;
    link(alloc, &mut table, 2, "/l", b"d/f")?;
    mkfile(alloc, &mut table, 3, "/d/f")?;
    write(alloc, &mut table, 9, "/d/f", &[7; 5000])?;
    mkfile(alloc, &mut table, 4, "/d/none")?;
    mkdir(alloc, &mut table, 5, "/d/e")?;
    Ok(table)
}

fn ring(alloc: Global) -> Result<KeyRing, Memory> {
    let mut ring = KeyRing::new(alloc);
    ring.add(7, OLD_KEY)?;
    ring.add(8, NEW_KEY)?;
    Ok(ring)
}

fn first(alloc: Global, table: &Table) -> Result<Built, Fail> {
    let none = Pointers::new(alloc);
    Ok(build::<HmacSealer, Sha256Hash>(alloc, table, &none, &OLD_KEY, 7)?)
}

fn is_loaded(
    alloc: Global,
    table: &Table,
    root: Ptr,
    store: &Store<Sha256Hash>,
) -> Result<bool, Fail> {
    let ring = ring(alloc)?;
    let (again, _) = load::<HmacSealer, Sha256Hash>(alloc, root, Moment::START, &ring, store)?;
    let rows = table.rows()?;
    let loaded = again.rows()?;
    Ok(rows.as_slice() == loaded.as_slice())
}

// How many blocks a tree of every kind has, and how many more with one file more, if both come back.
fn two_generations(alloc: Global) -> Result<(usize, usize), Fail> {
    let mut table = every_kind(alloc)?;
    let built = first(alloc, &table)?;
    let mut store = Store::<Sha256Hash>::new(alloc);
    store.put_all(built.blocks.as_slice())?;
    if !is_loaded(alloc, &table, built.root, &store)? {
        return Ok((0, 0));
    }
    mkfile(alloc, &mut table, 6, "/d/more")?;
    let mut pointers = built.pointers;
    pointers.forget(&table, id(6));
    let again = build::<HmacSealer, Sha256Hash>(alloc, &table, &pointers, &NEW_KEY, 8)?;
    store.put_all(again.blocks.as_slice())?;
    if !is_loaded(alloc, &table, again.root, &store)? {
        return Ok((built.blocks.as_slice().len(), 0));
    }
    Ok((built.blocks.as_slice().len(), again.blocks.as_slice().len()))
}

// The fault of loading a tree whose first block isn't stored, if it names that block.
fn lacks_first(alloc: Global) -> Result<bool, Fail> {
    let table = every_kind(alloc)?;
    let built = first(alloc, &table)?;
    let [taken, left @ ..] = built.blocks.as_slice() else {
        return Ok(false);
    };
    let mut store = Store::<Sha256Hash>::new(alloc);
    store.put_all(left)?;
    let ring = ring(alloc)?;
    let id = Sha256Hash::hash(taken);
    match load::<HmacSealer, Sha256Hash>(alloc, built.root, Moment::START, &ring, &store) {
        Ok(_) => Ok(false),
        Err(fault) => Ok(fault == LoadFault::Missing { id }),
    }
}

/// A hash that is the same for all bytes.
#[derive(Drop)]
struct SameHash;

impl BlockHash for SameHash {
    ghost hashed = { λ _. replicate 32 7 };

    fn hash(_bytes: &[u8]) -> Hash {
        [7; 32]
    }

    ghost sized = { λ _. refl };
}

fn entry(alloc: Global, id: NodeId, ptr: Ptr) -> Result<Entry, Fail>
    ensures { IfOk result IsProper }
{
    Ok(Entry {
        name: Name::new(alloc, b"d")?,
        id,
        kind: Kind::Dir,
        exec: false,
        mtime: Moment::START,
        size: 0,
        ptr,
    })
}

// Whether a directory that contains itself under this id is bad.
fn is_bad_inside_itself(alloc: Global, id: NodeId) -> Result<bool, Fail> {
    let ptr = Ptr {
        id: [7; 32],
        generation: 7,
    };
    let entries = [entry(alloc, id, ptr)?];
    let (root, blocks) = build_dir::<HmacSealer, SameHash>(alloc, &entries, &OLD_KEY, 7)?;
    let mut store = Store::<SameHash>::new(alloc);
    store.put_all(&blocks)?;
    let ring = ring(alloc)?;
    match load::<HmacSealer, SameHash>(alloc, root, Moment::START, &ring, &store) {
        Ok(_) => Ok(false),
        Err(fault) => Ok(fault == LoadFault::BadBlock { id: [7; 32] }),
    }
}

#[test]
fn a_tree_comes_back_from_its_blocks(rt: HostRuntime) -> Result<(), Fail> {
    assert_eq!(rt; two_generations(rt.alloc())?, (8, 3));
    Ok(())
}

#[test]
fn a_block_that_is_not_stored_is_missing(rt: HostRuntime) -> Result<(), Fail> {
    assert!(&rt; lacks_first(rt.alloc())?);
    Ok(())
}

// How many blocks are given back.
fn given_back(alloc: Global) -> Result<usize, Fail> {
    let table = Table::new(alloc)?;
    let built = first(alloc, &table)?;
    Ok(built.blocks.into_vec().len())
}

#[test]
fn a_tree_of_the_root_alone_is_one_block(rt: HostRuntime) -> Result<(), Fail> {
    assert_eq!(rt; given_back(rt.alloc())?, 1);
    Ok(())
}

#[test]
fn a_directory_inside_itself_is_bad(rt: HostRuntime) -> Result<(), Fail> {
    assert!(&rt; is_bad_inside_itself(rt.alloc(), id(1))?);
    assert!(&rt; is_bad_inside_itself(rt.alloc(), NodeId::ROOT)?);
    Ok(())
}
