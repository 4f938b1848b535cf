//! How many blocks a step takes that wrote a file, where the device has the blocks of the tree before it.
ghost use Rattle.std.specs.Prelude.{◌≡◌, ◌≤◌, ◌+◌, [], length, IfOk, IsSome};
ghost use Rattle.kb_ops.specs.Grammar.{IsProper};
ghost use Rattle.kb_keys.specs.Rings.{key_at};

use crate::tests::apply::{call, mkfile};
use kb_blocks::{Ptr, Sha256Hash, Store};
use kb_device::{OldFile, build_step, forget_touched};
use kb_edge::Memory;
use kb_keys::KeyRing;
use kb_name::{Moment, NodeId};
use kb_ops::{Bytes, Change, Op, Request, Word};
use kb_seal::HmacSealer;
use kb_snap::{Built, Pointers, build, load};
use kb_tree::Table;
use std::alloc::Global;
use std::test::Fail;

const KEY: [u8; 32] = [5; 32];

const FILE: NodeId = NodeId {
    device: 1,
    seq: 1,
    part: 0,
};

fn ring(alloc: Global) -> Result<KeyRing, Memory>
    ensures { IfOk result (λ ring. IsSome (key_at ring 7)) }
{
    let mut ring = KeyRing::new(alloc);
    ring.add(7, KEY)?;
    Ok(ring)
}

// Writes these bytes into `/f` at the offset; the gap before them is zeros.
fn put(alloc: Global, table: &mut Table, seq: u32, offset: u32, text: &[u8]) -> Result<(), Fail> {
    let request = Request::Write {
        path: Word::new(alloc, "/f")?,
        offset,
        bytes: Bytes::new(Vec::from_slice(alloc, text)?),
    };
    call(alloc, table, seq, &request);
    Ok(())
}

// The root with `/f`, which has zeros up to the offset and ends in these bytes.
fn tree_of(alloc: Global, offset: u32, text: &[u8]) -> Result<Table, Fail> {
    let mut table = Table::new(alloc)?;
    mkfile(alloc, &mut table, 1, "/f")?;
    put(alloc, &mut table, 2, offset, text)?;
    Ok(table)
}

fn first(alloc: Global, table: &Table) -> Result<Built, Fail> {
    let none = Pointers::new(alloc);
    Ok(build::<HmacSealer, Sha256Hash>(alloc, table, &none, &KEY, 7)?)
}

fn write(alloc: Global, offset: u32, text: &[u8], size: u32) -> Result<Op, Fail>
    requires few { length text.now ≤ 65536 }
    requires within { offset + length text.now ≤ size }
    requires small { size ≤ 16777216 }
    requires plain { text.now ≡ [] → offset ≡ 0 }
    ensures { IfOk result (λ op. IsProper op) }
{
    Ok(Op {
        device: 1,
        seq: 2,
        moment: Moment::START,
        change: Change::Sync {
            node: FILE,
            offset,
            bytes: Bytes::new(Vec::from_slice(alloc, text)?),
            length: size,
        },
    })
}

// How many blocks the step takes that leads from the one tree to the other, and the file's pointer then, if the other tree
// comes back.
fn step(
    alloc: Global,
    before: &Table,
    size: u32,
    op: &Op,
    after: &Table,
) -> Result<(usize, Option<Ptr>), Fail>
    requires { IsProper op.now }
{
    let built = first(alloc, before)?;
    let mut store = Store::<Sha256Hash>::new(alloc);
    store.put_all(built.blocks.as_slice())?;
    let mut pointers = built.pointers;
    let Some(ptr) = pointers.get(FILE) else {
        return Ok((0, None));
    };
    forget_touched(&mut pointers, before, &op.change);
    let ring = ring(alloc)?;
    let cache = Some(store);
    let made = build_step::<HmacSealer, Sha256Hash>(
        alloc,
        after,
        &mut pointers,
        op,
        Some(OldFile { ptr, size }),
        &cache,
        &ring,
        7,
    )?;
    let Some(mut store) = cache else {
        return Ok((0, None));
    };
    store.put_all(made.blocks.as_slice())?;
    let (again, _) = load::<HmacSealer, Sha256Hash>(
        alloc,
        made.root,
        Moment::START,
        &ring,
        &store,
    )?;
    let rows = after.rows()?;
    let loaded = again.rows()?;
    if rows.as_slice() != loaded.as_slice() {
        return Ok((0, None));
    }
    Ok((made.blocks.as_slice().len(), made.pointers.get(FILE)))
}

// A byte at the beginning of a file of three levels: its leaf, what is above it, and the root.
#[test]
fn one_byte_takes_its_walk(rt: HostRuntime) -> Result<(), Fail> {
    let alloc = rt.alloc();
    let before = tree_of(alloc, 999_999, &[7])?;
    let mut after = tree_of(alloc, 999_999, &[7])?;
    put(alloc, &mut after, 3, 0, &[8])?;
    let op = write(alloc, 0, &[8], 1_000_000)?;
    let (count, _) = step(alloc, &before, 1_000_000, &op, &after)?;
    assert!(rt; count == 4);
    Ok(())
}

// A byte behind a full leaf: a leaf of its own, a block above both, and the root.
#[test]
fn one_byte_more_keeps_the_leaf(rt: HostRuntime) -> Result<(), Fail> {
    let alloc = rt.alloc();
    let before = tree_of(alloc, 4095, &[7])?;
    let mut after = tree_of(alloc, 4095, &[7])?;
    put(alloc, &mut after, 3, 4096, &[8])?;
    let op = write(alloc, 4096, &[8], 4097)?;
    let (count, _) = step(alloc, &before, 4096, &op, &after)?;
    assert!(rt; count == 3);
    Ok(())
}

// A cut to the first leaf makes only the root, and the file's pointer is that leaf's.
#[test]
fn a_cut_keeps_the_leaf(rt: HostRuntime) -> Result<(), Fail> {
    let alloc = rt.alloc();
    let before = tree_of(alloc, 8191, &[7])?;
    let after = tree_of(alloc, 4095, &[0])?;
    let op = write(alloc, 0, &[], 4096)?;
    let alone = first(alloc, &after)?;
    let (count, ptr) = step(alloc, &before, 8192, &op, &after)?;
    assert!(rt; count == 1);
    assert!(rt; ptr == alone.pointers.get(FILE));
    Ok(())
}
