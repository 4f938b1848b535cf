//! Ranges of files of some sizes, and changes of them.
ghost use Rattle.std.specs.Prelude.{◌≡◌, ◌+◌, ◌<◌, ◌≤◌, IfOk, IsSome};
ghost use Rattle.kb_keys.specs.Rings.{key_at};

use crate::{patch, read_range};
use kb_blocks::{Ptr, Sha256Hash, Steps, Store};
use kb_edge::Memory;
use kb_files::{LoadFault, join, split};
use kb_keys::KeyRing;
use kb_seal::HmacSealer;
use std::alloc::Global;
use std::marker::Brand;
use std::sync::ledger::{Blank, Ledger};

const KEY: [u8; 32] = [5; 32];

fn ring(alloc: Global) -> Result<KeyRing, Memory>
    ensures { IfOk result (λ ring. IsSome (key_at ring 7)) }
{
    let mut ring = KeyRing::new(alloc);
    ring.add(7, KEY)?;
    Ok(ring)
}

fn old_byte(place: u32) -> u8 {
    (place % 251) as u8
}

fn old_bytes(alloc: Global, size: u32) -> Result<Vec<u8>, Memory> {
    let mut bytes = Vec::new(alloc);
    for i in 0..size {
        bytes.push(old_byte(i))?;
    }
    Ok(bytes)
}

fn new_byte(place: u32, size: u32, start: u32, end: u32) -> u8 {
    if start <= place && place < end {
        return 251;
    }
    if place < size {
        return old_byte(place);
    }
    0
}

// The bytes after a write from one place up to another.
fn new_bytes(
    alloc: Global,
    size: u32,
    start: u32,
    end: u32,
    new_size: u32,
) -> Result<Vec<u8>, Memory> {
    let mut bytes = Vec::new(alloc);
    for i in 0..new_size {
        bytes.push(new_byte(i, size, start, end))?;
    }
    Ok(bytes)
}

// The file of old bytes in a store.
fn stored(alloc: Global, size: u32) -> Result<(Ptr, Store<Sha256Hash>), Memory> {
    let bytes = old_bytes(alloc, size)?;
    let mut store = Store::<Sha256Hash>::new(alloc);
    let (ptr, made) = match split::<HmacSealer, Sha256Hash>(alloc, &bytes, &KEY, 7) {
        Ok(made) => made,
        Err(_) => return Err(Memory),
    };
    match store.put_all(&made) {
        Ok(()) => Ok((ptr, store)),
        Err(_) => Err(Memory),
    }
}

// Whether a change makes so many blocks, and the new file has its bytes.
fn patches(
    alloc: Global,
    size: u32,
    offset: u32,
    count: u32,
    new_size: u32,
    blocks: usize,
) -> Result<bool, Memory>
    requires within { offset + count ≤ new_size }
    requires small { new_size ≤ 16777216 }
{
    let (ptr, mut store) = stored(alloc, size)?;
    let ring = ring(alloc)?;
    let mut bytes = Vec::new(alloc);
    bytes.resize(count as usize, 251)?;
    let (ptr, made) = match patch::<HmacSealer, Sha256Hash>(
        alloc, ptr, size, offset, &bytes, new_size, &ring, 7, &store,
    ) {
        Ok(made) => made,
        Err(_) => return Ok(false),
    };
    if store.put_all(&made) != Ok(()) || made.len() != blocks {
        return Ok(false);
    }
    let expected = new_bytes(alloc, size, offset, offset + count, new_size)?;
    match join::<HmacSealer, Sha256Hash>(alloc, ptr, new_size, &ring, &store) {
        Ok(again) => Ok(again.as_slice() == expected.as_slice()),
        Err(_) => Ok(false),
    }
}

// The range of a file in a store.
fn range_of<L: Ledger>(
    alloc: Global,
    blank: Blank,
    ptr: Ptr,
    size: u32,
    offset: u32,
    length: u32,
    store: &Store<Sha256Hash>,
) -> Result<Vec<u8>, LoadFault>
    requires ledger { (blank.name ≡ L.name) × (blank.parts ≡ L.parts) }
    requires some { 0 < blank.parts }
{
    let ring = match ring(alloc) {
        Ok(ring) => ring,
        Err(Memory) => return Err(LoadFault::Memory),
    };
    let mut steps: Steps<L> = Steps::new(blank);
    read_range::<HmacSealer, Sha256Hash, L>(
        alloc, ptr, size, offset, length, &ring, store, &mut steps,
    )
}

// Whether a range of a file of old bytes has those from one place up to another.
fn reads<L: Ledger>(
    alloc: Global,
    blank: Blank,
    size: u32,
    offset: u32,
    length: u32,
    from: usize,
    to: usize,
) -> Result<bool, Memory>
    requires ledger { (blank.name ≡ L.name) × (blank.parts ≡ L.parts) }
    requires some { 0 < blank.parts }
{
    let (ptr, store) = stored(alloc, size)?;
    let bytes = old_bytes(alloc, size)?;
    match range_of::<L>(alloc, blank, ptr, size, offset, length, &store) {
        Ok(part) => Ok(bytes.get(from..to) == Some(part.as_slice())),
        Err(_) => Ok(false),
    }
}

fn nowhere() -> Ptr {
    Ptr {
        id: [1; 32],
        generation: 7,
    }
}

// The refusal of a range of a file that isn't stored.
fn refused<L: Ledger>(alloc: Global, blank: Blank, size: u32) -> Option<LoadFault>
    requires ledger { (blank.name ≡ L.name) × (blank.parts ≡ L.parts) }
    requires some { 0 < blank.parts }
{
    let store = Store::<Sha256Hash>::new(alloc);
    match range_of::<L>(alloc, blank, nowhere(), size, 0, 1, &store) {
        Ok(_) => None,
        Err(fault) => Some(fault),
    }
}

#[test]
fn a_range_is_read(rt: HostRuntime) {
    assert!(&rt; reads::<Brand>(rt.alloc(), Blank::new(1), 8192, 4094, 5, 4094, 4099) == Ok(true));
    assert!(&rt;
        reads::<Brand>(
            rt.alloc(),
            Blank::new(1),
            300_000,
            262_140,
            9,
            262_140,
            262_149
        ) == Ok(true)
    );
    assert!(&rt;
        reads::<Brand>(rt.alloc(), Blank::new(1), 8192, 8191, u32::MAX, 8191, 8192) == Ok(true)
    );
    assert!(&rt; reads::<Brand>(rt.alloc(), Blank::new(1), 8192, 9000, 5, 0, 0) == Ok(true));
}

#[test]
fn a_range_that_is_not_stored_is_missing(rt: HostRuntime) {
    assert!(&rt;
        refused::<Brand>(rt.alloc(), Blank::new(1), 8192)
            == Some(LoadFault::Missing { id: [1; 32] })
    );
    assert!(&rt;
        refused::<Brand>(rt.alloc(), Blank::new(1), 16_777_217)
            == Some(LoadFault::Missing { id: [1; 32] })
    );
}

#[test]
fn a_change_makes_the_blocks_that_it_touches(rt: HostRuntime) {
    assert!(&rt; patches(rt.alloc(), 8192, 4094, 5, 8192, 3) == Ok(true));
    assert!(&rt; patches(rt.alloc(), 4096, 4096, 1, 4097, 2) == Ok(true));
    assert!(&rt; patches(rt.alloc(), 8192, 0, 0, 4096, 0) == Ok(true));
    assert!(&rt; patches(rt.alloc(), 8192, 0, 0, 0, 1) == Ok(true));
    assert!(&rt; patches(rt.alloc(), 0, 0, 0, 4097, 3) == Ok(true));
}

#[test]
fn a_file_grows_and_shrinks_over_levels(rt: HostRuntime) {
    assert!(&rt; patches(rt.alloc(), 4096, 262_144, 1, 262_145, 67) == Ok(true));
    assert!(&rt; patches(rt.alloc(), 262_145, 0, 0, 262_144, 0) == Ok(true));
    assert!(&rt; patches(rt.alloc(), 262_145, 0, 0, 4095, 1) == Ok(true));
}

#[test]
fn a_byte_of_a_big_file_takes_three_blocks(rt: HostRuntime) {
    assert!(&rt; patches(rt.alloc(), 1_000_000, 0, 1, 1_000_000, 3) == Ok(true));
}

#[test]
fn a_file_that_is_cut_keeps_its_first_leaf(rt: HostRuntime) -> Result<(), Memory> {
    let ring = ring(rt.alloc())?;
    let (leaf, _) = stored(rt.alloc(), 4096)?;
    let (ptr, store) = stored(rt.alloc(), 8192)?;
    match patch::<HmacSealer, Sha256Hash>(rt.alloc(), ptr, 8192, 0, b"", 4096, &ring, 7, &store) {
        Ok((cut, _)) => assert!(&rt; cut == leaf),
        Err(_) => assert!(&rt; false),
    }
    Ok(())
}

#[test]
fn a_change_of_a_file_that_is_not_stored_is_missing(rt: HostRuntime) -> Result<(), Memory> {
    let ring = ring(rt.alloc())?;
    let store = Store::<Sha256Hash>::new(rt.alloc());
    match patch::<HmacSealer, Sha256Hash>(rt.alloc(), nowhere(), 5, 0, b"", 4, &ring, 7, &store) {
        Ok(_) => assert!(&rt; false),
        Err(fault) => assert!(&rt; fault == LoadFault::Missing { id: [1; 32] }),
    }
    Ok(())
}
