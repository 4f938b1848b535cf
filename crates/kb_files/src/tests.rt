//! Files of some sizes.
use crate::{FileFault, LoadFault, join, split};
use kb_blocks::{Ptr, Sha256Hash, Store};
use kb_edge::Memory;
use kb_keys::KeyRing;
use kb_seal::HmacSealer;
use std::alloc::Global;

const KEY: [u8; 32] = [5; 32];

fn ring(alloc: Global) -> Result<KeyRing, Memory> {
    let mut ring = KeyRing::new(alloc);
    ring.add(7, KEY)?;
    Ok(ring)
}

fn some_bytes(alloc: Global, size: u32) -> Result<Vec<u8>, Memory> {
    let mut bytes = Vec::new(alloc);
    for i in 0..size {
        bytes.push((i % 251) as u8)?;
    }
    Ok(bytes)
}

// Whether a file of the size comes back from its blocks.
fn goes_round(alloc: Global, size: u32) -> Result<bool, Memory> {
    let bytes = some_bytes(alloc, size)?;
    let ring = ring(alloc)?;
    let (ptr, made) = match split::<HmacSealer, Sha256Hash>(alloc, &bytes, &KEY, 7) {
        Ok(made) => made,
        Err(_) => return Ok(false),
    };
    let mut store = Store::<Sha256Hash>::new(alloc);
    if store.put_all(&made) != Ok(()) {
        return Ok(false);
    }
    match join::<HmacSealer, Sha256Hash>(alloc, ptr, size, &ring, &store) {
        Ok(again) => Ok(again.as_slice() == bytes.as_slice()),
        Err(_) => Ok(false),
    }
}

#[test]
fn a_file_is_its_blocks(rt: HostRuntime) {
    assert!(&rt; goes_round(rt.alloc(), 0) == Ok(true));
    assert!(&rt; goes_round(rt.alloc(), 4097) == Ok(true));
    assert!(&rt; goes_round(rt.alloc(), 262_145) == Ok(true));
}

#[test]
fn a_file_over_sixteen_mebibytes_is_too_big(rt: HostRuntime) -> Result<(), Memory> {
    let bytes = some_bytes(rt.alloc(), 16_777_217)?;
    assert!(&rt;
        split::<HmacSealer, Sha256Hash>(rt.alloc(), &bytes, &KEY, 7) == Err(FileFault::TooBig)
    );
    Ok(())
}

#[test]
fn a_block_is_missing_or_bad(rt: HostRuntime) -> Result<(), Memory> {
    let ring = ring(rt.alloc())?;
    let mut store = Store::<Sha256Hash>::new(rt.alloc());
    let ptr = Ptr {
        id: [1; 32],
        generation: 7,
    };
    assert!(&rt;
        join::<HmacSealer, Sha256Hash>(rt.alloc(), ptr, 1, &ring, &store)
            == Err(LoadFault::Missing { id: [1; 32] })
    );
    let put = store.put(b"abc");
    match put {
        Ok(id) => {
            let ptr = Ptr { id, generation: 7 };
            assert!(&rt;
                join::<HmacSealer, Sha256Hash>(rt.alloc(), ptr, 1, &ring, &store)
                    == Err(LoadFault::BadBlock { id })
            );
        }
        Err(_) => assert!(&rt; false),
    }
    Ok(())
}
