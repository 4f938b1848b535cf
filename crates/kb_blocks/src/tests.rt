//! Blocks put, found and refused.
ghost use Rattle.std.specs.Prelude.{◌≡◌, ◌<◌};

use crate::{BlockHash, Hash, Missing, PutFault, Sha256Hash, Steps, Store};
use std::alloc::{AllocError, Global};
use std::marker::Brand;
use std::sync::ledger::{Blank, Ledger};

// The first byte, and zeros.
#[derive(Drop)]
struct FirstByte;

impl BlockHash for FirstByte {
    ghost use Rattle.kb_blocks.specs.FirstByte.{first_byte, length-first_byte};

    ghost hashed = { first_byte };

    fn hash(bytes: &[u8]) -> Hash {
        let mut id = [0u8; 32];
        id[0] = match bytes.first() {
            Some(first) => *first,
            None => 0,
        };
        id
    }

    ghost sized = { length-first_byte };
}

fn two(alloc: Global, first: &[u8], second: &[u8]) -> Result<Vec<Vec<u8>>, AllocError> {
    let mut both = Vec::with_capacity(alloc, 2)?;
    both.push_reserved(Vec::from_slice(alloc, first)?);
    both.push_reserved(Vec::from_slice(alloc, second)?);
    Ok(both)
}

// Whether the store has the block under the id, and none under zeros.
fn has<H: BlockHash, L: Ledger>(blank: Blank, store: &Store<H>, id: &Hash, bytes: &[u8]) -> bool
    requires ledger { (blank.name ≡ L.name) × (blank.parts ≡ L.parts) }
    requires some { 0 < blank.parts }
{
    let mut steps: Steps<L> = Steps::new(blank);
    let found = match store.get(id, &mut steps) {
        Ok(held) => held == bytes,
        Err(_) => false,
    };
    found && store.get(&[0; 32], &mut steps) == Err(Missing)
}

#[test]
fn a_block_stands_under_its_hash(rt: HostRuntime) -> Result<(), AllocError> {
    let mut store: Store<Sha256Hash> = Store::new(rt.alloc());
    let id = [
        0xba, 0x78, 0x16, 0xbf, 0x8f, 0x01, 0xcf, 0xea, 0x41, 0x41, 0x40, 0xde, 0x5d, 0xae, 0x22,
        0x23, 0xb0, 0x03, 0x61, 0xa3, 0x96, 0x17, 0x7a, 0x9c, 0xb4, 0x10, 0xff, 0x61, 0xf2, 0x00,
        0x15, 0xad,
    ];
    assert!(&rt; store.put(b"abc") == Ok(id));
    assert!(&rt; store.put(b"abc") == Ok(id));
    assert!(&rt; store.len() == 1);
    assert!(&rt; has::<Sha256Hash, Brand>(Blank::new(1), &store, &id, b"abc"));
    let both = two(rt.alloc(), b"abc", b"abd")?;
    assert!(&rt; store.put_all(&both) == Ok(()));
    assert!(&rt; store.len() == 2);
    Ok(())
}

#[test]
fn other_bytes_of_one_hash_collide(rt: HostRuntime) -> Result<(), AllocError> {
    let mut store: Store<FirstByte> = Store::new(rt.alloc());
    let mut id = [0u8; 32];
    id[0] = b'a';
    assert!(&rt; store.put(b"ax") == Ok(id));
    assert!(&rt; store.put(b"ay") == Err(PutFault::Collision { id }));
    let with_old = two(rt.alloc(), b"bx", b"ay")?;
    assert!(&rt; store.put_all(&with_old) == Err(PutFault::Collision { id }));
    let in_one_list = two(rt.alloc(), b"bx", b"by")?;
    id[0] = b'b';
    assert!(&rt; store.put_all(&in_one_list) == Err(PutFault::Collision { id }));
    assert!(&rt; store.len() == 1 && store.find(&id).is_none());
    Ok(())
}
