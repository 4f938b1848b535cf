//! How many blocks a pick makes of a file that was written or cut.
use crate::tests::devices::{flush, founded, make, opened, picked};
use kb_edge::Memory;
use kb_ops::{Bytes, Request, Word};
use std::alloc::Global;
use std::test::Fail;

// The write of one byte into `/f` at the offset; the gap before it is zeros.
fn one_byte(alloc: Global, offset: u32) -> Result<Request, Memory> {
    Ok(Request::Write {
        path: Word::new(alloc, "/f")?,
        offset,
        bytes: Bytes::new(Vec::from_slice(alloc, b"x")?),
    })
}

fn cut(alloc: Global, length: u32) -> Result<Request, Memory> {
    Ok(Request::Cut {
        path: Word::new(alloc, "/f")?,
        length,
    })
}

fn new_file(alloc: Global) -> Result<Request, Memory> {
    Ok(Request::Mkfile {
        path: Word::new(alloc, "/f")?,
    })
}

// How many blocks a pick of this request has, where `/f` has landed with its last byte at this place.
fn blocks_of(alloc: Global, last: u32, request: &Request) -> Result<usize, Fail> {
    let mut folder = founded(alloc)?;
    let mut laptop = opened(alloc, &folder)?;
    make(alloc, &mut laptop, &new_file(alloc)?)?;
    make(alloc, &mut laptop, &one_byte(alloc, last)?)?;
    flush(alloc, &mut laptop, &mut folder)?;
    flush(alloc, &mut laptop, &mut folder)?;
    make(alloc, &mut laptop, request)?;
    let picked = picked(alloc, &mut laptop)?;
    Ok(picked.request.blocks.as_slice().len())
}

// A byte at the beginning of a file of 16,777,216 bytes: its leaf, two blocks above it, and the root. The bound is 7.
#[test]
fn a_byte_of_the_largest_file(rt: HostRuntime) -> Result<(), Fail> {
    let alloc = rt.alloc();
    let count = blocks_of(alloc, 16_777_215, &one_byte(alloc, 0)?)?;
    assert_eq!(rt; count, 4);
    Ok(())
}

// A byte behind a full leaf: a leaf of its own, a block above both, and the root.
#[test]
fn a_byte_behind_a_full_leaf(rt: HostRuntime) -> Result<(), Fail> {
    let alloc = rt.alloc();
    let count = blocks_of(alloc, 4095, &one_byte(alloc, 4096)?)?;
    assert_eq!(rt; count, 3);
    Ok(())
}

// A cut to the first leaf: the root alone.
#[test]
fn a_cut_to_a_leaf(rt: HostRuntime) -> Result<(), Fail> {
    let alloc = rt.alloc();
    let count = blocks_of(alloc, 8191, &cut(alloc, 4096)?)?;
    assert_eq!(rt; count, 1);
    Ok(())
}
