//! The bytes of a leaf after a write.
ghost use Rattle.std.specs.Prelude.{◌≡◌, ◌≤◌, ◌+◌, ◌-◌, ◌++◌, IfOk, OnOk, length, take, replicate, vec_len};
ghost use Rattle.kb_edge.specs.Disk.{overlay};
ghost use Rattle.kb_ops.specs.Trees.{patched};

use kb_edge::Memory;
use std::alloc::Global;

// The first of the bytes, so many at most.
fn first(bytes: &[u8], most: usize) -> &[u8]
    ensures { result.now ≡ take most bytes.now }
{
    &bytes[..most.min(bytes.len())]
}

// Zeros up to a length.
fn push_zeros(bytes: &mut Vec<u8>, size: usize) -> Result<(), Memory>
    requires { vec_len bytes.old ≤ size }
    ensures { OnOk result (bytes.new.items ≡ bytes.old.items ++ replicate (size - length bytes.old.items) 0) }
{
    bytes.resize(size, 0)?;
    Ok(())
}

// Writes bytes over those that are there.
fn put_at(leaf: &mut Vec<u8>, at: usize, bytes: &[u8])
    requires { at + length bytes.now ≤ length leaf.old.items }
    ensures { leaf.new.items ≡ overlay leaf.old.items at bytes.now }
{
    leaf[at..at + bytes.len()].copy_from_slice(bytes);
}

/// The bytes of a leaf after a write and a new size, in one buffer.
pub(crate) fn patched(
    alloc: Global,
    old: &[u8],
    offset: usize,
    bytes: &[u8],
    size: usize,
) -> Result<Vec<u8>, Memory>
    requires { offset + length bytes.now ≤ size }
    ensures { IfOk result (λ new. new.items ≡ patched old.now offset bytes.now size) }
{
    let mut new = Vec::with_capacity(alloc, size)?;
    new.extend_from_slice(first(old, size))?;
    push_zeros(&mut new, size)?;
    put_at(&mut new, offset, bytes);
    Ok(new)
}
