//! The bytes of a file after a write, in one buffer.
ghost use Rattle.std.specs.Prelude.{◌≡◌, ◌+◌, ◌-◌, ◌≤◌, ◌++◌, length, max, take, drop, replicate, vec_len};
ghost use Rattle.std.specs.Vec.{vec_capacity};
ghost use Rattle.kb_ops.specs.Trees.{patched};

/// The bytes after a write: in their own buffer where it has room for them, and else in the spare one.
pub fn patched(old: Vec<u8>, offset: u32, bytes: &[u8], size: u32, spare: Vec<u8>) -> Vec<u8>
    requires within { offset + length bytes.now ≤ size }
    requires room { size ≤ max (length old.items) (vec_capacity spare) }
    ensures { result.items ≡ patched old.items offset bytes.now size }
{
    let mut new = with_room(old, size as usize, spare);
    resize(&mut new, size as usize);
    overwrite(&mut new, offset as usize, bytes);
    new
}

/// The bytes, in a buffer with room for so many.
fn with_room(old: Vec<u8>, size: usize, spare: Vec<u8>) -> Vec<u8>
    requires { size ≤ max (length old.items) (vec_capacity spare) }
    ensures items { result.items ≡ old.items }
    ensures room { size ≤ vec_capacity result }
{
    if size <= old.capacity() {
        return old;
    }
    let mut new = spare;
    new.clear();
    let Ok(()) = new.extend_from_slice(&old) else {
        unreachable!()
    };
    new
}

/// Cuts the bytes, or fills them up with zeros.
fn resize(bytes: &mut Vec<u8>, size: usize)
    requires { size ≤ vec_capacity bytes.old }
    ensures { bytes.new.items ≡ take size bytes.old.items ++ replicate (size - length bytes.old.items) 0 }
{
    let Ok(()) = bytes.resize(size, 0) else {
        unreachable!()
    };
}

/// Puts bytes over those from a place on.
fn overwrite(items: &mut [u8], at: usize, bytes: &[u8])
    requires { at + length bytes.now ≤ length items.old }
    ensures { items.new ≡ take at items.old ++ (bytes.now ++ drop (at + length bytes.now) items.old) }
{
    items[at..at + bytes.len()].copy_from_slice(bytes);
}
