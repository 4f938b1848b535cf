//! Blocks of pointers.
ghost use Rattle.std.specs.Prelude.{◌≡◌, ◌≤◌, ◌<◌, ◌*◌, ◌++◌, ◌∷◌, [], List, ℕ, IfOk, IsErrOf, length, map};
ghost use Rattle.kb_files.specs.Files.{index_text, pointer, pointers, AreFit, ptrs_of, ptr_at};
ghost use Rattle.kb_blocks.specs.declared.pointer.Ptr.{Ptr};

use kb_blocks::Ptr;
use kb_edge::Memory;
use std::alloc::Global;

/// Why a text is no block of pointers.
#[derive(Clone, Copy, Debug, PartialEq, Eq)]
pub enum IndexFault {
    BadIndex,
    Memory,
}

// How many pointers a block has at most.
const MOST: usize = 64;

fn push_pointer(out: &mut Vec<u8>, ptr: Ptr) -> Result<(), Memory>
    ensures { IfOk result (λ _. out.new.items ≡ out.old.items ++ pointer ptr) }
{
    out.extend_from_slice(&ptr.id)?;
    out.extend_from_slice(&ptr.generation.to_be_bytes())?;
    Ok(())
}

fn push_pointers(out: &mut Vec<u8>, ptrs: &[Ptr]) -> Result<(), Memory>
    ensures { IfOk result (λ _. out.new.items ≡ out.old.items ++ pointers ptrs.now) }
{
    for ptr in ptrs {
        push_pointer(out, *ptr)?;
    }
    Ok(())
}

/// The text of a block of pointers.
pub fn index_text(alloc: Global, level: u8, ptrs: &[Ptr]) -> Result<Vec<u8>, Memory>
    requires { length ptrs.now ≤ 64 }
    ensures { IfOk result (λ text. text.items ≡ index_text level ptrs.now) }
{
    let mut text = Vec::with_capacity(alloc, 3 + 36 * ptrs.len())?;
    text.push(0x49)?;
    text.push(level)?;
    text.push(ptrs.len() as u8)?;
    push_pointers(&mut text, ptrs)?;
    Ok(text)
}

fn ptr_at(bytes: &[u8]) -> Ptr
    requires { length bytes.now ≡ 36 }
    ensures { result ≡ ptr_at bytes.now }
{
    let (front, back) = bytes.split_at(32);
    let mut id = [0u8; 32];
    id.copy_from_slice(front);
    let generation = u32::from_be_bytes([back[0], back[1], back[2], back[3]]);
    Ptr { id, generation }
}

fn ptrs_of(alloc: Global, count: usize, bytes: &[u8]) -> Result<Vec<Ptr>, Memory>
    requires { length bytes.now ≡ 36 * count }
    ensures { IfOk result (λ ptrs. ptrs.items ≡ ptrs_of count bytes.now) }
{
    let mut ptrs = Vec::new(alloc);
    let mut rest = bytes;
    'ptrs: for _i in 0..count {
        let (front, back) = rest.split_at(36);
        ptrs.push(ptr_at(front))?;
        rest = back;
    }
    Ok(ptrs)
}

/// The pointers of a block of the level.
pub fn read_index(alloc: Global, level: u8, text: &[u8]) -> Result<Vec<Ptr>, IndexFault>
    ensures ok { IfOk result (λ ptrs. AreFit ptrs.items × (text.now ≡ index_text level ptrs.items)) }
    ensures bad { IsErrOf result IndexFault.BadIndex → (ptrs : List Ptr) → AreFit ptrs → text.now ≡ index_text level ptrs → ⊥ }
{
    if text.len() < 3 || text[0] != 0x49 || text[1] != level {
        return Err(IndexFault::BadIndex);
    }
    let count = text[2] as usize;
    let body = &text[3..];
    if count == 0 || count > MOST || body.len() != 36 * count {
        return Err(IndexFault::BadIndex);
    }
    match ptrs_of(alloc, count, body) {
        Ok(ptrs) => Ok(ptrs),
        Err(Memory) => Err(IndexFault::Memory),
    }
}
