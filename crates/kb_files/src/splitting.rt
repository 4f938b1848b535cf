//! Making a file's blocks.
ghost use Rattle.std.specs.Prelude.{◌≡◌, ◌≤◌, ◌<◌, ◌+◌, max, ℕ, List, IfOk, OnOk, Err, length};
ghost use Rattle.kb_files.specs.Counts.{touched, blocks_of};
ghost use Rattle.kb_files.specs.Files.{HoldsAt, HoldsFile, IsFit, span};
ghost use Rattle.kb_files.specs.Splits.{OnceStored, Keeps};

use crate::index::index_text;
use crate::leaves::leaf_text;
use crate::levels::{level_of, span};
use kb_blocks::{BlockHash, Ptr};
use kb_edge::Memory;
use kb_seal::{Key, Sealer};
use std::alloc::Global;

/// Seals a text as a block behind those made so far.
pub fn add_block<S: Sealer, H: BlockHash>(
    alloc: Global,
    text: &[u8],
    key: &Key,
    generation: u32,
    made: &mut Vec<Vec<u8>>,
) -> Result<Ptr, Memory>
    ensures opens { IfOk result (λ ptr. OnceStored H.hashed S.sealed generation key.now made.new.items (λ vault. vault ptr text.now)) }
    ensures fit { IfOk result IsFit }
    ensures kept { OnOk result (Keeps H.hashed made.old.items made.new.items) }
    ensures one { OnOk result (length made.new.items ≡ length made.old.items + 1) }
{
    let sealed = S::seal(alloc, key, text)?;
    let id = H::hash(&sealed);
    made.push(sealed)?;
    Ok(Ptr { id, generation })
}

/// The pointer to the bytes by blocks of the level and below.
pub(crate) fn split_at<S: Sealer, H: BlockHash>(
    alloc: Global,
    level: u8,
    bytes: &[u8],
    key: &Key,
    generation: u32,
    made: &mut Vec<Vec<u8>>,
) -> Result<Ptr, Memory>
    requires level { level ≤ 2 }
    requires size { length bytes.now ≤ span level }
    requires some { 0 < level → 0 < length bytes.now }
    ensures holds { IfOk result (λ ptr. OnceStored H.hashed S.sealed generation key.now made.new.items (λ vault. HoldsAt vault level ptr bytes.now)) }
    ensures fit { IfOk result IsFit }
    ensures kept { OnOk result (Keeps H.hashed made.old.items made.new.items) }
    ensures count { OnOk result (length made.new.items ≡ length made.old.items + max 1 (touched level 0 (length bytes.now))) }
{
    if level == 0 {
        let text = leaf_text(alloc, bytes)?;
        return add_block::<S, H>(alloc, &text, key, generation, made);
    }
    let below = level - 1;
    let size = span(below);
    let mut ptrs = Vec::new(alloc);
    let mut rest = bytes;
    'parts: while !rest.is_empty() {
        let (part, behind) = rest.split_at(size.min(rest.len()));
        let ptr = split_at::<S, H>(alloc, below, part, key, generation, made)?;
        ptrs.push(ptr)?;
        rest = behind;
    }
    let text = index_text(alloc, level, &ptrs)?;
    Ok(add_block::<S, H>(alloc, &text, key, generation, made)?)
}

/// Why a file wasn't split.
#[derive(Clone, Copy, Debug, PartialEq, Eq)]
pub enum FileFault {
    TooBig,
    Memory,
}

/// The pointer to the file, and its blocks.
pub fn split<S: Sealer, H: BlockHash>(
    alloc: Global,
    bytes: &[u8],
    key: &Key,
    generation: u32,
) -> Result<(Ptr, Vec<Vec<u8>>), FileFault>
    ensures holds { IfOk result (λ made. OnceStored H.hashed S.sealed generation key.now made.1.items (λ vault. HoldsFile vault made.0 bytes.now)) }
    ensures fit { IfOk result (λ made. IsFit made.0) }
    ensures count { IfOk result (λ made. length made.1.items ≡ blocks_of (length bytes.now)) }
    ensures big { result ≡ Err FileFault.TooBig → 16777216 < length bytes.now }
    ensures refused { 16777216 < length bytes.now → result ≡ Err FileFault.TooBig }
{
    if bytes.len() > 16_777_216 {
        return Err(FileFault::TooBig);
    }
    let mut made = Vec::new(alloc);
    match split_at::<S, H>(
        alloc,
        level_of(bytes.len()),
        bytes,
        key,
        generation,
        &mut made,
    ) {
        Ok(ptr) => Ok((ptr, made)),
        Err(Memory) => Err(FileFault::Memory),
    }
}
