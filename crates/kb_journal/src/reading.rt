//! Reading the payloads of a journal.
ghost use Rattle.std.specs.Prelude.{◌≡◌, ◌≢◌, ◌+◌, ◌≤◌, ◌<◌, ◌^◌, ℕ, List, [], ◌∷◌, ◌++◌, length, slice_range, MatchOption};
ghost use Rattle.kb_wire.specs.Fields.{u32_text};
ghost use Rattle.kb_ops.specs.Grammar.{flag_text};
ghost use Rattle.kb_journal.specs.Entries.{ReadsEntry};

use crate::entries::{Entry, EntryFault, Hash};
use kb_ops::{Op as Operation, OpFault};
use std::alloc::Global;

fn number_at(bytes: &[u8], at: usize) -> u32
    requires { at + 4 ≤ length bytes.now }
    ensures value { u32_text result ≡ slice_range bytes.now at (at + 4) }
    ensures fits { result < 2 ^ 32 }
{
    u32::from_be_bytes([bytes[at], bytes[at + 1], bytes[at + 2], bytes[at + 3]])
}

fn hash_at(bytes: &[u8], at: usize) -> Hash
    requires { at + 32 ≤ length bytes.now }
    ensures { result ≡ slice_range bytes.now at (at + 32) }
{
    let mut hash = [0u8; 32];
    hash.copy_from_slice(&bytes[at..at + 32]);
    hash
}

fn flag_of(byte: u8) -> Option<bool>
    ensures { MatchOption result ((flag : _) → byte ∷ [] ≢ flag_text flag) (λ flag. byte ∷ [] ≡ flag_text flag) }
{
    match byte {
        0 => Some(false),
        1 => Some(true),
        _ => None,
    }
}

fn read_landed(bytes: &[u8]) -> Result<Entry, EntryFault>
    ensures { ReadsEntry (2 ∷ bytes.now) result }
{
    if bytes.len() != 36 {
        return Err(EntryFault::BadEntry);
    }
    let number = number_at(bytes, 0);
    let hash = hash_at(bytes, 4);
    Ok(Entry::Landed { number, hash })
}

fn read_merged(bytes: &[u8]) -> Result<Entry, EntryFault>
    ensures { ReadsEntry (4 ∷ bytes.now) result }
{
    if bytes.len() != 40 {
        return Err(EntryFault::BadEntry);
    }
    let number = number_at(bytes, 0);
    let hash = hash_at(bytes, 4);
    let count = number_at(bytes, 36);
    Ok(Entry::Merged {
        number,
        hash,
        count,
    })
}

fn read_head(bytes: &[u8]) -> Result<Entry, EntryFault>
    ensures { ReadsEntry (5 ∷ bytes.now) result }
{
    if bytes.len() != 41 {
        return Err(EntryFault::BadEntry);
    }
    let number = number_at(bytes, 0);
    let hash = hash_at(bytes, 4);
    let seq = number_at(bytes, 36);
    match flag_of(bytes[40]) {
        Some(mark) => Ok(Entry::Head {
            number,
            hash,
            seq,
            mark,
        }),
        None => Err(EntryFault::BadEntry),
    }
}

fn read_op(alloc: Global, bytes: &[u8]) -> Result<Entry, EntryFault>
    ensures { ReadsEntry (1 ∷ bytes.now) result }
{
    match Operation::decode(alloc, bytes) {
        Ok(op) => Ok(Entry::Op(op)),
        Err(OpFault::BadOp) => Err(EntryFault::BadEntry),
        Err(OpFault::Memory) => Err(EntryFault::Memory),
    }
}

/// What the payload says.
pub fn read_entry(alloc: Global, payload: &[u8]) -> Result<Entry, EntryFault>
    ensures { ReadsEntry payload.now result }
{
    match payload {
        [1, rest @ ..] => read_op(alloc, rest),
        [2, rest @ ..] => read_landed(rest),
        [3] => Ok(Entry::Branched),
        [4, rest @ ..] => read_merged(rest),
        [5, rest @ ..] => read_head(rest),
        _ => Err(EntryFault::BadEntry),
    }
}
