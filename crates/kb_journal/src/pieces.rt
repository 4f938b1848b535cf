//! The pieces of a compaction, in buffers that were made at the opening.
ghost use Rattle.std.specs.Prelude.{◌≡◌, ◌+◌, ◌≤◌, ◌<◌, ◌^◌, ◌++◌, [], ◌∷◌, length, vec_len, vec_capacity};
ghost use Rattle.kb_log.specs.Pieces.{pieces, AreEnds};
ghost use Rattle.kb_journal.specs.declared.entries.Entry.TheVariants as entries;
ghost use Rattle.kb_journal.specs.Entries.{entry_text};
ghost use Rattle.kb_journal.specs.Held.{state_of};
ghost use Rattle.kb_journal.specs.State.{use_of, compacted};

use crate::entries::Hash;
use crate::held::Held;

/// Adds bytes for which there is room.
pub fn put(bytes: &mut Vec<u8>, part: &[u8])
    requires { vec_len bytes.old + length part.now ≤ vec_capacity bytes.old }
    ensures items { bytes.new.items ≡ bytes.old.items ++ part.now }
    ensures len { vec_len bytes.new ≡ vec_len bytes.old + length part.now }
    ensures room { vec_capacity bytes.old ≤ vec_capacity bytes.new }
{
    let Ok(()) = bytes.extend_from_slice(part) else {
        unreachable!()
    };
}

fn put_end(ends: &mut Vec<u32>, end: u32)
    requires { vec_len ends.old < vec_capacity ends.old }
    ensures items { ends.new.items ≡ ends.old.items ++ end ∷ [] }
    ensures len { vec_len ends.new ≡ vec_len ends.old + 1 }
    ensures room { vec_capacity ends.old ≤ vec_capacity ends.new }
{
    let Ok(()) = ends.push(end) else {
        unreachable!()
    };
}

/// Adds the payload of a head.
pub fn put_head(bytes: &mut Vec<u8>, number: u32, hash: &Hash, seq: u32, mark: bool)
    requires { vec_len bytes.old + 42 ≤ vec_capacity bytes.old }
    ensures items { bytes.new.items ≡ bytes.old.items ++ entry_text (entries.Head number hash.now seq mark) }
    ensures len { vec_len bytes.new ≡ vec_len bytes.old + 42 }
    ensures room { vec_capacity bytes.old ≤ vec_capacity bytes.new }
{
    put(bytes, &[5]);
    put(bytes, &number.to_be_bytes());
    put(bytes, hash);
    put(bytes, &seq.to_be_bytes());
    put(bytes, &[u8::from(mark)]);
}

// Adds a piece behind those that are there.
fn add(bytes: &mut Vec<u8>, ends: &mut Vec<u32>, payload: &[u8])
    requires are { AreEnds 0 bytes.old.items ends.old.items }
    requires room { vec_len bytes.old + length payload.now ≤ vec_capacity bytes.old }
    requires small { vec_len bytes.old + length payload.now < 2 ^ 32 }
    requires more { vec_len ends.old < vec_capacity ends.old }
    ensures are { AreEnds 0 bytes.new.items ends.new.items }
    ensures pieces { pieces 0 bytes.new.items ends.new.items ≡ pieces 0 bytes.old.items ends.old.items ++ payload.now ∷ [] }
    ensures len { vec_len bytes.new ≡ vec_len bytes.old + length payload.now }
    ensures count { vec_len ends.new ≡ vec_len ends.old + 1 }
    ensures room { vec_capacity bytes.old ≤ vec_capacity bytes.new }
    ensures ends_room { vec_capacity ends.old ≤ vec_capacity ends.new }
{
    put(bytes, payload);
    put_end(ends, bytes.len() as u32);
}

/// Makes the pieces of the compacted list.
pub fn build(bytes: &mut Vec<u8>, ends: &mut Vec<u32>, held: &Held)
    requires room { use_of held.now.ops.items ≤ vec_capacity bytes.old }
    requires small { use_of held.now.ops.items < 2 ^ 32 }
    requires ends_room { 4097 ≤ vec_capacity ends.old }
    ensures are { AreEnds 0 bytes.new.items ends.new.items }
    ensures pieces { pieces 0 bytes.new.items ends.new.items ≡ compacted (state_of held.now) }
    ensures room { vec_capacity bytes.old ≤ vec_capacity bytes.new }
    ensures ends_room { vec_capacity ends.old ≤ vec_capacity ends.new }
{
    begin(bytes, ends, held);
    for text in held.texts.as_slice() {
        add(bytes, ends, text);
    }
}

// The first piece, which is the head.
fn begin(bytes: &mut Vec<u8>, ends: &mut Vec<u32>, held: &Held)
    requires room { 42 ≤ vec_capacity bytes.old }
    requires ends_room { 1 ≤ vec_capacity ends.old }
    ensures are { AreEnds 0 bytes.new.items ends.new.items }
    ensures pieces { pieces 0 bytes.new.items ends.new.items ≡ entry_text (entries.Head held.now.known held.now.hash held.now.base held.now.mark) ∷ [] }
    ensures len { vec_len bytes.new ≡ 42 }
    ensures count { vec_len ends.new ≡ 1 }
    ensures room { vec_capacity bytes.old ≤ vec_capacity bytes.new }
    ensures ends_room { vec_capacity ends.old ≤ vec_capacity ends.new }
{
    bytes.clear();
    ends.clear();
    put_head(bytes, held.known, &held.hash, held.base, held.mark);
    put_end(ends, 42);
}
