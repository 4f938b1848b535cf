//! The bytes of an area in memory.
ghost use Rattle.std.specs.Prelude.{◌≡◌, ◌+◌, ◌≤◌, ◌<◌, ◌^◌, ◌++◌, ◌==◌, if◌then◌else◌, length, vec_capacity, IfSome, IfOk, IsSome};
ghost use Rattle.std.specs.Option.{option_map};
ghost use Rattle.kb_log.specs.Pieces.{pieces, AreEnds, open_record, records_text};
ghost use Rattle.kb_log.specs.LogList.{record_of, payload_at, list_of, lists_of, used_of};

use std::alloc::{AllocError, Global};

// Puts bytes behind those that are there.
fn put(text: &mut Vec<u8>, bytes: &[u8])
    requires { length text.old.items + length bytes.now ≤ vec_capacity text.old }
    ensures items { text.new.items ≡ text.old.items ++ bytes.now }
    ensures room { vec_capacity text.old ≤ vec_capacity text.new }
{
    let Ok(()) = text.extend_from_slice(bytes) else {
        unreachable!()
    };
}

/// Puts what stands behind a record's gate, and a closed gate.
#[tactic(auto, unfolding(crate::specs::LogList::record_of))]
pub fn stage(text: &mut Vec<u8>, payload: &[u8])
    requires room { length text.old.items + length payload.now + 5 ≤ vec_capacity text.old }
    requires short { length payload.now < 2 ^ 32 }
    ensures items { text.new.items ≡ text.old.items ++ record_of payload.now }
    ensures room { vec_capacity text.old ≤ vec_capacity text.new }
{
    put(text, &(payload.len() as u32).to_be_bytes());
    put(text, payload);
    put(text, &[0]);
}

/// The payload behind a gate, and what follows its record.
#[tactic(auto, unfolding(crate::specs::LogList::payload_at))]
pub fn payload_of(text: &[u8]) -> Option<(&[u8], &[u8])>
    ensures found { option_map (λ found. (found.0.now, found.1.now)) result ≡ payload_at text.now }
    ensures size { IfSome result (λ found. length found.0.now + length found.1.now + 4 ≡ length text.now) }
{
    if text.len() < 4 {
        return None;
    }
    let (len, body) = text.split_at(4);
    let len = u32::from_be_bytes([len[0], len[1], len[2], len[3]]) as usize;
    if body.len() < len {
        return None;
    }
    Some(body.split_at(len))
}

/// How many bytes the records and the closed gate take, or none where the text isn't records and a closed gate.
pub fn used_in(text: &[u8]) -> Option<usize>
    ensures used { result ≡ option_map used_of (list_of text.now) }
    ensures bound { IfSome result (λ used. used ≤ length text.now) }
{
    let mut used = 1;
    let mut rest = text;
    while let [gate, behind @ ..] = rest {
        if *gate == 0 {
            return Some(used);
        }
        let (payload, next) = payload_of(behind)?;
        used += 5 + payload.len();
        rest = next;
    }
    None
}

// Puts a record with an open gate.
#[tactic(auto, unfolding(crate::specs::Pieces::open_record))]
fn put_record(text: &mut Vec<u8>, payload: &[u8])
    requires room { length text.old.items + length payload.now + 5 ≤ vec_capacity text.old }
    requires short { length payload.now < 2 ^ 32 }
    ensures items { text.new.items ≡ text.old.items ++ open_record payload.now }
    ensures room { vec_capacity text.old ≤ vec_capacity text.new }
{
    put(text, &[1]);
    put(text, &(payload.len() as u32).to_be_bytes());
    put(text, payload);
}

/// Puts the records of all pieces, and a closed gate, in place of what is there.
pub fn fill(text: &mut Vec<u8>, bytes: &[u8], ends: &[u32])
    requires ends { AreEnds 0 bytes.now ends.now }
    requires room { used_of (pieces 0 bytes.now ends.now) ≤ vec_capacity text.old }
    requires short { used_of (pieces 0 bytes.now ends.now) < 2 ^ 32 }
    ensures items { text.new.items ≡ records_text (pieces 0 bytes.now ends.now) }
    ensures room { vec_capacity text.old ≤ vec_capacity text.new }
{
    text.clear();
    let mut from = 0;
    for end in ends {
        let to = *end as usize;
        put_record(text, &bytes[from..to]);
        from = to;
    }
    put(text, &[0]);
}

/// How many bytes the records of all pieces and a closed gate take.
pub fn need_of(bytes: &[u8], ends: &[u32]) -> u32
    requires ends { AreEnds 0 bytes.now ends.now }
    requires short { used_of (pieces 0 bytes.now ends.now) < 2 ^ 32 }
    ensures { result ≡ used_of (pieces 0 bytes.now ends.now) }
{
    (bytes.len() + 5 * ends.len() + 1) as u32
}

/// Where the area begins that isn't at `start`, and the selector that chooses it.
pub fn other_area(start: u32, area: u32) -> (u32, u8)
    requires { 16 + area < 2 ^ 32 }
    ensures start { result.0 ≡ (if start == 16 then 16 + area else 16) }
    ensures selector { result.1 ≡ (if start == 16 then 1 else 0) }
{
    if start == 16 { (16 + area, 1) } else { (16, 0) }
}

/// The payloads of the records up to the closed gate.
pub fn payloads_in(alloc: Global, text: &[u8]) -> Result<Vec<Vec<u8>>, AllocError>
    requires { IsSome (list_of text.now) }
    ensures { IfOk result (λ v. list_of text.now ≡ Some (lists_of v.items)) }
{
    let mut all = Vec::new(alloc);
    let mut rest = text;
    while let [gate, behind @ ..] = rest {
        if *gate == 0 {
            return Ok(all);
        }
        let Some((payload, next)) = payload_of(behind) else {
            return Ok(all);
        };
        all.push(payload.to_vec(alloc)?)?;
        rest = next;
    }
    Ok(all)
}
