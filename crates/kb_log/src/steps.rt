//! Bytes that are staged where nothing counts, and then one byte that makes them count.
ghost use Rattle.std.specs.Prelude.{◌≡◌, ◌⊎◌, ◌+◌, ◌-◌, ◌≤◌, ◌<◌, ◌^◌, [], ◌∷◌, ◌++◌, false, List, ℕ, length, vec_capacity, slice_set, OnOk, OnErr};
ghost use Rattle.kb_edge.specs.Disk.{within, overlay, MayLeave, FallsBy};
ghost use Rattle.kb_edge.specs.Causes.{Rose};
ghost use Rattle.kb_log.specs.LogList.{record_of, used_of};
ghost use Rattle.kb_log.specs.Pieces.{pieces, AreEnds, records_text};
ghost use Rattle.kb_log.specs.Steps.{IsClean, RanOut};

use crate::text::{fill, stage};
use kb_edge::{Disk, Stopped};

/// Writes bytes, and when they are on the disk the one byte.
pub fn stage_and_switch<D: Disk>(
    disk: &mut D,
    at: u32,
    bytes: &[u8],
    place: u32,
    value: u8,
) -> Result<(), Stopped>
    requires clean { IsClean (D.dirty disk.old) }
    requires range { at + length bytes.now ≤ length (D.content disk.old) }
    requires place { place < length (D.content disk.old) }

    ensures written { OnOk result (D.content disk.new ≡ overlay (overlay (D.content disk.old) at bytes.now) place (value ∷ [])) }
    ensures clean { OnOk result (IsClean (D.dirty disk.new)) }
    ensures size { length (D.content disk.new) ≡ length (D.content disk.old) }

    // A power cut leaves what was there but for the staged range, or that with the bytes but for the one byte.
    ensures stopped { OnErr result ((image : List ℕ) → MayLeave (D.content disk.new) (D.dirty disk.new) image
        → MayLeave (D.content disk.old) (within at (length bytes.now)) image
        ⊎ MayLeave (overlay (D.content disk.old) at bytes.now) (within place 1) image) }

    ensures left { FallsBy 4 (D.left disk.old) (D.left disk.new) }
    ensures spent { OnErr result (RanOut 4 (D.left disk.old) (D.left disk.new)) }
    ensures later { D.faults disk.old ≤ D.faults disk.new }
    ensures rose { OnErr result (Rose (D.faults disk.old) (D.faults disk.new)) }
{
    disk.write(at, bytes)?;
    disk.sync()?;
    disk.write(place, &[value])?;
    disk.sync()
}

/// Writes a record behind the closed gate, in memory too, and then opens the gate.
pub fn add_record<D: Disk>(
    disk: &mut D,
    start: u32,
    text: &mut Vec<u8>,
    payload: &[u8],
) -> Result<(), Stopped>
    requires clean { IsClean (D.dirty disk.old) }
    requires range { start + length text.old.items + length payload.now + 5 ≤ length (D.content disk.old) }
    requires some { 0 < length text.old.items }
    requires room { length text.old.items + length payload.now + 5 ≤ vec_capacity text.old }
    requires short { length payload.now < 2 ^ 32 }
    requires small { length (D.content disk.old) < 2 ^ 32 }

    ensures text { OnOk result (text.new.items ≡ slice_set (text.old.items ++ record_of payload.now) (length text.old.items - 1) 1) }
    ensures room { vec_capacity text.old ≤ vec_capacity text.new }
    ensures written { OnOk result (D.content disk.new ≡ overlay (overlay (D.content disk.old) (start + length text.old.items) (record_of payload.now)) (start + length text.old.items - 1) (1 ∷ [])) }
    ensures clean { OnOk result (IsClean (D.dirty disk.new)) }
    ensures size { length (D.content disk.new) ≡ length (D.content disk.old) }
    ensures stopped { OnErr result ((image : List ℕ) → MayLeave (D.content disk.new) (D.dirty disk.new) image
        → MayLeave (D.content disk.old) (within (start + length text.old.items) (length (record_of payload.now))) image
        ⊎ MayLeave (overlay (D.content disk.old) (start + length text.old.items) (record_of payload.now)) (within (start + length text.old.items - 1) 1) image) }

    ensures left { FallsBy 4 (D.left disk.old) (D.left disk.new) }
    ensures spent { OnErr result (RanOut 4 (D.left disk.old) (D.left disk.new)) }
    ensures later { D.faults disk.old ≤ D.faults disk.new }
    ensures rose { OnErr result (Rose (D.faults disk.old) (D.faults disk.new)) }
{
    let used = text.len();
    let at = start + used as u32;
    stage(text, payload);
    let behind = &text[used..];
    stage_and_switch(disk, at, behind, at - 1, 1)?;
    text[used - 1] = 1;
    Ok(())
}

/// Writes the records of all pieces from a place on, in memory too, and then the selector.
pub fn write_area<D: Disk>(
    disk: &mut D,
    start: u32,
    selector: u8,
    text: &mut Vec<u8>,
    bytes: &[u8],
    ends: &[u32],
) -> Result<(), Stopped>
    requires clean { IsClean (D.dirty disk.old) }
    requires range { start + used_of (pieces 0 bytes.now ends.now) ≤ length (D.content disk.old) }
    requires selector { 8 < length (D.content disk.old) }
    requires small { length (D.content disk.old) < 2 ^ 32 }
    requires ends { AreEnds 0 bytes.now ends.now }
    requires room { used_of (pieces 0 bytes.now ends.now) ≤ vec_capacity text.old }

    ensures text { OnOk result (text.new.items ≡ records_text (pieces 0 bytes.now ends.now)) }
    ensures room { vec_capacity text.old ≤ vec_capacity text.new }
    ensures written { OnOk result (D.content disk.new ≡ overlay (overlay (D.content disk.old) start (records_text (pieces 0 bytes.now ends.now))) 8 (selector ∷ [])) }
    ensures clean { OnOk result (IsClean (D.dirty disk.new)) }
    ensures size { length (D.content disk.new) ≡ length (D.content disk.old) }
    ensures stopped { OnErr result ((image : List ℕ) → MayLeave (D.content disk.new) (D.dirty disk.new) image
        → MayLeave (D.content disk.old) (within start (length (records_text (pieces 0 bytes.now ends.now)))) image
        ⊎ MayLeave (overlay (D.content disk.old) start (records_text (pieces 0 bytes.now ends.now))) (within 8 1) image) }

    ensures left { FallsBy 4 (D.left disk.old) (D.left disk.new) }
    ensures spent { OnErr result (RanOut 4 (D.left disk.old) (D.left disk.new)) }
    ensures later { D.faults disk.old ≤ D.faults disk.new }
    ensures rose { OnErr result (Rose (D.faults disk.old) (D.faults disk.new)) }
{
    fill(text, bytes, ends);
    let records = text.as_slice();
    stage_and_switch(disk, start, records, 8, selector)
}
