//! The chosen area of a log, on the disk and in memory.
ghost use Rattle.std.specs.Prelude.{◌≡◌, ◌⊎◌, ◌+◌, ◌≤◌, ◌<◌, ◌^◌, ◌++◌, [], ◌∷◌, true, List, ℕ, ◌==◌, if◌then◌else◌, length, take, drop, vec_capacity, IfOk, OnOk, OnErr, IsErrOf};
ghost use Rattle.std.specs.List.{list_all};
ghost use Rattle.kb_edge.specs.Causes.{Rose};
ghost use Rattle.kb_edge.specs.Disk.{MayLeave, FallsBy};
ghost use Rattle.kb_log.specs.Images.{EachImage, HasList, HasEither, LeavesNoMore};
ghost use Rattle.kb_log.specs.LogList.{log_list, list_of, used_of, has_magic, area_size, area_start};
ghost use Rattle.kb_log.specs.Pieces.{pieces, AreEnds};
ghost use Rattle.kb_log.specs.State.{IsRead};
ghost use Rattle.kb_log.specs.Steps.{IsClean, RanOut};

use crate::faults::LogFault;
use crate::steps::{add_record, write_area};
use crate::text::{other_area, used_in};
use kb_edge::{Disk, Stopped};
use std::alloc::Global;

/// Where the chosen area begins, how many bytes it has, and its records with the closed gate behind them. A change is
/// made ready in the same text, which has room for the whole area.
#[derive(Drop)]
pub struct Area {
    pub start: u32,
    pub size: u32,
    pub text: Vec<u8>,
}

fn is_zeros(bytes: &[u8]) -> bool
    ensures { result ≡ list_all (λ b. b == 0) bytes.now }
{
    bytes.iter().all(|b| *b == 0)
}

// Makes the disk clean, and says where its chosen area begins, or none where the magic is wrong.
fn find_area<D: Disk>(disk: &mut D, size: u32) -> Result<Option<u32>, Stopped>
    requires low { 4096 ≤ length (D.content disk.old) }
    requires high { length (D.content disk.old) ≤ 2 ^ 24 }
    requires size { size ≡ area_size (length (D.content disk.old)) }

    ensures start { IfOk result (λ found. found ≡ (if has_magic (D.content disk.old) then Some (area_start (D.content disk.old)) else None)) }
    ensures clean { OnOk result (IsClean (D.dirty disk.new)) }
    ensures content { D.content disk.new ≡ D.content disk.old }
    ensures images { LeavesNoMore D.content D.dirty disk.old disk.new }
    ensures left { FallsBy 1 (D.left disk.old) (D.left disk.new) }
    ensures spent { OnErr result (RanOut 2 (D.left disk.old) (D.left disk.new)) }
    ensures later { D.faults disk.old ≤ D.faults disk.new }
    ensures rose { OnErr result (Rose (D.faults disk.old) (D.faults disk.new)) }
{
    disk.sync()?;
    let mut magic = [0u8; 8];
    disk.read(0, &mut magic)?;
    let mut selector = [0u8; 1];
    disk.read(8, &mut selector)?;
    if !is_zeros(&magic) {
        return Ok(None);
    }
    if selector[0] % 2 == 1 {
        Ok(Some(16 + size))
    } else {
        Ok(Some(16))
    }
}

// Reads so many bytes of an area.
fn read_part<D: Disk>(
    disk: &mut D,
    start: u32,
    text: &mut Vec<u8>,
    most: usize,
) -> Result<(), Stopped>
    requires room { most ≤ vec_capacity text.old }
    requires range { start + most ≤ length (D.content disk.old) }

    ensures text { OnOk result (text.new.items ≡ take most (drop start (D.content disk.old))) }
    ensures room { vec_capacity text.old ≤ vec_capacity text.new }
    ensures content { D.content disk.new ≡ D.content disk.old }
    ensures dirty { (place : ℕ) → D.dirty disk.new place ≡ D.dirty disk.old place }
    ensures left { D.left disk.new ≡ D.left disk.old }
    ensures spent { OnErr result (D.left disk.old ≡ Some 0) }
    ensures later { D.faults disk.old ≤ D.faults disk.new }
    ensures rose { OnErr result (Rose (D.faults disk.old) (D.faults disk.new)) }
{
    text.clear();
    let Ok(()) = text.resize(most, 0) else {
        unreachable!()
    };
    disk.read(start, text)?;
    Ok(())
}

// Reads an area's records and the closed gate behind them: 512 bytes, and each time more than twice as many, until
// they are among them. It answers `Stopped`, or `BadLog` exactly where the area has none.
fn read_records<D: Disk>(
    disk: &mut D,
    start: u32,
    size: u32,
    text: &mut Vec<u8>,
) -> Result<(), LogFault>
    requires room { size ≤ vec_capacity text.old }
    requires range { start + size ≤ length (D.content disk.old) }

    ensures read { OnOk result (IsRead (take size (drop start (D.content disk.old))) text.new.items) }
    ensures bad { IsErrOf result LogFault.BadLog → list_of (take size (drop start (D.content disk.old))) ≡ None }
    ensures room { vec_capacity text.old ≤ vec_capacity text.new }
    ensures content { D.content disk.new ≡ D.content disk.old }
    ensures dirty { (place : ℕ) → D.dirty disk.new place ≡ D.dirty disk.old place }
    ensures left { D.left disk.new ≡ D.left disk.old }
    ensures spent { IsErrOf result LogFault.Stopped → D.left disk.old ≡ Some 0 }
    ensures later { D.faults disk.old ≤ D.faults disk.new }
    ensures rose { IsErrOf result LogFault.Stopped → Rose (D.faults disk.old) (D.faults disk.new) }
{
    let size = size as usize;
    let mut most = 0;
    while most < size {
        most = size.min(2 * most + 512);
        read_part(disk, start, text, most)?;
        if let Some(used) = used_in(text) {
            text.truncate(used);
            return Ok(());
        }
    }
    Err(LogFault::BadLog)
}

impl Area {
    ghost use Rattle.kb_log.specs.State.{IsSettled, payloads_of};

    /// Reads the chosen area. It answers `Stopped`, then `BadLog` exactly where the bytes are no log, or `Memory`.
    pub fn load<D: Disk>(alloc: Global, disk: &mut D) -> Result<Area, LogFault>
        requires low { 4096 ≤ length (D.content disk.old) }
        requires high { length (D.content disk.old) ≤ 2 ^ 24 }

        ensures settled { IfOk result (λ area. IsSettled (D.content disk.new) (D.dirty disk.new) area) }
        ensures bad { IsErrOf result LogFault.BadLog → log_list (D.content disk.old) ≡ None }
        ensures synced { IsErrOf result LogFault.BadLog → IsClean (D.dirty disk.new) }
        ensures content { D.content disk.new ≡ D.content disk.old }
        ensures images { LeavesNoMore D.content D.dirty disk.old disk.new }
        ensures left { FallsBy 1 (D.left disk.old) (D.left disk.new) }
        ensures spent { IsErrOf result LogFault.Stopped → RanOut 2 (D.left disk.old) (D.left disk.new) }
        ensures later { D.faults disk.old ≤ D.faults disk.new }
        ensures rose { IsErrOf result LogFault.Stopped → Rose (D.faults disk.old) (D.faults disk.new) }
    {
        let size = (disk.size() - 16) / 2;
        let Some(start) = find_area(disk, size)? else {
            return Err(LogFault::BadLog);
        };
        let mut text = Vec::with_capacity(alloc, size as usize)?;
        match read_records(disk, start, size, &mut text) {
            Ok(()) => Ok(Area { start, size, text }),
            Err(fault) => Err(fault),
        }
    }

    /// Adds a payload's record.
    pub fn append<D: Disk>(&mut self, disk: &mut D, payload: &[u8]) -> Result<(), Stopped>
        requires settled { IsSettled (D.content disk.old) (D.dirty disk.old) self.old }
        requires fits { length self.old.text.items + 5 + length payload.now ≤ self.old.size }

        ensures settled { OnOk result (IsSettled (D.content disk.new) (D.dirty disk.new) self.new) }
        ensures payloads { OnOk result (payloads_of self.new.text.items ≡ payloads_of self.old.text.items ++ payload.now ∷ []) }
        ensures size { length (D.content disk.new) ≡ length (D.content disk.old) }
        ensures durable { OnOk result (EachImage D.content D.dirty disk.new (HasList (payloads_of self.old.text.items ++ payload.now ∷ []))) }
        ensures every { EachImage D.content D.dirty disk.new (HasEither (payloads_of self.old.text.items) (payloads_of self.old.text.items ++ payload.now ∷ [])) }
        ensures left { FallsBy 4 (D.left disk.old) (D.left disk.new) }
        ensures spent { OnErr result (RanOut 4 (D.left disk.old) (D.left disk.new)) }
        ensures later { D.faults disk.old ≤ D.faults disk.new }
        ensures rose { OnErr result (Rose (D.faults disk.old) (D.faults disk.new)) }
    {
        add_record(disk, self.start, &mut self.text, payload)?;
        Ok(())
    }

    /// Writes the records of all pieces to the other area, and chooses it.
    pub fn replace<D: Disk>(
        &mut self,
        disk: &mut D,
        bytes: &[u8],
        ends: &[u32],
    ) -> Result<(), Stopped>
        requires settled { IsSettled (D.content disk.old) (D.dirty disk.old) self.old }
        requires ends { AreEnds 0 bytes.now ends.now }
        requires fits { used_of (pieces 0 bytes.now ends.now) ≤ self.old.size }

        ensures settled { OnOk result (IsSettled (D.content disk.new) (D.dirty disk.new) self.new) }
        ensures payloads { OnOk result (payloads_of self.new.text.items ≡ pieces 0 bytes.now ends.now) }
        ensures size { length (D.content disk.new) ≡ length (D.content disk.old) }
        ensures durable { OnOk result (EachImage D.content D.dirty disk.new (HasList (pieces 0 bytes.now ends.now))) }
        ensures every { EachImage D.content D.dirty disk.new (HasEither (payloads_of self.old.text.items) (pieces 0 bytes.now ends.now)) }
        ensures left { FallsBy 4 (D.left disk.old) (D.left disk.new) }
        ensures spent { OnErr result (RanOut 4 (D.left disk.old) (D.left disk.new)) }
        ensures later { D.faults disk.old ≤ D.faults disk.new }
        ensures rose { OnErr result (Rose (D.faults disk.old) (D.faults disk.new)) }
    {
        let (other, selector) = other_area(self.start, self.size);
        write_area(disk, other, selector, &mut self.text, bytes, ends)?;
        self.start = other;
        Ok(())
    }
}
