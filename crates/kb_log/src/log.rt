//! The log.
ghost use Rattle.std.specs.Prelude.{◌≡◌, ◌+◌, ◌-◌, ◌≤◌, ◌<◌, ◌^◌, ◌++◌, [], ◌∷◌, true, false, List, ℕ, length, OnOk, OnErr, IfOk, IfErr, IsErrOf};
ghost use Rattle.kb_edge.specs.Causes.{Rose};
ghost use Rattle.kb_edge.specs.Disk.{MayLeave, FallsBy};
ghost use Rattle.kb_log.specs.Images.{EachImage, HasList, HasEither, LeavesNoMore};
ghost use Rattle.kb_log.specs.LogList.{log_list, lists_of, used_of, area_size};
ghost use Rattle.kb_log.specs.Pieces.{pieces, AreEnds};
ghost use Rattle.kb_log.specs.State.{SaysFull};
ghost use Rattle.kb_log.specs.Steps.{IsClean, RanOut};

use crate::area::Area;
use crate::faults::{AppendFault, LogFault};
use crate::text::{need_of, payloads_in};
use kb_edge::{CrashDisk, Disk, Memory};
use std::alloc::Global;
use std::marker::Model;

/// A list of payloads on a disk. Once a call has stopped, the log has to be opened again.
#[derive(Drop)]
pub struct Log<D: Disk> {
    disk: D,
    area: Area,
    is_open: bool,
}

impl<D: Disk> Model for Log<D> {
    ghost use Rattle.std.specs.Prelude.{◌≡◌, true};
    ghost use Rattle.kb_log.specs.State.{LogState, IsSettled, payloads_of};

    ghost Value = { LogState D };

    ghost view = { λ l. record { disk = l.disk; payloads = payloads_of l.area.text.items; is_open = l.is_open } };

    ghost invariant = { λ l. l.is_open ≡ true → IsSettled (D.content l.disk) (D.dirty l.disk) l.area };
}

impl<D: Disk> Log<D> {
    /// Opens the log of a disk of 4,096 to 16,777,216 bytes: a sync, and then reads. It answers `Stopped`, then
    /// `BadLog` exactly where the disk's bytes are no log, or `Memory`, and then gives the disk back.
    pub fn open(alloc: Global, disk: D) -> Result<Log<D>, (D, LogFault)>
        requires low { 4096 ≤ length (D.content disk) }
        requires high { length (D.content disk) ≤ 2 ^ 24 }

        ensures opened { IfOk result (λ log. log.is_open ≡ true) }
        ensures payloads { IfOk result (λ log. log_list (D.content disk) ≡ Some log.payloads) }
        ensures bad { IfErr result (λ e. e.1 ≡ LogFault.BadLog → log_list (D.content disk) ≡ None) }

        // Stopped comes first: where the bytes are no log, the sync has succeeded.
        ensures stopped_first { IfErr result (λ e. e.1 ≡ LogFault.BadLog → IsClean (D.dirty e.0)) }

        // Nothing is written, and a power cut leaves nothing that it could not have left before.
        ensures content { IfOk result (λ log. D.content log.disk ≡ D.content disk) }
        ensures content_err { IfErr result (λ e. D.content e.0 ≡ D.content disk) }
        ensures clean { IfOk result (λ log. IsClean (D.dirty log.disk)) }
        ensures images { IfOk result (λ log. LeavesNoMore D.content D.dirty disk log.disk) }
        ensures images_err { IfErr result (λ e. LeavesNoMore D.content D.dirty disk e.0) }
        ensures durable { IfOk result (λ log. EachImage D.content D.dirty log.disk (HasList log.payloads)) }

        ensures left { IfOk result (λ log. FallsBy 1 (D.left disk) (D.left log.disk)) }
        ensures left_err { IfErr result (λ e. FallsBy 1 (D.left disk) (D.left e.0)) }
        ensures spent { IfErr result (λ e. e.1 ≡ LogFault.Stopped → RanOut 2 (D.left disk) (D.left e.0)) }
        ensures later { IfOk result (λ log. D.faults disk ≤ D.faults log.disk) }
        ensures later_err { IfErr result (λ e. D.faults disk ≤ D.faults e.0) }
        ensures rose { IfErr result (λ e. e.1 ≡ LogFault.Stopped → Rose (D.faults disk) (D.faults e.0)) }
    {
        let mut disk = disk;
        match Area::load(alloc, &mut disk) {
            Ok(area) => Ok(Log {
                disk,
                area,
                is_open: true,
            }),
            Err(fault) => Err((disk, fault)),
        }
    }

    /// Adds a payload. It answers `Full` exactly where its record exceeds what is free, or `Stopped`.
    pub fn append(&mut self, payload: &[u8]) -> Result<(), AppendFault>
        requires open { self.old.is_open ≡ true }
        requires need { 5 + length payload.now < 2 ^ 32 }

        ensures opened { OnOk result (self.new.is_open ≡ true) }
        ensures payloads { OnOk result (self.new.payloads ≡ self.old.payloads ++ payload.now ∷ []) }
        ensures size { length (D.content self.new.disk) ≡ length (D.content self.old.disk) }

        // A power cut after Ok leaves the new list, and whatever is answered the old one or the new one.
        ensures durable { OnOk result (EachImage D.content D.dirty self.new.disk (HasList (self.old.payloads ++ payload.now ∷ []))) }
        ensures every { EachImage D.content D.dirty self.new.disk (HasEither self.old.payloads (self.old.payloads ++ payload.now ∷ [])) }

        // Full exactly where the need exceeds what is free, with nothing changed.
        ensures full { IfErr result (SaysFull (5 + length payload.now) (area_size (length (D.content self.old.disk)) - used_of self.old.payloads) (self.new ≡ self.old)) }
        ensures fits { OnOk result (5 + length payload.now ≤ area_size (length (D.content self.old.disk)) - used_of self.old.payloads) }

        ensures left { FallsBy 4 (D.left self.old.disk) (D.left self.new.disk) }
        ensures spent { IsErrOf result AppendFault.Stopped → RanOut 4 (D.left self.old.disk) (D.left self.new.disk) }
        ensures later { D.faults self.old.disk ≤ D.faults self.new.disk }
        ensures rose { IsErrOf result AppendFault.Stopped → Rose (D.faults self.old.disk) (D.faults self.new.disk) }
        ensures closed { IsErrOf result AppendFault.Stopped → self.new.is_open ≡ false }
    {
        let need = payload.len() as u32 + 5;
        let free = self.area.size - self.area.text.len() as u32;
        if need > free {
            return Err(AppendFault::Full { need, free });
        }
        self.is_open = false;
        self.area.append(&mut self.disk, payload)?;
        self.is_open = true;
        Ok(())
    }

    /// Replaces the list. Payload j is the part of `bytes` from the end before it, or from 0 for the first, to its
    /// own end. It answers `Full` exactly where the new records and the closed gate exceed an area, or `Stopped`.
    pub fn compact(&mut self, bytes: &[u8], ends: &[u32]) -> Result<(), AppendFault>
        requires open { self.old.is_open ≡ true }
        requires ends { AreEnds 0 bytes.now ends.now }
        requires need { used_of (pieces 0 bytes.now ends.now) < 2 ^ 32 }

        ensures opened { OnOk result (self.new.is_open ≡ true) }
        ensures payloads { OnOk result (self.new.payloads ≡ pieces 0 bytes.now ends.now) }
        ensures size { length (D.content self.new.disk) ≡ length (D.content self.old.disk) }

        // A power cut after Ok leaves the new list, and whatever is answered the old one or the new one.
        ensures durable { OnOk result (EachImage D.content D.dirty self.new.disk (HasList (pieces 0 bytes.now ends.now))) }
        ensures every { EachImage D.content D.dirty self.new.disk (HasEither self.old.payloads (pieces 0 bytes.now ends.now)) }

        // Full exactly where the need exceeds an area, with nothing changed.
        ensures full { IfErr result (SaysFull (used_of (pieces 0 bytes.now ends.now)) (area_size (length (D.content self.old.disk))) (self.new ≡ self.old)) }
        ensures fits { OnOk result (used_of (pieces 0 bytes.now ends.now) ≤ area_size (length (D.content self.old.disk))) }

        ensures left { FallsBy 4 (D.left self.old.disk) (D.left self.new.disk) }
        ensures spent { IsErrOf result AppendFault.Stopped → RanOut 4 (D.left self.old.disk) (D.left self.new.disk) }
        ensures later { D.faults self.old.disk ≤ D.faults self.new.disk }
        ensures rose { IsErrOf result AppendFault.Stopped → Rose (D.faults self.old.disk) (D.faults self.new.disk) }
        ensures closed { IsErrOf result AppendFault.Stopped → self.new.is_open ≡ false }
    {
        let need = need_of(bytes, ends);
        let free = self.area.size;
        if need > free {
            return Err(AppendFault::Full { need, free });
        }
        self.is_open = false;
        self.area.replace(&mut self.disk, bytes, ends)?;
        self.is_open = true;
        Ok(())
    }

    /// The list.
    pub fn payloads(&self, alloc: Global) -> Result<Vec<Vec<u8>>, Memory>
        requires { self.now.is_open ≡ true }
        ensures { IfOk result (λ v. lists_of v.items ≡ self.now.payloads) }
    {
        Ok(payloads_in(alloc, &self.area.text)?)
    }

    /// The bytes that the records and the closed gate behind them take.
    pub fn used(&self) -> u32
        requires { self.now.is_open ≡ true }
        ensures value { result ≡ used_of self.now.payloads }
        ensures bound { result ≤ area_size (length (D.content self.now.disk)) }
    {
        self.area.text.len() as u32
    }

    /// The bytes of an area.
    pub fn area(&self) -> u32
        requires { self.now.is_open ≡ true }
        ensures value { result ≡ area_size (length (D.content self.now.disk)) }
        ensures bound { result < 2 ^ 24 }
    {
        self.area.size
    }

    /// Gives the disk back.
    pub fn finish(self) -> D
        ensures { result ≡ self.disk }
    {
        let Log { disk, .. } = self;
        disk
    }
}

impl<D: CrashDisk> Log<D> {
    /// Arms the disk, and keeps the list.
    pub fn arm(&mut self, steps: u32)
        ensures opened { self.new.is_open ≡ self.old.is_open }
        ensures payloads { self.new.payloads ≡ self.old.payloads }
        ensures content { D.content self.new.disk ≡ D.content self.old.disk }
        ensures dirty { (place : ℕ) → D.dirty self.new.disk place ≡ D.dirty self.old.disk place }
        ensures left { D.left self.new.disk ≡ Some steps }
        ensures faults { D.faults self.new.disk ≡ D.faults self.old.disk }
    {
        self.disk.arm(steps);
    }
}
