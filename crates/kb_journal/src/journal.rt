//! The journal.
ghost use Rattle.std.specs.Prelude.{◌≡◌, ◌⊎◌, ◌+◌, ◌≤◌, ◌<◌, ◌^◌, true, false, List, ℕ, length, IfOk, IfErr, OnOk, OnErr, IsErrOf};
ghost use Rattle.kb_edge.specs.Causes.{Rose};
ghost use Rattle.kb_edge.specs.Disk.{FallsBy, MayLeave};
ghost use Rattle.kb_ops.specs.Grammar.{IsProper};
ghost use Rattle.kb_log.specs.Images.{EachImage, LeavesNoMore};
ghost use Rattle.kb_log.specs.LogList.{area_size};
ghost use Rattle.kb_log.specs.Steps.{IsClean, RanOut};
ghost use Rattle.kb_journal.specs.Adding.{AddRefuses, Takes};
ghost use Rattle.kb_journal.specs.Notes.{entry_of};
ghost use Rattle.kb_journal.specs.declared.entries.Entry.TheVariants as entries;
ghost use Rattle.kb_journal.specs.State.{HasState, IsNoJournal, last_seq, takes_device, allows, done};
ghost use Rattle.kb_journal.specs.Runs.{Use};

use crate::entries::{EntryFault, Hash, Note};
use crate::faults::{AddFault, JournalFault};
use crate::ready::Ready;
use kb_edge::{CrashDisk, Disk, Pick, Stopped};
use kb_log::{Log, LogFault};
use kb_ops::Op as Operation;
use std::alloc::Global;
use std::marker::Model;

/// What is known of the folder, and the queue, on a disk. Once a call has stopped, the journal has to be opened again.
#[derive(Drop)]
pub struct Journal<D: Disk> {
    log: Log<D>,
    ready: Ready,
}

impl<D: Disk> Model for Journal<D> {
    ghost use Rattle.std.specs.Prelude.{◌≡◌, true};
    ghost use Rattle.kb_journal.specs.Held.{state_of};
    ghost use Rattle.kb_journal.specs.Seen.{JournalState, IsReady};

    ghost Value = { JournalState D };

    ghost view = { λ j. record { disk = j.log.disk; state = state_of j.ready.held; is_open = j.log.is_open } };

    ghost invariant = { λ j. j.log.is_open ≡ true → IsReady D.content D.dirty j.log j.ready };
}

impl<D: Disk> Journal<D> {
    /// Opens the journal of a disk of 4,096 to 16,777,216 bytes: a sync, and then reads. It answers `Stopped`, then
    /// `BadDisk` exactly where the disk's bytes are no journal, or `Memory`, and then gives the disk back.
    pub fn open(alloc: Global, disk: D) -> Result<Journal<D>, (D, JournalFault)>
        requires low { 4096 ≤ length (D.content disk) }
        requires high { length (D.content disk) ≤ 2 ^ 24 }

        ensures opened { IfOk result (λ journal. journal.is_open ≡ true) }
        ensures state { IfOk result (λ journal. HasState journal.state (D.content disk)) }
        ensures bad { IfErr result (λ e. e.1 ≡ JournalFault.BadDisk → IsNoJournal (D.content disk)) }

        // Stopped comes first: where the bytes are no journal, the sync has succeeded.
        ensures stopped_first { IfErr result (λ e. e.1 ≡ JournalFault.BadDisk → IsClean (D.dirty e.0)) }

        // Nothing is written, and a power cut leaves nothing that it could not have left before.
        ensures content { IfOk result (λ journal. D.content journal.disk ≡ D.content disk) }
        ensures content_err { IfErr result (λ e. D.content e.0 ≡ D.content disk) }
        ensures images { IfOk result (λ journal. LeavesNoMore D.content D.dirty disk journal.disk) }
        ensures images_err { IfErr result (λ e. LeavesNoMore D.content D.dirty disk e.0) }
        ensures durable { IfOk result (λ journal. EachImage D.content D.dirty journal.disk (HasState journal.state)) }
        ensures used { IfOk result (λ journal. Use D.content D.dirty disk journal.disk) }
        ensures used_err { IfErr result (λ e. Use D.content D.dirty disk e.0) }

        ensures left { IfOk result (λ journal. FallsBy 1 (D.left disk) (D.left journal.disk)) }
        ensures left_err { IfErr result (λ e. FallsBy 1 (D.left disk) (D.left e.0)) }
        ensures spent { IfErr result (λ e. e.1 ≡ JournalFault.Stopped → RanOut 2 (D.left disk) (D.left e.0)) }
        ensures later { IfOk result (λ journal. D.faults disk ≤ D.faults journal.disk) }
        ensures later_err { IfErr result (λ e. D.faults disk ≤ D.faults e.0) }
        ensures rose { IfErr result (λ e. e.1 ≡ JournalFault.Stopped → Rose (D.faults disk) (D.faults e.0)) }
    {
        let log = match Log::open(alloc, disk) {
            Ok(log) => log,
            Err((disk, LogFault::Stopped)) => return Err((disk, JournalFault::Stopped)),
            Err((disk, LogFault::BadLog)) => return Err((disk, JournalFault::BadDisk)),
            Err((disk, LogFault::Memory)) => return Err((disk, JournalFault::Memory)),
        };
        match Ready::make(alloc, &log) {
            Ok(ready) => Ok(Journal { log, ready }),
            Err(EntryFault::BadEntry) => Err((log.finish(), JournalFault::BadDisk)),
            Err(EntryFault::Memory) => Err((log.finish(), JournalFault::Memory)),
        }
    }

    /// Queues an operation whose device is that of the others, and whose seq is the last plus one. It answers
    /// `Spent`, `QueueFull`, `Full`, `Memory` before any write, or `Stopped`.
    pub fn add_op(&mut self, alloc: Global, op: &Operation) -> Result<(), AddFault>
        requires open { self.old.is_open ≡ true }
        requires proper { IsProper op.now }
        requires device { takes_device self.old.state.queue op.now.device ≡ true }
        requires next { last_seq self.old.state + 1 < 2 ^ 32 → op.now.seq ≡ last_seq self.old.state + 1 }

        ensures opened { OnOk result (self.new.is_open ≡ true) }
        ensures state { OnOk result (self.new.state ≡ done self.old.state (entries.Op op.now)) }
        ensures size { length (D.content self.new.disk) ≡ length (D.content self.old.disk) }

        // A power cut after Ok leaves the new state, and whatever is answered the old one or the new one.
        ensures durable { OnOk result (EachImage D.content D.dirty self.new.disk (HasState (done self.old.state (entries.Op op.now)))) }
        ensures every { EachImage D.content D.dirty self.new.disk (λ image. HasState self.old.state image ⊎ HasState (done self.old.state (entries.Op op.now)) image) }
        ensures used { Use D.content D.dirty self.old.disk self.new.disk }

        // The first refusal that applies, with nothing changed.
        ensures refused { IfErr result (AddRefuses self.old.state (area_size (length (D.content self.old.disk))) op.now (self.new ≡ self.old)) }
        ensures taken { OnOk result (Takes self.old.state (area_size (length (D.content self.old.disk))) op.now) }

        ensures left { FallsBy 4 (D.left self.old.disk) (D.left self.new.disk) }
        ensures spent { IsErrOf result AddFault.Stopped → RanOut 4 (D.left self.old.disk) (D.left self.new.disk) }
        ensures later { D.faults self.old.disk ≤ D.faults self.new.disk }
        ensures rose { IsErrOf result AddFault.Stopped → Rose (D.faults self.old.disk) (D.faults self.new.disk) }
        ensures closed { IsErrOf result AddFault.Stopped → self.new.is_open ≡ false }
    {
        self.ready.add(alloc, &mut self.log, op)
    }

    /// Writes what is told of the folder, where it may come now. It is never full, and takes no memory.
    pub fn note(&mut self, note: &Note) -> Result<(), Stopped>
        requires open { self.old.is_open ≡ true }
        requires allowed { allows self.old.state (entry_of self.old.state note.now) ≡ true }

        ensures opened { OnOk result (self.new.is_open ≡ true) }
        ensures state { OnOk result (self.new.state ≡ done self.old.state (entry_of self.old.state note.now)) }
        ensures size { length (D.content self.new.disk) ≡ length (D.content self.old.disk) }

        // A power cut after Ok leaves the new state, and whatever is answered the old one or the new one.
        ensures durable { OnOk result (EachImage D.content D.dirty self.new.disk (HasState (done self.old.state (entry_of self.old.state note.now)))) }
        ensures every { EachImage D.content D.dirty self.new.disk (λ image. HasState self.old.state image ⊎ HasState (done self.old.state (entry_of self.old.state note.now)) image) }
        ensures used { Use D.content D.dirty self.old.disk self.new.disk }

        ensures left { FallsBy 4 (D.left self.old.disk) (D.left self.new.disk) }
        ensures spent { OnErr result (RanOut 4 (D.left self.old.disk) (D.left self.new.disk)) }
        ensures later { D.faults self.old.disk ≤ D.faults self.new.disk }
        ensures rose { OnErr result (Rose (D.faults self.old.disk) (D.faults self.new.disk)) }
        ensures closed { OnErr result (self.new.is_open ≡ false) }
    {
        self.ready.note(&mut self.log, note)
    }

    /// The queue.
    pub fn queue(&self) -> &[Operation]
        ensures { result.now ≡ self.now.state.queue }
    {
        self.ready.held.ops.as_slice()
    }

    /// The number of the known revision, or 0.
    pub fn known(&self) -> u32
        ensures { result ≡ self.now.state.known }
    {
        self.ready.held.known
    }

    /// The hash of the known revision, or zeros.
    pub fn known_hash(&self) -> &Hash
        ensures { result.now ≡ self.now.state.hash }
    {
        &self.ready.held.hash
    }

    /// The seq of the last operation, or 0.
    pub fn last(&self) -> u32
        ensures { result ≡ last_seq self.now.state }
    {
        self.ready.held.last()
    }

    /// Whether the queue is a branch.
    pub fn branched(&self) -> bool
        ensures { result ≡ self.now.state.mark }
    {
        self.ready.held.mark
    }

    /// Gives the disk back.
    pub fn finish(self) -> D
        ensures { result ≡ self.disk }
    {
        let Journal { log, .. } = self;
        log.finish()
    }
}

impl<D: CrashDisk> Journal<D> {
    /// Arms the disk, and keeps the state.
    pub fn arm(&mut self, steps: u32)
        ensures opened { self.new.is_open ≡ self.old.is_open }
        ensures state { self.new.state ≡ self.old.state }
        ensures content { D.content self.new.disk ≡ D.content self.old.disk }
        ensures dirty { (place : ℕ) → D.dirty self.new.disk place ≡ D.dirty self.old.disk place }
        ensures left { D.left self.new.disk ≡ Some steps }
        ensures faults { D.faults self.new.disk ≡ D.faults self.old.disk }
        ensures used { Use D.content D.dirty self.old.disk self.new.disk }
    {
        self.log.arm(steps);
    }

    /// Cuts the power and puts it on again, and gives the disk back, whose journal has to be opened again.
    pub fn power(self, pick: Pick) -> D
        ensures image { MayLeave (D.content self.disk) (D.dirty self.disk) (D.content result) }
        ensures clean { IsClean (D.dirty result) }
        ensures left { D.left result ≡ None }
        ensures faults { D.faults result ≡ D.faults self.disk }
        ensures used { Use D.content D.dirty self.disk result }
    {
        let mut disk = self.finish();
        disk.power(pick);
        disk
    }
}
