//! The state in memory, and the buffers for a compaction and for a note.
ghost use Rattle.std.specs.Prelude.{◌≡◌, ◌⊎◌, ◌+◌, ◌≤◌, ◌<◌, ◌^◌, ◌++◌, [], ◌∷◌, true, false, List, ℕ, length, vec_capacity, IfOk, IfErr, OnOk, OnErr, IsErrOf};
ghost use Rattle.kb_edge.specs.Causes.{Rose};
ghost use Rattle.kb_edge.specs.Disk.{FallsBy};
ghost use Rattle.kb_ops.specs.Grammar.{IsOp, IsProper};
ghost use Rattle.kb_log.specs.Images.{EachImage, HasList};
ghost use Rattle.kb_log.specs.LogList.{area_size};
ghost use Rattle.kb_log.specs.Steps.{RanOut};
ghost use Rattle.kb_journal.specs.State.{State, Leads, HasState, empty, last_seq, takes_device, queued_text, use_of, allows, done, is_whole};

use crate::changes::write_change;
use crate::entries::{EntryFault, Note};
use crate::faults::AddFault;
use crate::folds::fold;
use crate::held::Held;
use crate::lines::make_line;
use crate::ranges::op_fits;
use kb_edge::{Disk, Memory, Stopped};
use kb_log::Log;
use kb_ops::Op as Operation;
use std::alloc::Global;

#[derive(Drop)]
pub struct Ready {
    pub held: Held,
    pub bytes: Vec<u8>,
    pub ends: Vec<u32>,
    pub line: Vec<u8>,
}

fn buffers(alloc: Global, area: usize) -> Result<(Vec<u8>, Vec<u32>, Vec<u8>), Memory>
    ensures { IfOk result (λ made. (area ≤ vec_capacity made.0) × (4097 ≤ vec_capacity made.1) × (42 ≤ vec_capacity made.2)) }
{
    let bytes = Vec::with_capacity(alloc, area)?;
    let ends = Vec::with_capacity(alloc, 4097)?;
    let line = Vec::with_capacity(alloc, 42)?;
    Ok((bytes, ends, line))
}

impl Ready {
    ghost use Rattle.kb_journal.specs.Held.{state_of};
    ghost use Rattle.kb_journal.specs.Notes.{entry_of};
    ghost use Rattle.kb_journal.specs.Seen.{IsReady};
    ghost use Rattle.kb_journal.specs.Adding.{AddRefuses, Takes};
    ghost use Rattle.kb_journal.specs.declared.entries.Entry.TheVariants as entries;

    /// The state of a log that was just opened.
    pub fn make<D: Disk>(alloc: Global, log: &Log<D>) -> Result<Ready, EntryFault>
        requires open { log.now.is_open ≡ true }
        requires listed { EachImage D.content D.dirty log.now.disk (HasList log.now.payloads) }
        ensures ready { IfOk result (λ r. IsReady D.content D.dirty log.now r) }
        ensures bad { result ≡ Err EntryFault.BadEntry → (s : State) → Leads empty log.now.payloads s → is_whole (area_size (length (D.content log.now.disk))) s ≡ true → ⊥ }
    {
        let payloads = match log.payloads(alloc) {
            Ok(payloads) => payloads,
            Err(Memory) => return Err(EntryFault::Memory),
        };
        let held = match fold(alloc, payloads) {
            Ok(held) => held,
            Err(fault) => return Err(fault),
        };
        let area = log.area();
        if !held.is_whole(area) {
            return Err(EntryFault::BadEntry);
        }
        match buffers(alloc, area as usize) {
            Ok((bytes, ends, line)) => Ok(Ready {
                held,
                bytes,
                ends,
                line,
            }),
            Err(Memory) => Err(EntryFault::Memory),
        }
    }

    /// Queues an operation and writes it.
    pub fn add<D: Disk>(
        &mut self,
        alloc: Global,
        log: &mut Log<D>,
        op: &Operation,
    ) -> Result<(), AddFault>
        requires open { log.old.is_open ≡ true }
        requires ready { IsReady D.content D.dirty log.old self.old }
        requires proper { IsProper op.now }
        requires device { takes_device self.old.held.ops.items op.now.device ≡ true }
        requires next { last_seq (state_of self.old.held) + 1 < 2 ^ 32 → op.now.seq ≡ last_seq (state_of self.old.held) + 1 }

        ensures opened { OnOk result (log.new.is_open ≡ true) }
        ensures ready { log.new.is_open ≡ true → IsReady D.content D.dirty log.new self.new }
        ensures state { OnOk result (state_of self.new.held ≡ done (state_of self.old.held) (entries.Op op.now)) }
        ensures size { length (D.content log.new.disk) ≡ length (D.content log.old.disk) }
        ensures durable { OnOk result (EachImage D.content D.dirty log.new.disk (HasState (done (state_of self.old.held) (entries.Op op.now)))) }
        ensures every { EachImage D.content D.dirty log.new.disk (λ image. HasState (state_of self.old.held) image ⊎ HasState (done (state_of self.old.held) (entries.Op op.now)) image) }
        ensures refused { IfErr result (AddRefuses (state_of self.old.held) (area_size (length (D.content log.old.disk))) op.now ((state_of self.new.held ≡ state_of self.old.held) × (log.new ≡ log.old))) }
        ensures taken { OnOk result (Takes (state_of self.old.held) (area_size (length (D.content log.old.disk))) op.now) }
        ensures left { FallsBy 4 (D.left log.old.disk) (D.left log.new.disk) }
        ensures spent { IsErrOf result AddFault.Stopped → RanOut 4 (D.left log.old.disk) (D.left log.new.disk) }
        ensures later { D.faults log.old.disk ≤ D.faults log.new.disk }
        ensures rose { IsErrOf result AddFault.Stopped → Rose (D.faults log.old.disk) (D.faults log.new.disk) }
        ensures closed { IsErrOf result AddFault.Stopped → log.new.is_open ≡ false }
    {
        op_fits(op);
        let area = log.area();
        let text = match self.held.check(alloc, op, area) {
            Ok(text) => text,
            Err(fault) => return Err(fault),
        };
        match self.held.queue_copy(op, text) {
            Ok(()) => {}
            Err(Memory) => return Err(AddFault::Memory),
        }
        let held = &self.held;
        let Some(payload) = held.texts.as_slice().last() else {
            unreachable!()
        };
        match write_change(log, &mut self.bytes, &mut self.ends, held, payload) {
            Ok(()) => Ok(()),
            Err(Stopped) => Err(AddFault::Stopped),
        }
    }

    /// Writes what is told of the folder.
    pub fn note<D: Disk>(&mut self, log: &mut Log<D>, note: &Note) -> Result<(), Stopped>
        requires open { log.old.is_open ≡ true }
        requires ready { IsReady D.content D.dirty log.old self.old }
        requires allowed { allows (state_of self.old.held) (entry_of (state_of self.old.held) note.now) ≡ true }

        ensures opened { OnOk result (log.new.is_open ≡ true) }
        ensures ready { log.new.is_open ≡ true → IsReady D.content D.dirty log.new self.new }
        ensures state { state_of self.new.held ≡ done (state_of self.old.held) (entry_of (state_of self.old.held) note.now) }
        ensures size { length (D.content log.new.disk) ≡ length (D.content log.old.disk) }
        ensures durable { OnOk result (EachImage D.content D.dirty log.new.disk (HasState (done (state_of self.old.held) (entry_of (state_of self.old.held) note.now)))) }
        ensures every { EachImage D.content D.dirty log.new.disk (λ image. HasState (state_of self.old.held) image ⊎ HasState (done (state_of self.old.held) (entry_of (state_of self.old.held) note.now)) image) }
        ensures left { FallsBy 4 (D.left log.old.disk) (D.left log.new.disk) }
        ensures spent { OnErr result (RanOut 4 (D.left log.old.disk) (D.left log.new.disk)) }
        ensures later { D.faults log.old.disk ≤ D.faults log.new.disk }
        ensures rose { OnErr result (Rose (D.faults log.old.disk) (D.faults log.new.disk)) }
        ensures closed { OnErr result (log.new.is_open ≡ false) }
    {
        let last = self.held.last();
        let mark = self.held.mark;
        make_line(&mut self.line, note, last, mark);
        self.held.note(note);
        match write_change(log, &mut self.bytes, &mut self.ends, &self.held, &self.line) {
            Ok(()) => Ok(()),
            Err(Stopped) => Err(Stopped),
        }
    }
}
