//! File calls, shows and the status of a session.
ghost use Rattle.std.specs.Prelude.{◌≡◌, ◌≤◌, ◌+◌, true, false, None, Err, IfOk, IfErr, OnOk, OnErr, IsErrOf, length};
ghost use Rattle.kb_edge.specs.Causes.{Rose};
ghost use Rattle.kb_log.specs.LogList.{area_size};
ghost use Rattle.kb_ops.specs.Grammar.{IsProper};
ghost use Rattle.kb_ops.specs.Plan.{plan_of};
ghost use Rattle.kb_ops.specs.Trees as trees;
ghost use Rattle.kb_ops.specs.Trees.{Fits, look};
ghost use Rattle.kb_apply.specs.Prepared.{FitsIfMade};
ghost use Rattle.kb_journal.specs.Adding.{Takes};
ghost use Rattle.kb_journal.specs.State.{last_seq, takes_device};
ghost use Rattle.kb_keys.specs.Members.{is_writer};
ghost use Rattle.kb_device.specs.Calling.{queued, IsPlan, OpRefuses, Stays, AddDoes, CallDoes, UnlessStopped, refusal_of_add, is_stopped};
ghost use Rattle.kb_device.specs.Fresh.{IsOwned};
ghost use Rattle.kb_device.specs.Inside.{IsRunning};
ghost use Rattle.kb_device.specs.Noting.{Writes, Stops};
ghost use Rattle.kb_device.specs.Views.{inside, platter};
ghost use Rattle.kb_device.specs.declared.called.CallFault.TheVariants as refusal;
ghost use Rattle.kb_device.specs.Telling.{told_status, status_in, IsShown};
ghost use Rattle.kb_apply.specs.Shows.{shown_of};

use crate::called::{CallFault, Called, LookFault, Status};
use crate::session::Session;
use kb_apply::{ShowFault, apply, plan, prepare, show as show_table};
use kb_blocks::BlockHash;
use kb_edge::{Disk, Memory};
use kb_journal::{AddFault, Journal};
use kb_keys::Role;
use kb_name::Moment;
use kb_ops::{Op, PlanFault, Planned, Request, Show, Shown};
use kb_tree::Table;
use std::alloc::Global;

impl From<AddFault> for CallFault {
    ghost use Rattle.std.specs.Prelude.{◌≡◌};
    ghost use Rattle.kb_device.specs.Calling.{refusal_of_add};

    ghost from_gives = { λ f e. e ≡ refusal_of_add f };

    fn from(fault: AddFault) -> Self {
        match fault {
            AddFault::Spent => CallFault::Spent,
            AddFault::QueueFull => CallFault::QueueFull,
            AddFault::Full { need, room } => CallFault::Full { need, room },
            AddFault::Memory => CallFault::Memory,
            AddFault::Stopped => CallFault::Stopped,
        }
    }
}

// Whether the disk stopped in a call.
pub fn has_stopped_calling(answer: &Result<Called, CallFault>) -> bool
    ensures { result ≡ is_stopped answer.now }
{
    matches!(answer, Err(CallFault::Stopped))
}

fn may_write(role: &Option<Role>) -> bool
    ensures { result ≡ is_writer role.now }
{
    matches!(role, Some(Role::Writer))
}

// What a request comes to.
fn plan_request(
    alloc: Global,
    table: &Table,
    request: &Request,
    number: u16,
    seq: u32,
    moment: Moment,
) -> Result<Planned, CallFault>
    ensures plan { IsPlan (plan_of table.now.tree request.now number seq moment) result }
    ensures fits { look table.now.tree (record { device = number; seq = seq; part = 0 }) ≡ None → IfOk result (λ planned. FitsIfMade planned table.now.tree) }
{
    match plan(alloc, table, request, number, seq, moment) {
        Ok(planned) => Ok(planned),
        Err(PlanFault::Memory) => Err(CallFault::Memory),
        Err(fault) => Err(CallFault::ByPlan(fault)),
    }
}

// Queues an operation that fits, and then does it on the table. All memory is taken before the disk is written.
fn queue_op<D: Disk>(
    alloc: Global,
    journal: &mut Journal<D>,
    table: &mut Table,
    op: Op,
) -> Result<(), AddFault>
    requires opened { journal.old.is_open ≡ true }
    requires proper { IsProper op }
    requires device { takes_device journal.old.state.queue op.device ≡ true }
    requires next { op.seq ≡ last_seq journal.old.state + 1 }
    requires fits { Fits op table.old.tree }
    ensures opened { OnOk result (journal.new.is_open ≡ true) }
    ensures state { OnOk result (journal.new.state ≡ queued journal.old.state op) }
    ensures table { OnOk result (table.new.tree ≡ trees.apply op table.old.tree) }
    ensures same { OnErr result (table.new.tree ≡ table.old.tree) }
    ensures writes { OnOk result (Writes (queued journal.old.state op) (platter D.Disk journal.old.disk) (platter D.Disk journal.new.disk)) }
    ensures stops { IsErrOf result AddFault.Stopped → Stops journal.old.state (queued journal.old.state op) (platter D.Disk journal.old.disk) (platter D.Disk journal.new.disk) }
    ensures refused { IfErr result (OpRefuses journal.old.state (area_size (length (D.content journal.old.disk))) op (journal.new ≡ journal.old)) }
    ensures taken { OnOk result (Takes journal.old.state (area_size (length (D.content journal.old.disk))) op) }
    ensures rose { IsErrOf result AddFault.Stopped → Rose (D.faults journal.old.disk) (D.faults journal.new.disk) }
{
    let prepared = match prepare(alloc, table, &op) {
        Ok(prepared) => prepared,
        Err(Memory) => return Err(AddFault::Memory),
    };
    match journal.add_op(alloc, &op) {
        Ok(()) => {
            apply(table, prepared);
            Ok(())
        }
        Err(fault) => Err(fault),
    }
}

impl<D: Disk, H: BlockHash> Session<D, H> {
    // The number of queued operations.
    pub fn queue_len(&self) -> u32
        ensures { result ≡ length self.now.journal.state.queue }
    {
        let _last = self.journal.last();
        self.journal.queue().len() as u32
    }

    /// What is told of a session.
    pub fn status(&self) -> Status
        ensures { told_status result ≡ status_in (inside self.now) }
    {
        Status {
            at: self.journal.known(),
            queue: self.queue_len(),
            last: self.journal.last(),
            branched: self.journal.branched(),
            flight: self.aloft.is_some(),
        }
    }

    /// What a session shows of its tree.
    pub fn show(&self, alloc: Global, show: &Show) -> Result<Shown, LookFault>
        ensures { IsShown (shown_of self.now.shown.tree show.now self.now.journal.state.known (length self.now.journal.state.queue)) result }
    {
        let known = self.journal.known();
        match show_table(alloc, &self.shown, show, known, self.queue_len()) {
            Ok(shown) => Ok(shown),
            Err(ShowFault::Memory) => Err(LookFault::Memory),
            Err(fault) => Err(LookFault::ByShow(fault)),
        }
    }

    // Queues an operation of the device with the next seq.
    fn add(&mut self, alloc: Global, op: Op) -> Result<Called, CallFault>
        requires running { IsRunning (inside self.old) }
        requires opened { self.old.journal.is_open ≡ true }
        requires device { takes_device self.old.journal.state.queue op.device ≡ true }
        requires next { op.seq ≡ last_seq self.old.journal.state + 1 }
        requires fits { Fits op self.old.shown.tree }
        requires proper { IsProper op }
        ensures does { AddDoes (inside self.old) (platter D.Disk self.old.journal.disk) op (inside self.new) (platter D.Disk self.new.journal.disk) result }
        ensures running { UnlessStopped result (IsRunning (inside self.new)) }
        ensures opened { UnlessStopped result (self.new.journal.is_open ≡ true) }
        ensures rose { result ≡ Err refusal.Stopped → Rose (D.faults self.old.journal.disk) (D.faults self.new.journal.disk) }
    {
        let seq = op.seq;
        match queue_op(alloc, &mut self.journal, &mut self.shown, op) {
            Ok(()) => {}
            Err(fault) => return Err(CallFault::from(fault)),
        }
        self.plan = None;
        Ok(Called::Done { seq })
    }

    // A file call where no seq is left: what would be an operation is refused.
    fn call_without_seq(
        &self,
        alloc: Global,
        number: u16,
        request: &Request,
        moment: Moment,
    ) -> Result<Called, CallFault>
        requires spent { last_seq self.now.journal.state ≡ 4294967295 }
        requires writes { is_writer self.now.role ≡ true }
        ensures does { CallDoes number (inside self.now) (platter D.Disk self.now.journal.disk) request.now moment (inside self.now) (platter D.Disk self.now.journal.disk) result }
        ensures goes_on { is_stopped result ≡ false }
    {
        let seq = self.journal.last();
        match plan_request(alloc, &self.shown, request, number, seq, moment) {
            Err(fault) => Err(fault),
            Ok(Planned::Same) => Ok(Called::Same),
            Ok(Planned::Made(_)) => Err(CallFault::Spent),
        }
    }

    /// Does a file call of the device with this number at this moment: its operation stands in the journal and changes the
    /// table that is shown before it is acknowledged.
    pub fn call(
        &mut self,
        alloc: Global,
        number: u16,
        request: &Request,
        moment: Moment,
    ) -> Result<Called, CallFault>
        requires running { IsRunning (inside self.old) }
        requires owned { IsOwned number (inside self.old) }
        requires opened { self.old.journal.is_open ≡ true }
        requires numbered { 1 ≤ number }
        ensures owned { UnlessStopped result (IsOwned number (inside self.new)) }
        ensures size { length (D.content self.new.journal.disk) ≡ length (D.content self.old.journal.disk) }
        ensures does { CallDoes number (inside self.old) (platter D.Disk self.old.journal.disk) request.now moment (inside self.new) (platter D.Disk self.new.journal.disk) result }
        ensures running { UnlessStopped result (IsRunning (inside self.new)) }
        ensures opened { UnlessStopped result (self.new.journal.is_open ≡ true) }
        ensures rose { result ≡ Err refusal.Stopped → Rose (D.faults self.old.journal.disk) (D.faults self.new.journal.disk) }
    {
        if !may_write(&self.role) {
            return Err(CallFault::ReadOnly);
        }
        if self.journal.last() == u32::MAX {
            return self.call_without_seq(alloc, number, request, moment);
        }
        let seq = self.journal.last() + 1;
        self.shown.is_well_formed();
        match plan_request(alloc, &self.shown, request, number, seq, moment) {
            Err(fault) => Err(fault),
            Ok(Planned::Same) => Ok(Called::Same),
            Ok(Planned::Made(op)) => self.add(alloc, op),
        }
    }
}
