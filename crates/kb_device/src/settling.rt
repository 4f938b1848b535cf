//! How a branch is resolved.
ghost use Rattle.std.specs.Prelude.{◌≡◌, ◌≤◌, ◌<◌, ◌+◌, true, false, Err, IfOk, OnOk, OnErr, length};
ghost use Rattle.std.specs.List.{AllByRecursion};
ghost use Rattle.kb_edge.specs.Causes.{Rose};
ghost use Rattle.kb_ops.specs.Grammar.{IsProper};
ghost use Rattle.kb_folder.specs.Held.{held};
ghost use Rattle.kb_journal.specs.State.{allows};
ghost use Rattle.kb_journal.specs.declared.entries.Entry.TheVariants as entry;
ghost use Rattle.kb_keys.specs.Rings.{key_at};
ghost use Rattle.kb_device.specs.Inside.{IsRunning};
ghost use Rattle.kb_device.specs.Left.{PointsAll};
ghost use Rattle.kb_device.specs.Settling.{ends, IsAsked, SettleDoes, UnlessEnded, resolved, with_merge, CanSettle, can_settle};
ghost use Rattle.kb_device.specs.Noting.{Writes, Stops};
ghost use Rattle.kb_device.specs.Views.{inside, plan_of, platter};
ghost use Rattle.kb_device.specs.declared.settled.SettleFault.TheVariants as stop;

use crate::caching::keep_blocks;
use crate::head::Goal;
use crate::linked::{has_lost, put_over};
use crate::merge_requests::merge_request;
use crate::merged_pointers::left_by_merge;
use crate::session::Session;
use crate::settled::SettleFault;
use crate::step_requests::StepMade;
use kb_blocks::{BlockHash, Hash};
use kb_chain::{FolderRequest, hash_of};
use kb_edge::{Disk, Link, Memory, Stopped};
use kb_folder::Folder;
use kb_journal::Note;
use kb_keys::Role;
use kb_name::Moment;
use kb_ops::Op;
use kb_seal::{Key, Sealer};
use kb_snap::Pointers;
use kb_tree::Table;
use std::alloc::Global;

/// Whether a settle ends the session: the link lost something, or the disk stopped.
pub fn ends_session(settled: &Result<u32, SettleFault>) -> bool
    ensures { result ≡ ends settled.now }
{
    matches!(settled, Err(SettleFault::LinkFault | SettleFault::Stopped))
}

fn copies(alloc: Global, queue: &[Op]) -> Result<Vec<Op>, Memory>
    ensures { IfOk result (λ ops. ops.items ≡ queue.now) }
{
    Ok(queue.to_vec(alloc)?)
}

impl<D: Disk, H: BlockHash> Session<D, H> {
    fn can_settle(&self, goal: &Goal<H>) -> bool
        ensures { result ≡ can_settle (inside self.now) (plan_of goal.now) }
    {
        let count = self.queue_len();
        1 <= count
            && count <= 4096
            && 1 <= goal.number
            && self.journal.known() <= goal.number
            && goal.number < u32::MAX
            && 1 <= goal.generation
            && goal.generation <= 64
            && goal.ring.key(goal.generation).is_some()
    }

    // The request of the merge, whose tree is the table. The rows that the merged tree had already keep their blocks.
    fn merge_of<S: Sealer>(
        &self,
        alloc: Global,
        goal: &Goal<H>,
        table: &Table,
        d: u16,
        secret: &Key,
        moment: Moment,
    ) -> Result<StepMade, Memory>
        requires running { IsRunning (inside self.now) }
        requires numbered { 1 ≤ d }
        requires can { CanSettle (inside self.now) (plan_of goal.now) }
        ensures asked { IfOk result (λ made. IsAsked S.sealed S.signed H.hashed d secret.now moment (inside self.now) (plan_of goal.now) table.now.tree made.request made.pointers) }
        ensures all { IfOk result (λ made. PointsAll table.now.tree made.pointers) }
    {
        let queue = self.journal.queue();
        let count = self.queue_len();
        let last = self.journal.last();
        let Some(key) = goal.ring.key(goal.generation) else {
            unreachable!()
        };
        let ops = copies(alloc, queue)?;
        let left = left_by_merge(alloc, &goal.pointers, &goal.merged, table)?;
        merge_request::<S, H>(
            alloc,
            table,
            &left,
            ops,
            self.journal.known(),
            last - count + 1,
            last,
            d,
            moment,
            goal.number + 1,
            &goal.hash,
            secret,
            goal.generation,
            key,
        )
    }

    // The merge landed in the revision with this hash: the queue is empty, and the tree is the table.
    fn resolve(
        &mut self,
        goal: Goal<H>,
        table: Table,
        shown: Table,
        pointers: Pointers,
        hash: Hash,
        role: Option<Role>,
    ) -> Result<u32, Stopped>
        requires opened { self.old.journal.is_open ≡ true }
        requires can { CanSettle (inside self.old) (plan_of goal) }
        requires same { shown.tree ≡ table.tree }
        requires pointed { PointsAll table.tree pointers }
        ensures number { IfOk result (λ n. n ≡ goal.number + 1) }
        ensures session { OnOk result (inside self.new ≡ with_merge (inside self.old) (plan_of goal) table.tree pointers hash role) }
        ensures running { OnOk result (IsRunning (inside self.new)) }
        ensures opened { OnOk result (self.new.journal.is_open ≡ true) }
        ensures writes { OnOk result (Writes (resolved self.old.journal.state (goal.number + 1) hash) (platter D.Disk self.old.journal.disk) (platter D.Disk self.new.journal.disk)) }
        ensures stops { OnErr result (Stops self.old.journal.state (resolved self.old.journal.state (goal.number + 1) hash) (platter D.Disk self.old.journal.disk) (platter D.Disk self.new.journal.disk)) }
        ensures rose { OnErr result (Rose (D.faults self.old.journal.disk) (D.faults self.new.journal.disk)) }
    {
        let number = goal.number + 1;
        let count = self.queue_len();
        match self.journal.note(&Note::Merged {
            number,
            hash,
            count,
        }) {
            Ok(()) => {}
            Err(_) => return Err(Stopped),
        }
        self.base = table;
        self.ahead = 0;
        self.shown = shown;
        self.pointers = pointers;
        self.cache = goal.cache;
        self.written = None;
        self.ring = goal.ring;
        self.generation = goal.generation;
        self.role = role;
        self.aloft = None;
        self.plan = None;
        Ok(number)
    }

    /// Puts the merge of the plan over the link, and makes it known once the folder took it. The device's own memory is taken
    /// before anything goes over the link, also for the blocks that the plan's cache takes. A plan that the folder refused
    /// is dropped. Once the link has lost something the session has to end, and once the disk has stopped the journal has to
    /// be opened again.
    pub fn settle<S: Sealer, K: Link>(
        &mut self,
        alloc: Global,
        link: &mut K,
        folder: &mut Folder<S, H>,
        table: Table,
        d: u16,
        secret: &Key,
        moment: Moment,
    ) -> Result<u32, SettleFault>
        requires running { IsRunning (inside self.old) }
        requires opened { self.old.journal.is_open ≡ true }
        requires numbered { 1 ≤ d }
        ensures does { SettleDoes S.sealed S.signed H.hashed (held folder.old) (held folder.new) d secret.now moment table.tree (inside self.old) (platter D.Disk self.old.journal.disk) (inside self.new) (platter D.Disk self.new.journal.disk) (K.armed link.old) (K.armed link.new) result }
        ensures size { length (D.content self.new.journal.disk) ≡ length (D.content self.old.journal.disk) }
        ensures running { UnlessEnded result (IsRunning (inside self.new)) }
        ensures opened { UnlessEnded result (self.new.journal.is_open ≡ true) }
        ensures rose { result ≡ Err stop.Stopped → Rose (D.faults self.old.journal.disk) (D.faults self.new.journal.disk) }
        ensures lost { result ≡ Err stop.LinkFault → Rose (K.faults link.old) (K.faults link.new) }
    {
        let Some(mut goal) = self.plan.take() else {
            return Err(SettleFault::NoPlan);
        };
        if !self.can_settle(&goal) {
            self.plan = Some(goal);
            return Err(SettleFault::Memory);
        }
        let made = match self.merge_of::<S>(alloc, &goal, &table, d, secret, moment) {
            Ok(made) => made,
            Err(Memory) => {
                self.plan = Some(goal);
                return Err(SettleFault::Memory);
            }
        };
        let shown = match table.copy() {
            Ok(shown) => shown,
            Err(Memory) => {
                self.plan = Some(goal);
                return Err(SettleFault::Memory);
            }
        };
        let StepMade { request, pointers } = made;
        let blocks = request.blocks.as_slice();
        match keep_blocks(&mut goal.cache, blocks) {
            Ok(()) => {}
            Err(Memory) => {
                self.plan = Some(goal);
                return Err(SettleFault::Memory);
            }
        }
        let hash = hash_of(request.revision.as_slice());
        let answer = match put_over(link, folder, &request) {
            Ok(answer) => answer,
            Err(fault) => {
                if has_lost(fault) {
                    return Err(SettleFault::LinkFault);
                }
                self.plan = Some(goal);
                return Err(SettleFault::Memory);
            }
        };
        match answer {
            Ok(_) => {}
            Err(refusal) => return Err(SettleFault::ByPut(refusal)),
        }
        let role = folder.policy().role(d);
        match self.resolve(goal, table, shown, pointers, hash, role) {
            Ok(number) => Ok(number),
            Err(_) => Err(SettleFault::Stopped),
        }
    }
}
