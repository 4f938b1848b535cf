//! A session: an open journal, the tree of the known revision, the tree that the queue makes of it, and what a request
//! needs.
ghost use Rattle.std.specs.Prelude.{◌≡◌, ◌≤◌, ◌<◌, ℕ, true, false, [], length, IfOk, OnOk, OnErr, Err, IsSome};
ghost use Rattle.kb_edge.specs.Causes.{Rose};
ghost use Rattle.kb_journal.specs.State.{allows};
ghost use Rattle.kb_journal.specs.declared.entries.Entry.TheVariants as entry;
ghost use Rattle.kb_device.specs.Noting.{Writes, Stops, landed, parted, with_landed, NoteDoes, UnlessStopped};
ghost use Rattle.kb_device.specs.Pulling.{headed, with_head, IsReadable, PullDoes, UnlessStopped as UnlessPullStopped};
ghost use Rattle.kb_folder.specs.Held.{held};
ghost use Rattle.kb_device.specs.declared.answers.PullFault.TheVariants as pull;
ghost use Rattle.kb_device.specs.declared.answers.Noted.TheVariants as noted;
ghost use Rattle.kb_device.specs.declared.answers.NoteFault.TheVariants as stop;
ghost use Rattle.kb_ops.specs.Trees.{Fits};
ghost use Rattle.kb_ops.specs.Grammar.{IsProper};
ghost use Rattle.kb_keys.specs.Rings.{key_at};
ghost use Rattle.kb_device.specs.Fresh.{IsOwned};
ghost use Rattle.kb_device.specs.Inside.{IsRunning, HasDone};
ghost use Rattle.kb_device.specs.Views.{inside, aloft_of, platter, read_of};
ghost use Rattle.kb_device.specs.Caches.{Takes};
ghost use Rattle.kb_device.specs.Left.{AreOf, KeepsBeside, PointsAll};
ghost use Rattle.kb_device.specs.Picking.{PickDoes, FirstOf, IsMade, with_left};
ghost use Rattle.kb_device.specs.declared.answers.PickFault.TheVariants as fault;

use crate::answers::{NoteFault, Noted, PickFault, Picked, PullFault, PutAnswer};
use crate::caching::keep_blocks;
use crate::head::{Goal, Head};
use crate::heading::read_next;
use crate::left_pointers::forget_touched;
use crate::patching::{OldFile, old_file};
use crate::reading::ReadFault;
use crate::step_requests::{StepMade, step_request};
use kb_apply::{apply, prepare};
use kb_blocks::{BlockHash, Hash, Store};
use kb_chain::PutRefusal;
use kb_edge::{Disk, Memory, Stopped};
use kb_folder::Folder;
use kb_journal::{Journal, Note};
use kb_keys::{KeyRing, Role};
use kb_ops::Op;
use kb_seal::{Key, Sealer};
use kb_snap::Pointers;
use kb_tree::Table;
use std::alloc::Global;

/// What is in flight: so many first operations of the queue, from this seq on, as the revision with this number. The
/// pointers are those of the tree after it.
#[derive(Drop)]
pub struct Flight {
    pub first: u32,
    pub count: u32,
    pub number: u32,
    pub pointers: Pointers,
}

/// An open session. The base table is the tree of the known revision, with so many first operations of the queue done
/// as it is ahead. A file that such an operation wrote is kept as it was. The cache has the blocks that the pointers
/// reach, and is none where two blocks of one hash met.
#[derive(Drop)]
pub struct Session<D: Disk, H: BlockHash> {
    pub journal: Journal<D>,
    pub base: Table,
    pub ahead: u32,
    pub shown: Table,
    pub pointers: Pointers,
    pub cache: Option<Store<H>>,
    pub written: Option<OldFile>,
    pub ring: KeyRing,
    pub generation: u32,
    pub role: Option<Role>,
    pub aloft: Option<Flight>,
    pub plan: Option<Goal<H>>,
}

fn copy_of(op: &Op) -> Result<Op, Memory>
    ensures { IfOk result (λ same. same ≡ op.now) }
{
    Ok(op.clone()?)
}

// The first operation of a queue.
fn first_of(queue: &[Op]) -> Result<Op, PickFault>
    ensures { FirstOf queue.now result }
{
    match queue {
        [] => Err(PickFault::Idle),
        [op, _rest @ ..] => match copy_of(op) {
            Ok(op) => Ok(op),
            Err(Memory) => Err(PickFault::Memory),
        },
    }
}

// Whether an operation waits.
fn is_waiting(queue: &[Op]) -> bool
    ensures some { result ≡ true → 0 < length queue.now }
    ensures none { result ≡ false → queue.now ≡ [] }
{
    !queue.is_empty()
}

// Does the first operation on the base table, where that isn't ahead yet, and drops the pointers that it touches. A file
// that it writes is kept as it was.
fn go_ahead(
    alloc: Global,
    base: &mut Table,
    pointers: &mut Pointers,
    ahead: &mut u32,
    written: &mut Option<OldFile>,
    op: &Op,
) -> Result<(), Memory>
    requires few { ahead.old ≤ 1 }
    requires fits { ahead.old ≡ 0 → Fits op.now base.old.tree }
    ensures ok { OnOk result (HasDone op.now ahead.old ahead.new base.old.tree base.new.tree pointers.old pointers.new written.old written.new) }
    ensures base { OnErr result (base.new.tree ≡ base.old.tree) }
    ensures pointers { OnErr result (pointers.new ≡ pointers.old) }
    ensures ahead { OnErr result (ahead.new ≡ ahead.old) }
    ensures written { OnErr result (written.new ≡ written.old) }
{
    if *ahead != 0 {
        return Ok(());
    }
    let prepared = prepare(alloc, base, op)?;
    *written = old_file(pointers, base, &op.change);
    forget_touched(pointers, base, &op.change);
    apply(base, prepared);
    *ahead = 1;
    Ok(())
}

impl<D: Disk, H: BlockHash> Session<D, H> {
    // The request of an operation that the base table has already, and its flight. The cache takes its blocks.
    fn request<S: Sealer>(
        &mut self,
        alloc: Global,
        op: Op,
        secret: &Key,
    ) -> Result<(Picked, Flight), Memory>
        requires known { 1 ≤ self.old.journal.state.known }
        requires proper { IsProper op }
        requires generation { (1 ≤ self.old.generation) × (self.old.generation ≤ 64) }
        requires keyed { IsSome (key_at self.old.ring self.old.generation) }
        ensures made { IfOk result (λ made. IsMade S.sealed S.signed H.hashed secret.now (inside self.new) op self.old.pointers self.old.cache made.0 (aloft_of made.1)) }
        ensures takes { IfOk result (λ made. Takes H.hashed self.old.cache made.0.request.blocks self.new.cache) }
        ensures session { inside self.new ≡ with_left (inside self.old) (inside self.new) }
        ensures left { AreOf self.new.pointers self.old.pointers }
        ensures beside { KeepsBeside self.old.base.tree op.change self.old.pointers self.new.pointers }
        ensures cache { OnErr result (self.new.cache ≡ self.old.cache) }
        ensures journal { self.new.journal ≡ self.old.journal }
    {
        let seq = op.seq;
        let Some(number) = self.journal.known().checked_add(1) else {
            return Err(Memory);
        };
        let Some(key) = self.ring.key(self.generation) else {
            unreachable!()
        };
        let head = self.journal.known_hash();
        let made = match step_request::<S, H>(
            alloc,
            &self.base,
            &mut self.pointers,
            op,
            self.written,
            &self.cache,
            number,
            head,
            secret,
            self.generation,
            &self.ring,
            key,
        ) {
            Ok(made) => made,
            Err(Memory) => return Err(Memory),
        };
        let StepMade { request, pointers } = made;
        let blocks = request.blocks.as_slice();
        match keep_blocks(&mut self.cache, blocks) {
            Ok(()) => {}
            Err(Memory) => return Err(Memory),
        }
        let picked = Picked {
            seq,
            number,
            request,
        };
        let flight = Flight {
            first: seq,
            count: 1,
            number,
            pointers,
        };
        Ok((picked, flight))
    }

    /// The request that lands the first operation of the queue, which is in flight then.
    pub fn pick<S: Sealer>(&mut self, alloc: Global, secret: &Key) -> Result<Picked, PickFault>
        requires running { IsRunning (inside self.old) }
        ensures does { PickDoes S.sealed S.signed H.hashed secret.now (inside self.old) (inside self.new) result }
        ensures running { IsRunning (inside self.new) }
        ensures owned { (d : ℕ) → IsOwned d (inside self.old) → IsOwned d (inside self.new) }
        ensures journal { self.new.journal ≡ self.old.journal }
    {
        if self.aloft.is_some() {
            return Err(PickFault::InFlight);
        }
        if self.journal.branched() {
            return Err(PickFault::Branched);
        }
        let op = first_of(self.journal.queue())?;
        match go_ahead(
            alloc,
            &mut self.base,
            &mut self.pointers,
            &mut self.ahead,
            &mut self.written,
            &op,
        ) {
            Ok(()) => {}
            Err(Memory) => return Err(PickFault::Memory),
        }
        let (picked, flight) = match self.request::<S>(alloc, op, secret) {
            Ok(made) => made,
            Err(Memory) => return Err(PickFault::Memory),
        };
        self.aloft = Some(flight);
        Ok(picked)
    }

    /// Makes a revision known that was read, where no operation waits. Once the disk has stopped, the journal has to be
    /// opened again.
    pub fn know(&mut self, head: Head<H>) -> Result<(), Stopped>
        requires running { IsRunning (inside self.old) }
        requires opened { self.old.journal.is_open ≡ true }
        requires flushed { self.old.journal.state.queue ≡ [] }
        requires later { self.old.journal.state.known ≤ head.number }
        requires readable { IsReadable (read_of head) }
        requires pointed { PointsAll head.base.tree head.pointers }
        requires same { head.shown.tree ≡ head.base.tree }
        ensures session { OnOk result (inside self.new ≡ with_head (inside self.old) (read_of head) head.role) }
        ensures running { OnOk result (IsRunning (inside self.new)) }
        ensures opened { OnOk result (self.new.journal.is_open ≡ true) }
        ensures writes { OnOk result (Writes (headed self.old.journal.state (read_of head)) (platter D.Disk self.old.journal.disk) (platter D.Disk self.new.journal.disk)) }
        ensures stops { OnErr result (Stops self.old.journal.state (headed self.old.journal.state (read_of head)) (platter D.Disk self.old.journal.disk) (platter D.Disk self.new.journal.disk)) }
        ensures rose { OnErr result (Rose (D.faults self.old.journal.disk) (D.faults self.new.journal.disk)) }
    {
        let number = head.number;
        let hash = head.hash;
        match self.journal.note(&Note::Head { number, hash }) {
            Ok(()) => {}
            Err(_) => return Err(Stopped),
        }
        self.base = head.base;
        self.ahead = 0;
        self.shown = head.shown;
        self.pointers = head.pointers;
        self.cache = head.cache;
        self.written = None;
        self.ring = head.ring;
        self.generation = head.generation;
        self.role = head.role;
        Ok(())
    }

    /// Makes the folder's last revision known, where no operation waits. Once the disk has stopped, the journal has to be
    /// opened again.
    pub fn pull<S: Sealer>(
        &mut self,
        alloc: Global,
        folder: &Folder<S, H>,
        d: u16,
        secret: &Key,
    ) -> Result<u32, PullFault>
        requires running { IsRunning (inside self.old) }
        requires opened { self.old.journal.is_open ≡ true }
        requires numbered { 1 ≤ d }
        ensures does { PullDoes S.sealed S.signed H.hashed (held folder.now) d secret.now (inside self.old) (platter D.Disk self.old.journal.disk) (inside self.new) (platter D.Disk self.new.journal.disk) result }
        ensures running { UnlessPullStopped result (IsRunning (inside self.new)) }
        ensures owned { UnlessPullStopped result (IsOwned d (inside self.old) → IsOwned d (inside self.new)) }
        ensures size { length (D.content self.new.journal.disk) ≡ length (D.content self.old.journal.disk) }
        ensures opened { UnlessPullStopped result (self.new.journal.is_open ≡ true) }
        ensures rose { result ≡ Err pull.Stopped → Rose (D.faults self.old.journal.disk) (D.faults self.new.journal.disk) }
    {
        let known = self.journal.known();
        let lent = match folder.fetch(d, known) {
            Ok(lent) => lent,
            Err(_) => return Err(PullFault::NotMember),
        };
        if is_waiting(self.journal.queue()) {
            return Err(PullFault::Unflushed);
        }
        if lent.is_empty() {
            return Ok(known);
        }
        let number = folder.length();
        let head = match read_next(
            alloc,
            folder,
            d,
            secret,
            &self.ring,
            self.generation,
            known,
            self.journal.last(),
            lent,
        ) {
            Ok(head) => head,
            Err(ReadFault::BadFolder) => return Err(PullFault::BadFolder { number }),
            Err(ReadFault::Memory) => return Err(PullFault::Memory),
        };
        let number = head.number;
        match self.know(head) {
            Ok(()) => Ok(number),
            Err(_) => Err(PullFault::Stopped),
        }
    }

    // The flight landed in the revision with this hash: its operation leaves the queue.
    fn land(&mut self, flight: Flight, hash: Hash) -> Result<Noted, NoteFault>
        requires opened { self.old.journal.is_open ≡ true }
        requires allowed { allows self.old.journal.state (entry.Landed flight.number hash) ≡ true }
        ensures answer { IfOk result (λ answer. answer ≡ noted.Landed flight.number) }
        ensures fault { OnErr result (result ≡ Err stop.Stopped) }
        ensures session { OnOk result (inside self.new ≡ with_landed (inside self.old) (aloft_of flight) hash) }
        ensures opened { OnOk result (self.new.journal.is_open ≡ true) }
        ensures writes { OnOk result (Writes (landed self.old.journal.state (aloft_of flight) hash) (platter D.Disk self.old.journal.disk) (platter D.Disk self.new.journal.disk)) }
        ensures stops { OnErr result (Stops self.old.journal.state (landed self.old.journal.state (aloft_of flight) hash) (platter D.Disk self.old.journal.disk) (platter D.Disk self.new.journal.disk)) }
        ensures rose { OnErr result (Rose (D.faults self.old.journal.disk) (D.faults self.new.journal.disk)) }
    {
        let number = flight.number;
        match self.journal.note(&Note::Landed { number, hash }) {
            Ok(()) => {}
            Err(_) => return Err(NoteFault::Stopped),
        }
        self.pointers = flight.pointers;
        self.ahead = 0;
        self.written = None;
        self.aloft = None;
        Ok(Noted::Landed { number })
    }

    // Another revision came first: the queue is a branch.
    fn part(&mut self) -> Result<Noted, NoteFault>
        requires opened { self.old.journal.is_open ≡ true }
        requires allowed { allows self.old.journal.state entry.Branched ≡ true }
        ensures answer { IfOk result (λ answer. answer ≡ noted.Branched self.old.journal.state.known) }
        ensures fault { OnErr result (result ≡ Err stop.Stopped) }
        ensures session { OnOk result (inside self.new ≡ record (inside self.old) { journal = parted self.old.journal.state }) }
        ensures opened { OnOk result (self.new.journal.is_open ≡ true) }
        ensures writes { OnOk result (Writes (parted self.old.journal.state) (platter D.Disk self.old.journal.disk) (platter D.Disk self.new.journal.disk)) }
        ensures stops { OnErr result (Stops self.old.journal.state (parted self.old.journal.state) (platter D.Disk self.old.journal.disk) (platter D.Disk self.new.journal.disk)) }
        ensures rose { OnErr result (Rose (D.faults self.old.journal.disk) (D.faults self.new.journal.disk)) }
    {
        let at = self.journal.known();
        match self.journal.note(&Note::Branched) {
            Ok(()) => {}
            Err(_) => return Err(NoteFault::Stopped),
        }
        Ok(Noted::Branched { at })
    }

    /// Ends the flight with the answer to its put: what landed leaves the queue, and what came late is a branch. Once the
    /// disk has stopped, the journal has to be opened again.
    pub fn note(&mut self, answer: &PutAnswer) -> Result<Noted, NoteFault>
        requires running { IsRunning (inside self.old) }
        requires opened { self.old.journal.is_open ≡ true }
        ensures does { NoteDoes (inside self.old) (platter D.Disk self.old.journal.disk) answer.now (inside self.new) (platter D.Disk self.new.journal.disk) result }
        ensures running { UnlessStopped result (IsRunning (inside self.new)) }
        ensures owned { UnlessStopped result ((d : ℕ) → IsOwned d (inside self.old) → IsOwned d (inside self.new)) }
        ensures size { length (D.content self.new.journal.disk) ≡ length (D.content self.old.journal.disk) }
        ensures opened { UnlessStopped result (self.new.journal.is_open ≡ true) }
        ensures rose { result ≡ Err stop.Stopped → Rose (D.faults self.old.journal.disk) (D.faults self.new.journal.disk) }
    {
        let Some(flight) = self.aloft.take() else {
            return Err(NoteFault::NoFlight);
        };
        let refusal = match answer.number {
            Ok(_) => return self.land(flight, answer.hash),
            Err(refusal) => refusal,
        };
        match refusal {
            PutRefusal::Stale { .. } => self.part(),
            _ => Ok(Noted::Kept),
        }
    }
}
