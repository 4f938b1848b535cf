//! A device.
ghost use Rattle.std.specs.Prelude.{◌≡◌, ◌≤◌, not, is_some, length, None, Some};
ghost use Rattle.std.specs.Option.{ForSome};
ghost use Rattle.kb_device.specs.Sizes.{IsSized};

use crate::answers::{NoteFault, Noted, OpenFault, PickFault, Picked, PullFault, PutAnswer};
use crate::called::{CallFault, Called, Closed, LookFault, Status};
use crate::calling::has_stopped_calling;
use crate::fetched::FetchFault;
use crate::lent::Branch;
use crate::part_laws::{picks_law, settles_law};
use crate::patching::few_law;
use crate::power::{arm, cut};
use crate::resting::{fill, has_stopped, has_stopped_pulling, rest};
use crate::session::Session;
use crate::settled::SettleFault;
use crate::settling::ends_session;
use kb_blocks::BlockHash;
use kb_edge::{CrashDisk, Disk, Link, Pick};
use kb_folder::{Folder, machine_law};
use kb_name::{DeviceName, Moment};
use kb_ops::{Request, Show, Shown};
use kb_seal::{Key, Sealer};
use kb_tree::Table;
use std::alloc::Global;
use std::marker::PhantomData;

/// A device with its disk. While a session is open, the session has the disk.
#[derive(Drop)]
pub struct Device<D: Disk, S: Sealer, H: BlockHash> {
    number: u16,
    name: DeviceName,
    secret: Key,
    resting: Option<D>,
    session: Option<Session<D, H>>,
    sealer: PhantomData<S>,
    hash: PhantomData<H>,
    ghost numbered: { 1 ≤ number },
    ghost one: { is_some resting ≡ not (is_some session) },
    ghost rests: { ForSome resting (λ disk. IsSized (length (D.content disk))) },
    ghost runs: { ForSome session (λ session. IsSized (length (D.content session.journal.disk))) },
}

impl<D: Disk, S: Sealer, H: BlockHash> Device<D, S, H> {
    ghost use Rattle.std.specs.Prelude.{ℕ, List, Err, IfOk, OnErr};
    ghost use Rattle.kb_folder.specs.Chains.{Names};
    ghost use Rattle.kb_device.specs.Devices.{Runs, IsView, GoesOn, HasFailed};
    ghost use Rattle.kb_device.specs.Answering.{PickAnswers};
    ghost use Rattle.kb_device.specs.Few.{PicksFew};
    ghost use Rattle.kb_device.specs.Flying.{PickFlies, NoteFlies};
    ghost use Rattle.kb_device.specs.Stands.{Member};
    ghost use Rattle.kb_device.specs.Noting.{NoteGoes};
    ghost use Rattle.kb_device.specs.Pulling.{PullAnswers, UnlessStopped};
    ghost use Rattle.kb_device.specs.Serving.{WaitsOn};
    ghost use Rattle.kb_folder.specs.Held.{held};
    ghost use Rattle.kb_device.specs.declared.answers.PullFault.TheVariants as pull;
    ghost use Rattle.kb_device.specs.declared.answers.NoteFault.TheVariants as stop;

    /// The request that lands the first operation of the queue, which is in flight then. Of a file that was written it has
    /// few blocks, those that the write touches.
    pub fn pick(&mut self, alloc: Global) -> Result<Picked, PickFault>
        requires runs { ForSome self.old.session (Runs self.old.number) }
        ensures runs { ForSome self.new.session (Runs self.new.number) }
        ensures goes { (seed : List ℕ) (names : Names) → GoesOn self.old self.new (λ v w. PickAnswers S.sealed S.signed H.hashed seed names v w result) }
        ensures flies { GoesOn self.old self.new (λ v w. PickFlies v w result) }
        ensures few { (seed : List ℕ) (names : Names) (v : Member) → IsView self.old v → IfOk result (PicksFew S.sealed S.signed H.hashed seed names v) }
        ensures waits { OnErr result ((seed : List ℕ) → GoesOn self.old self.new (λ v w. WaitsOn S.sealed H.hashed seed v w)) }
    {
        picks_law::<S, H>();
        few_law::<S, H>();
        let Some(session) = &mut self.session else {
            return Err(PickFault::Closed);
        };
        session.pick::<S>(alloc, &self.secret)
    }

    /// Ends the flight with the answer to its put: what landed leaves the queue, and what came late is a branch. Where the
    /// disk stops, the session ends.
    pub fn note(&mut self, answer: &PutAnswer) -> Result<Noted, NoteFault>
        requires runs { ForSome self.old.session (Runs self.old.number) }
        ensures runs { ForSome self.new.session (Runs self.new.number) }
        ensures goes { (seed : List ℕ) (names : Names) → GoesOn self.old self.new (λ v w. NoteGoes S.sealed S.signed H.hashed seed names v.number v w answer.now result) }
        ensures flies { GoesOn self.old self.new (λ v w. NoteFlies v w result) }
        ensures rose { result ≡ Err stop.Stopped → HasFailed self.old self.new }
    {
        let Some(session) = &mut self.session else {
            return Err(NoteFault::Closed);
        };
        let noted = session.note(answer);
        if !has_stopped(&noted) {
            return noted;
        }
        rest(&mut self.session, &mut self.resting);
        noted
    }

    /// Makes the folder's last revision known, where no operation waits. Where the disk stops, the session ends.
    pub fn pull(&mut self, alloc: Global, folder: &Folder<S, H>) -> Result<u32, PullFault>
        requires runs { ForSome self.old.session (Runs self.old.number) }
        ensures runs { ForSome self.new.session (Runs self.new.number) }
        ensures goes { (seed : List ℕ) (names : Names) → GoesOn self.old self.new (λ v w. PullAnswers S.sealed S.signed H.hashed seed names (held folder.now) v w result) }
        ensures waits { UnlessStopped result ((seed : List ℕ) → GoesOn self.old self.new (λ v w. WaitsOn S.sealed H.hashed seed v w)) }
        ensures rose { result ≡ Err pull.Stopped → HasFailed self.old self.new }
    {
        let Some(session) = &mut self.session else {
            return Err(PullFault::Closed);
        };
        let pulled = session.pull::<S>(alloc, folder, self.number, &self.secret);
        if !has_stopped_pulling(&pulled) {
            return pulled;
        }
        rest(&mut self.session, &mut self.resting);
        pulled
    }
}

impl<D: Disk, S: Sealer, H: BlockHash> Device<D, S, H> {
    ghost use Rattle.std.specs.Prelude.{ℕ, List, Err, IfOk};
    ghost use Rattle.kb_folder.specs.Chains.{Names};
    ghost use Rattle.kb_device.specs.Devices.{Runs, GoesOn, HasFailed};
    ghost use Rattle.kb_folder.specs.Puts.{Held};
    ghost use Rattle.kb_snap.specs.Chains.{Chain};
    ghost use Rattle.kb_device.specs.Parts.{Part, new_part};
    ghost use Rattle.kb_device.specs.Devices.{IsView, disk_in};
    ghost use Rattle.kb_device.specs.Stands.{Member, DeviceStands};
    ghost use Rattle.kb_device.specs.Views.{platter};
    ghost use Rattle.kb_device.specs.Telling.{Tells, TellAnswers, LookAnswers, IsShownFor};
    ghost use Rattle.kb_device.specs.Serving.{CallAnswers, WaitsOn, IsNew};
    ghost use Rattle.kb_device.specs.Flying.{CallFlies};
    ghost use Rattle.kb_device.specs.declared.called.CallFault.TheVariants as refusal;
    ghost use Rattle.kb_folder.specs.Held.{held};
    ghost use Rattle.kb_device.specs.Opened.{OpenDoes, OpenAnswers};
    ghost use Rattle.kb_device.specs.declared.answers.OpenFault.TheVariants as opening;

    /// A closed device with this number, from 1, its name, its secret and its disk of 4,096 to 16,777,216 bytes. On a disk of zeros without dirty places
    /// that never stops, it is a new one.
    pub fn new(number: u16, name: DeviceName, secret: Key, disk: D) -> Device<D, S, H>
        requires numbered { 1 ≤ number }
        requires sized { IsSized (length (D.content disk)) }
        ensures runs { ForSome result.session (Runs result.number) }
        ensures number { result.number ≡ number }
        ensures name { result.name ≡ name }
        ensures secret { result.secret ≡ secret }
        ensures disk { disk_in result.resting result.session ≡ Some disk }
        ensures closed { result.session ≡ None }
        ensures stands { (v : Member) × IsView result v × (v.disk ≡ platter D.Disk disk) × ((seed : List ℕ) (names : Names) (f : Held) (c : Chain) (size : ℕ) → IsNew seed names f v size → DeviceStands S.sealed S.signed H.hashed seed names number f c v (new_part size)) }
    {
        Device {
            number,
            name,
            secret,
            resting: Some(disk),
            session: None,
            sealer: PhantomData,
            hash: PhantomData,
        }
    }

    /// Opens a session over a folder: what landed is taken over, and where nothing waits then, the head becomes known.
    pub fn open(&mut self, alloc: Global, folder: &Folder<S, H>) -> Result<Status, OpenFault>
        requires runs { ForSome self.old.session (Runs self.old.number) }
        ensures runs { ForSome self.new.session (Runs self.new.number) }
        ensures does { GoesOn self.old self.new (λ v w. OpenDoes S.sealed S.signed H.hashed (held folder.now) v w result) }
        ensures goes { (seed : List ℕ) (names : Names) → GoesOn self.old self.new (λ v w. OpenAnswers S.sealed S.signed H.hashed seed names (held folder.now) v w result) }
        ensures rose { result ≡ Err opening.Stopped → HasFailed self.old self.new }
    {
        if self.session.is_some() {
            return Err(OpenFault::AlreadyOpen);
        }
        let Some(disk) = self.resting.take() else {
            unreachable!()
        };
        match Session::open(alloc, folder, self.number, &self.secret, disk) {
            Ok(session) => {
                let status = session.status();
                fill(&mut self.session, session);
                Ok(status)
            }
            Err((disk, fault)) => {
                fill(&mut self.resting, disk);
                Err(fault)
            }
        }
    }

    /// What the device shows of its tree.
    pub fn show(&self, alloc: Global, show: &Show) -> Result<Shown, LookFault>
        ensures goes { (seed : List ℕ) (names : Names) (v : Member) (f : Held) (c : Chain) (p : Part) → IsView self.now v → DeviceStands S.sealed S.signed H.hashed seed names v.number f c v p → LookAnswers p show.now result }
        ensures kind { IfOk result (IsShownFor show.now) }
    {
        let Some(session) = &self.session else {
            return Err(LookFault::Closed);
        };
        session.show(alloc, show)
    }

    /// What the device tells of itself.
    pub fn status(&self) -> Result<Status, Closed>
        ensures tells { (v : Member) → IsView self.now v → Tells v.inside result }
        ensures goes { (seed : List ℕ) (names : Names) (v : Member) (f : Held) (c : Chain) (p : Part) → IsView self.now v → DeviceStands S.sealed S.signed H.hashed seed names v.number f c v p → TellAnswers p result }
    {
        let Some(session) = &self.session else {
            return Err(Closed);
        };
        Ok(session.status())
    }

    /// Does a file call at this moment: its operation stands in the journal before it is acknowledged. Where the disk
    /// stops, the session ends.
    pub fn call(
        &mut self,
        alloc: Global,
        request: &Request,
        moment: Moment,
    ) -> Result<Called, CallFault>
        requires runs { ForSome self.old.session (Runs self.old.number) }
        ensures runs { ForSome self.new.session (Runs self.new.number) }
        ensures goes { (seed : List ℕ) (names : Names) → GoesOn self.old self.new (λ v w. CallAnswers S.sealed S.signed H.hashed seed names v w request.now moment result × WaitsOn S.sealed H.hashed seed v w) }
        ensures flies { GoesOn self.old self.new (λ v w. CallFlies v w result) }
        ensures rose { result ≡ Err refusal.Stopped → HasFailed self.old self.new }
    {
        let Some(session) = &mut self.session else {
            return Err(CallFault::Closed);
        };
        let answer = session.call(alloc, self.number, request, moment);
        if !has_stopped_calling(&answer) {
            return answer;
        }
        rest(&mut self.session, &mut self.resting);
        answer
    }
}

impl<D: Disk, S: Sealer, H: BlockHash> Device<D, S, H> {
    ghost use Rattle.std.specs.Prelude.{ℕ, List};
    ghost use Rattle.kb_folder.specs.Chains.{Names};
    ghost use Rattle.kb_folder.specs.Held.{held};
    ghost use Rattle.kb_device.specs.Devices.{Runs, GoesOn};
    ghost use Rattle.kb_device.specs.Fetching.{FetchAnswers};
    ghost use Rattle.kb_device.specs.Serving.{WaitsOn};

    /// Keeps the folder's last revision as what the branch is to be merged into.
    pub fn fetch(&mut self, alloc: Global, folder: &Folder<S, H>) -> Result<u32, FetchFault>
        requires runs { ForSome self.old.session (Runs self.old.number) }
        ensures runs { ForSome self.new.session (Runs self.new.number) }
        ensures goes { (seed : List ℕ) (names : Names) → GoesOn self.old self.new (λ v w. FetchAnswers S.sealed S.signed H.hashed seed names (held folder.now) v w result × WaitsOn S.sealed H.hashed seed v w) }
    {
        let Some(session) = &mut self.session else {
            return Err(FetchFault::Closed);
        };
        session.fetch::<S>(alloc, folder, self.number, &self.secret)
    }
}

impl<D: Disk, S: Sealer, H: BlockHash> Device<D, S, H> {
    ghost use Rattle.std.specs.Prelude.{ℕ, List, Err};
    ghost use Rattle.kb_folder.specs.Chains.{Names};
    ghost use Rattle.kb_folder.specs.Held.{held};
    ghost use Rattle.kb_snap.specs.Chains.{Chain};
    ghost use Rattle.kb_edge.specs.Causes.{Rose};
    ghost use Rattle.kb_device.specs.Parts.{Part, closed};
    ghost use Rattle.kb_device.specs.Devices.{Runs, IsView, GoesOn, HasFailed, disk_in};
    ghost use Rattle.kb_device.specs.Forms.{DeviceGoes};
    ghost use Rattle.kb_device.specs.Lending.{LendsBranch};
    ghost use Rattle.kb_device.specs.Resolving.{MaySettle, SettleAnswers};
    ghost use Rattle.kb_device.specs.Stands.{Member};
    ghost use Rattle.kb_device.specs.declared.settled.SettleFault.TheVariants as unsettled;

    /// The branch, where something was fetched that it is to be merged into.
    pub fn branch(&self) -> Option<Branch<'_>>
        ensures { (v : Member) → IsView self.now v → LendsBranch v.inside result }
    {
        let Some(session) = &self.session else {
            return None;
        };
        session.branch()
    }

    /// Puts the merge of what was fetched over the link and makes it known once the folder took it. The table is the merge's
    /// tree. Where the link loses the request or the reply, the session ends, and a lost reply hides what the folder answered.
    /// Where the disk stops once the folder took it, the session ends too. The merge stays in the folder then.
    pub fn settle<K: Link>(
        &mut self,
        alloc: Global,
        link: &mut K,
        folder: &mut Folder<S, H>,
        table: Table,
        moment: Moment,
    ) -> Result<u32, SettleFault>
        requires runs { ForSome self.old.session (Runs self.old.number) }
        ensures runs { (v : Member) (seed : List ℕ) (names : Names) (c : Chain) (p : Part) → IsView self.old v → MaySettle S.sealed S.signed H.hashed seed names moment (held folder.old) v table.tree c p → ForSome self.new.session (Runs self.new.number) }
        ensures goes { (seed : List ℕ) (names : Names) → GoesOn self.old self.new (λ v w. SettleAnswers S.sealed S.signed H.hashed seed names moment (held folder.old) v table.tree (held folder.new) w (K.armed link.old) (K.armed link.new) result) }
        ensures rose { result ≡ Err unsettled.Stopped → HasFailed self.old self.new }
        ensures lost { result ≡ Err unsettled.LinkFault → Rose (K.faults link.old) (K.faults link.new) }
    {
        machine_law::<S, H>();
        settles_law::<S, H>();
        let Some(session) = &mut self.session else {
            return Err(SettleFault::Closed);
        };
        let settled = session.settle::<S, K>(
            alloc,
            link,
            folder,
            table,
            self.number,
            &self.secret,
            moment,
        );
        if !ends_session(&settled) {
            return settled;
        }
        rest(&mut self.session, &mut self.resting);
        settled
    }

    /// Ends the session with its flight and its plan.
    pub fn leave(&mut self)
        ensures closed { self.new.session ≡ None }
        ensures disk { disk_in self.new.resting self.new.session ≡ disk_in self.old.resting self.old.session }
        ensures goes { (seed : List ℕ) (names : Names) → GoesOn self.old self.new (λ v w. DeviceGoes S.sealed S.signed H.hashed seed names v.number v w (λ p q. q ≡ closed p)) }
    {
        rest(&mut self.session, &mut self.resting);
    }
}

impl<D: CrashDisk, S: Sealer, H: BlockHash> Device<D, S, H> {
    ghost use Rattle.std.specs.Prelude.{ℕ, List};
    ghost use Rattle.kb_folder.specs.Chains.{Names};
    ghost use Rattle.kb_device.specs.Parts.{armed, powered};
    ghost use Rattle.kb_device.specs.Devices.{Runs, GoesOn};
    ghost use Rattle.kb_device.specs.Forms.{DeviceGoes};
    ghost use Rattle.kb_device.specs.Serving.{WaitsOn};

    /// Arms the disk: after so many further writes and syncs all may fail.
    pub fn fuse(&mut self, steps: u32)
        requires runs { ForSome self.old.session (Runs self.old.number) }
        ensures runs { ForSome self.new.session (Runs self.new.number) }
        ensures goes { (seed : List ℕ) (names : Names) → GoesOn self.old self.new (λ v w. DeviceGoes S.sealed S.signed H.hashed seed names v.number v w (λ p q. q ≡ armed steps p) × WaitsOn S.sealed H.hashed seed v w) }
    {
        match &mut self.session {
            Some(session) => session.journal.arm(steps),
            None => arm(&mut self.resting, steps),
        }
    }

    /// Ends the session, cuts the disk's power and puts it on again.
    pub fn power(&mut self, pick: Pick)
        ensures closed { self.new.session ≡ None }
        ensures goes { (seed : List ℕ) (names : Names) → GoesOn self.old self.new (λ v w. DeviceGoes S.sealed S.signed H.hashed seed names v.number v w (λ p q. q ≡ powered p)) }
    {
        rest(&mut self.session, &mut self.resting);
        cut(&mut self.resting, pick);
    }
}
