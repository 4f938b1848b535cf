//! A declared device with what waits for it between a pick and its note.
ghost use Rattle.std.specs.Prelude.{◌≡◌, ◌+◌, ◌<◌, IfOk, Some};
ghost use Rattle.kb_device.specs.Calling as calling;
ghost use Rattle.kb_device.specs.Pulling as pulling;
ghost use Rattle.kb_world.specs.Turning.{IsNoteless};

use crate::replies::LandFault;
use kb_blocks::BlockHash;
use kb_chain::{FolderRequest, PutRefusal, hash_of};
use kb_device::{
    CallFault, Called, Closed, Device, NoteFault, Noted, OpenFault, PickFault, PullFault,
    PutAnswer, Status, has_lost, landing_law, longer_law, put_over,
};
use kb_edge::{CrashDisk, Disk, MemLink, Pick, Side};
use kb_folder::{Folder, machine_law};
use kb_name::{DeviceName, Moment};
use kb_ops::Request;
use kb_seal::Sealer;
use std::alloc::Global;

/// What waits for a device: nothing, a request that isn't put yet, or the answer to its put.
#[derive(Drop)]
pub enum Waiting {
    Nothing,
    Request(FolderRequest),
    Answer(PutAnswer),
}

/// A declared device, with its link to the folder.
#[derive(Drop)]
pub struct Declared<D: Disk, S: Sealer, H: BlockHash> {
    pub name: DeviceName,
    pub device: Device<D, S, H>,
    pub waiting: Waiting,
    pub link: MemLink,
}

fn has_stopped(answer: &Result<Called, CallFault>) -> bool
    ensures { result ≡ calling.is_stopped answer.now }
{
    matches!(answer, Err(CallFault::Stopped))
}

fn has_stopped_pulling(answer: &Result<u32, PullFault>) -> bool
    ensures { result ≡ pulling.is_stopped answer.now }
{
    matches!(answer, Err(PullFault::Stopped))
}

// Why there is nothing to note, by the device's status.
fn noteless(status: &Result<Status, Closed>) -> NoteFault
    ensures { IsNoteless status.now result }
{
    match status {
        Ok(_) => NoteFault::NoFlight,
        Err(_) => NoteFault::Closed,
    }
}

impl<D: Disk, S: Sealer, H: BlockHash> Declared<D, S, H> {
    ghost use Rattle.std.specs.Option.{ForSome};
    ghost use Rattle.kb_folder.specs.Puts.{Held, IsSound};
    ghost use Rattle.kb_folder.specs.Held.{held};
    ghost use Rattle.kb_device.specs.Devices.{Runs};
    ghost use Rattle.kb_world.specs.Turning.{Turned, CallTurns, PickTurns, NoteTurns, PullTurns, OpenTurns, LandTurns};

    /// Does a file call. Where the disk stops, what waits is dropped.
    pub fn call(
        &mut self,
        alloc: Global,
        request: &Request,
        moment: Moment,
    ) -> Result<Called, CallFault>
        requires { ForSome self.old.device.session (Runs self.old.device.number) }
        ensures { (f : Held) → Turned f self.old self.new (CallTurns request.now moment result) }
    {
        let answer = self.device.call(alloc, request, moment);
        if !has_stopped(&answer) {
            return answer;
        }
        self.waiting = Waiting::Nothing;
        answer
    }

    /// Picks: the request waits, and the operation's seq and the revision's number are told.
    pub fn pick(&mut self, alloc: Global) -> Result<(u32, u32), PickFault>
        requires { ForSome self.old.device.session (Runs self.old.device.number) }
        ensures { (f : Held) → Turned f self.old self.new (PickTurns result) }
    {
        let picked = match self.device.pick(alloc) {
            Ok(picked) => picked,
            Err(fault) => return Err(fault),
        };
        self.waiting = Waiting::Request(picked.request);
        Ok((picked.seq, picked.number))
    }

    /// Puts the request that waits, over the device's link; its answer waits then. Where the link loses the request or the
    /// answer, the session ends, and nothing waits. Where memory runs out, the request waits on.
    pub fn land(&mut self, folder: &mut Folder<S, H>) -> Result<u32, LandFault>
        requires { IsSound (held folder.old) }
        ensures sound { IsSound (held folder.new) }
        ensures goes { LandTurns (held folder.old) (held folder.new) self.old self.new result }
        ensures grows { IfOk result (λ n. (held folder.new).state.length ≡ (held folder.old).state.length + 1) }
        ensures kept { (held folder.new).limit ≡ (held folder.old).limit }
    {
        machine_law::<S, H>();
        longer_law::<S, H>();
        landing_law::<S, H>();
        let Waiting::Request(request) = &self.waiting else {
            return Err(LandFault::NoFlight);
        };
        let put = match put_over(&mut self.link, folder, request) {
            Ok(put) => put,
            Err(fault) => {
                if has_lost(fault) {
                    self.device.leave();
                    self.waiting = Waiting::Nothing;
                    return Err(LandFault::LinkFault);
                }
                return Err(LandFault::ByFolder(PutRefusal::Memory));
            }
        };
        let hash = hash_of(request.revision.as_slice());
        self.waiting = Waiting::Answer(PutAnswer { number: put, hash });
        match put {
            Ok(number) => Ok(number),
            Err(refusal) => Err(LandFault::ByFolder(refusal)),
        }
    }

    /// Notes the answer that waits.
    pub fn note(&mut self) -> Result<Noted, NoteFault>
        requires { ForSome self.old.device.session (Runs self.old.device.number) }
        ensures { (f : Held) → Turned f self.old self.new (NoteTurns result) }
    {
        let Waiting::Answer(answer) = &self.waiting else {
            let status = self.device.status();
            return Err(noteless(&status));
        };
        let noted = self.device.note(answer);
        self.waiting = Waiting::Nothing;
        noted
    }

    /// Pulls. Where the disk stops, what waits is dropped.
    pub fn pull(&mut self, alloc: Global, folder: &Folder<S, H>) -> Result<u32, PullFault>
        requires { ForSome self.old.device.session (Runs self.old.device.number) }
        ensures { Turned (held folder.now) self.old self.new (PullTurns result) }
    {
        let answer = self.device.pull(alloc, folder);
        if !has_stopped_pulling(&answer) {
            return answer;
        }
        self.waiting = Waiting::Nothing;
        answer
    }

    /// Opens. Where memory runs out, the disk may have done one step.
    pub fn open(&mut self, alloc: Global, folder: &Folder<S, H>) -> Result<Status, OpenFault>
        requires { ForSome self.old.device.session (Runs self.old.device.number) }
        ensures { Turned (held folder.now) self.old self.new (OpenTurns result) }
    {
        self.device.open(alloc, folder)
    }

    /// Arms the device's link: the next call of this side is lost.
    pub fn lose(&mut self, side: Side)
        ensures { (f : Held) → Turned f self.old self.new (λ d c m n. n ≡ record m { link = Some side }) }
    {
        self.link.arm(side);
    }
}

impl<D: CrashDisk, S: Sealer, H: BlockHash> Declared<D, S, H> {
    ghost use Rattle.std.specs.Option.{ForSome};
    ghost use Rattle.kb_folder.specs.Puts.{Held};
    ghost use Rattle.kb_device.specs.Parts.{armed, powered};
    ghost use Rattle.kb_world.specs.Machine.{went};
    ghost use Rattle.kb_device.specs.Devices.{Runs};
    ghost use Rattle.kb_world.specs.Turning.{Turned};

    /// Arms the disk: after so many further writes and syncs all may fail.
    pub fn fuse(&mut self, steps: u32)
        requires { ForSome self.old.device.session (Runs self.old.device.number) }
        ensures { (f : Held) → Turned f self.old self.new (λ d c m n. n ≡ record m { part = armed steps m.part }) }
    {
        self.device.fuse(steps);
    }

    /// Cuts the power: what waits is dropped.
    pub fn power(&mut self, pick: Pick)
        ensures { (f : Held) → Turned f self.old self.new (λ d c m n. n ≡ went m (powered m.part)) }
    {
        self.device.power(pick);
        self.waiting = Waiting::Nothing;
    }
}
