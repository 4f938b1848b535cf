//! The world of a run: a folder, its devices, the seed of all keys, and the moment.
ghost use Rattle.std.specs.Prelude.{◌≡◌, ◌∷◌, ◌++◌, ◌+◌, ◌<◌, ◌≤◌, [], ℕ, List, Some, None, IfOk, OnOk, OnErr, IsTrue, ◌↔◌, length, vec_len, true, false};
ghost use Rattle.std.specs.Vec.{vec_capacity};
ghost use Rattle.kb_lines.specs.declared.lines.Line.TheVariants as shown;
ghost use Rattle.kb_world.specs.Statements as statements;
ghost use Rattle.kb_world.specs.Machine.{most_devices, State, new_state, ActStep, Lacks, Ends, flush_stage, drain_stage, resolve_stage, ToPick, ToLand, ToNote, ToSettle};
ghost use Rattle.kb_folder.specs.Chains.{Names};
ghost use Rattle.kb_folder.specs.Held.{held};
ghost use Rattle.kb_keys.specs.declared.policy.Action.TheVariants as action;
ghost use Rattle.kb_snap.specs.Rekeys.{grant_of};
ghost use Rattle.kb_script.specs.declared.statements.Statement.TheVariants as statement;
ghost use Rattle.kb_world.specs.Doing.{is_picked, is_carried, is_noted};
ghost use Rattle.kb_world.specs.Branching.{is_fetched};
ghost use Rattle.kb_world.specs.Printed.{printed};

use crate::auditing::whole_line;
use crate::declared::{Declared, Waiting};
use crate::listing::chain_lines;
use crate::replies::{
    called_line, fetched_line, landed_line, noted_line, opened_line, picked_line, pulled_line,
    rekeyed_line, settled_line, shown_line, told_line,
};
use kb_blocks::Sha256Hash;
use kb_device::{Device, landing_law, longer_law, plain_ops_law};
use kb_edge::{DiskMaker, MemLink, Memory, Pick, Side};
use kb_folder::{Folder, beginning_law, machine_law, once_law};
use kb_keys::{Role, Secrets};
use kb_lines::{Line, Reason};
use kb_name::{DeviceName, Moment};
use kb_ops::{Request, Show};
use kb_rekey::{found, grant, rekey_law, revoke};
use kb_resolver::few_are_split;
use kb_script::Statement;
use kb_seal::{HmacSealer, Key};
use std::alloc::Global;

/// How many revisions the folder takes.
const MOST_REVISIONS: u32 = 1_000_000;

/// The folder and its devices, in the order in which they are declared, and how many rows were looked at in the last
/// resolution that a settle made.
#[derive(Drop)]
pub struct World<M: DiskMaker> {
    alloc: Global,
    maker: M,
    seed: Key,
    moment: Moment,
    folder: Folder<HmacSealer, Sha256Hash>,
    devices: Vec<Declared<M::D, HmacSealer, Sha256Hash>>,
    looked: u64,
}

// Room for the one line of a reply, taken before anything is done.
fn room_for_one(alloc: Global) -> Result<Vec<Line>, Memory>
    ensures empty { IfOk result (λ lines. lines.items ≡ []) }
    ensures room { IfOk result (λ lines. vec_len lines < vec_capacity lines) }
{
    let lines = Vec::with_capacity(alloc, 1)?;
    Ok(lines)
}

// The one line, in the room that was taken.
fn one_line(room: Vec<Line>, line: Line) -> Vec<Line>
    requires empty { room.items ≡ [] }
    requires room { vec_len room < vec_capacity room }
    ensures { result.items ≡ line ∷ [] }
{
    let mut lines = room;
    lines.push_reserved(line);
    lines
}

fn is_picked(line: &Line) -> bool
    ensures { result ≡ is_picked line.now }
{
    matches!(line, Line::Picked { .. })
}

fn is_carried(line: &Line) -> bool
    ensures { result ≡ is_carried line.now }
{
    !matches!(
        line,
        Line::Refused {
            reason: Reason::LinkFault,
            ..
        }
    )
}

fn is_noted(line: &Line) -> bool
    ensures { result ≡ is_noted line.now }
{
    matches!(line, Line::Noted { .. })
}

fn is_fetched(line: &Line) -> bool
    ensures { result ≡ is_fetched line.now }
{
    matches!(line, Line::Fetched { .. })
}

impl<M: DiskMaker> World<M> {
    ghost use Rattle.kb_device.specs.Sizes.{IsSized};
    ghost use Rattle.kb_world.specs.Spoken.{statement_of};
    ghost use Rattle.kb_world.specs.Standing.{WorldStands, IsStanding, device_count};
    ghost use Rattle.kb_world.specs.Doing.{IsOneOf, MayDo, Tells, Does, DoesOn, GoesOn, stage_if, Flushes, IsNameOf};

    /// A world at moment 0 without devices, whose folder has no revisions, under the seed of zeros.
    pub fn new(alloc: Global, maker: M) -> World<M>
        ensures stands { (names : Names) → WorldStands names result new_state }
        ensures looked { result.looked ≡ 0 }
    {
        beginning_law::<HmacSealer, Sha256Hash>();
        World {
            alloc,
            maker,
            seed: [0; 32],
            moment: Moment::START,
            folder: Folder::new(alloc, MOST_REVISIONS),
            devices: Vec::new(alloc),
            looked: 0,
        }
    }

    /// How many rows of the three trees were looked at in the last resolution that a settle made, at most
    /// 18,446,744,073,709,551,615; 0 before the first.
    pub fn looked(&self) -> u64
        ensures { result ≡ self.now.looked }
    {
        self.looked
    }

    /// Whether nothing has been done yet.
    pub fn is_new(&self) -> bool
        requires { IsStanding self.now }
        ensures { IsTrue result ↔ ((names : Names) → WorldStands names self.now new_state) }
    {
        if self.moment != Moment::START || self.seed != [0; 32] {
            return false;
        }
        self.devices.is_empty()
    }

    // Declares a device with a disk of so many bytes.
    fn declare(&mut self, name: &DeviceName, size: u32) -> Result<(), Memory>
        requires stands { (names : Names) × (s : State) × WorldStands names self.old s × (length s.members < most_devices) }
        requires sized { IsSized size }
        ensures step { OnOk result ((names : Names) (s : State) → WorldStands names self.old s → MayDo names s (statement.Device name.now size) → (t : State) × ActStep s (statements.Declare name.now size) statements.Silent t × WorldStands names self.new t) }
        ensures memory { OnErr result (GoesOn self.old self.new (λ names s t. t ≡ s)) }
    {
        beginning_law::<HmacSealer, Sha256Hash>();
        once_law::<HmacSealer, Sha256Hash>();
        let shown = name.clone()?;
        let name = name.clone()?;
        self.devices.reserve(1)?;
        self.folder.reserve()?;
        let disk = self.maker.make(self.alloc, size)?;
        let number = self.devices.len() as u16 + 1;
        let secret = Secrets::new(self.seed).device(number);
        self.folder.register_reserved(number, secret);
        self.devices.push_reserved(Declared {
            name: shown,
            device: Device::new(number, name, secret, disk),
            waiting: Waiting::Nothing,
            link: MemLink::new(),
        });
        Ok(())
    }

    // Makes the folder's first revision, by the device with this number.
    fn found(&mut self, device: u16) -> Result<Line, Memory>
        requires { (names : Names) × (s : State) × WorldStands names self.old s × (s.chain ≡ []) × IsOneOf (length s.members) device }
        ensures step { IfOk result (λ line. (names : Names) (s : State) → WorldStands names self.old s → MayDo names s (statement.Found device) → (t : State) × Tells names device s (statements.DoFound device) line (λ reply. Unit {0}) t × WorldStands names self.new t) }
        ensures memory { OnErr result (GoesOn self.old self.new (λ names s t. t ≡ s)) }
    {
        machine_law::<HmacSealer, Sha256Hash>();
        longer_law::<HmacSealer, Sha256Hash>();
        landing_law::<HmacSealer, Sha256Hash>();
        let secrets = Secrets::new(self.seed);
        let revision = found(self.alloc, &mut self.folder, &secrets, device, self.moment)?;
        Ok(Line::FolderAt { revision })
    }

    // Makes a device a member, in another's name.
    fn grant(&mut self, by: u16, device: u16, role: Role) -> Result<Line, Memory>
        requires stands { IsStanding self.old }
        requires by { IsOneOf (device_count self.old) by }
        requires declared { IsOneOf (device_count self.old) device }
        ensures step { IfOk result (λ line. GoesOn self.old self.new (λ names s t. Tells names by s (statements.DoRekey by (grant_of role) device) line (λ reply. Unit {0}) t)) }
        ensures memory { OnErr result (GoesOn self.old self.new (λ names s t. t ≡ s)) }
    {
        machine_law::<HmacSealer, Sha256Hash>();
        longer_law::<HmacSealer, Sha256Hash>();
        landing_law::<HmacSealer, Sha256Hash>();
        rekey_law::<HmacSealer, Sha256Hash>();
        let secrets = Secrets::new(self.seed);
        let answer = grant(
            self.alloc,
            &mut self.folder,
            &secrets,
            by,
            device,
            role,
            self.moment,
        );
        rekeyed_line(answer)
    }

    // Takes a member's role and its keys away, in another's name.
    fn revoke(&mut self, by: u16, device: u16) -> Result<Line, Memory>
        requires stands { IsStanding self.old }
        requires by { IsOneOf (device_count self.old) by }
        requires declared { IsOneOf (device_count self.old) device }
        ensures step { IfOk result (λ line. GoesOn self.old self.new (λ names s t. Tells names by s (statements.DoRekey by action.Revoke device) line (λ reply. Unit {0}) t)) }
        ensures memory { OnErr result (GoesOn self.old self.new (λ names s t. t ≡ s)) }
    {
        machine_law::<HmacSealer, Sha256Hash>();
        longer_law::<HmacSealer, Sha256Hash>();
        landing_law::<HmacSealer, Sha256Hash>();
        rekey_law::<HmacSealer, Sha256Hash>();
        let secrets = Secrets::new(self.seed);
        let answer = revoke(
            self.alloc,
            &mut self.folder,
            &secrets,
            by,
            device,
            self.moment,
        );
        rekeyed_line(answer)
    }

    // The name of the device with this number.
    fn name_of(&self, number: u16) -> Result<DeviceName, Memory>
        requires { IsOneOf (device_count self.now) number }
        ensures { IfOk result (IsNameOf self.now number) }
    {
        let name = self.devices[number as usize - 1].name.clone()?;
        Ok(name)
    }

    // Opens a device. Where memory runs out, its disk may have done one step.
    fn open(&mut self, number: u16) -> Result<Line, Memory>
        requires stands { IsStanding self.old }
        requires declared { IsOneOf (device_count self.old) number }
        ensures step { IfOk result (λ line. GoesOn self.old self.new (λ names s t. Tells names number s (statements.On number statements.Open) line (λ reply. Unit {0}) t)) }
        ensures memory { OnErr result (GoesOn self.old self.new (λ names s t. Lacks (Some (statements.On number statements.Open)) s t)) }
    {
        let declared = &mut self.devices[number as usize - 1];
        let name = declared.name.clone()?;
        let answer = declared.open(self.alloc, &self.folder);
        opened_line(name, answer)
    }

    // Makes the request for the first operation of a device's queue.
    fn pick(&mut self, number: u16) -> Result<Line, Memory>
        requires stands { IsStanding self.old }
        requires declared { IsOneOf (device_count self.old) number }
        ensures step { IfOk result (λ line. GoesOn self.old self.new (λ names s t. Tells names number s (statements.On number statements.Pick) line (λ reply. (flush_stage (Some reply) ≡ stage_if (is_picked line) ToLand) × (drain_stage (Some reply) ≡ flush_stage (Some reply))) t)) }
        ensures memory { OnErr result (GoesOn self.old self.new (λ names s t. t ≡ s)) }
        ensures count { device_count self.new ≡ device_count self.old }
    {
        let name = self.name_of(number)?;
        let declared = &mut self.devices[number as usize - 1];
        let answer = declared.pick(self.alloc);
        let line = picked_line(name, answer)?;
        Ok(line)
    }

    // Puts the request that waits for a device, over its link.
    fn land(&mut self, number: u16) -> Result<Line, Memory>
        requires stands { IsStanding self.old }
        requires declared { IsOneOf (device_count self.old) number }
        ensures step { IfOk result (λ line. GoesOn self.old self.new (λ names s t. Tells names number s (statements.On number statements.Land) line (λ reply. (flush_stage (Some reply) ≡ stage_if (is_carried line) ToNote) × (drain_stage (Some reply) ≡ flush_stage (Some reply))) t)) }
        ensures memory { OnErr result (GoesOn self.old self.new (λ names s t. t ≡ s)) }
        ensures count { device_count self.new ≡ device_count self.old }
    {
        let name = self.name_of(number)?;
        let declared = &mut self.devices[number as usize - 1];
        machine_law::<HmacSealer, Sha256Hash>();
        longer_law::<HmacSealer, Sha256Hash>();
        landing_law::<HmacSealer, Sha256Hash>();
        let answer = declared.land(&mut self.folder);
        let line = landed_line(name, answer)?;
        Ok(line)
    }

    // Notes the answer that waits for a device.
    fn note(&mut self, number: u16) -> Result<Line, Memory>
        requires stands { IsStanding self.old }
        requires declared { IsOneOf (device_count self.old) number }
        ensures step { IfOk result (λ line. GoesOn self.old self.new (λ names s t. Tells names number s (statements.On number statements.Note) line (λ reply. (flush_stage (Some reply) ≡ None) × (drain_stage (Some reply) ≡ stage_if (is_noted line) ToPick)) t)) }
        ensures memory { OnErr result (GoesOn self.old self.new (λ names s t. t ≡ s)) }
        ensures count { device_count self.new ≡ device_count self.old }
    {
        let name = self.name_of(number)?;
        let declared = &mut self.devices[number as usize - 1];
        let answer = declared.note();
        Ok(noted_line(name, answer))
    }

    // Picks, lands and notes; where the pick is refused, it alone, and where the link lost the put, no note. Says whether an operation landed and was noted.
    fn flush(&mut self, number: u16, lines: &mut Vec<Line>) -> Result<bool, Memory>
        requires stands { IsStanding self.old }
        requires declared { IsOneOf (device_count self.old) number }
        ensures step { IfOk result (λ noted. GoesOn self.old self.new (λ names s t. Flushes names number s noted lines.old.items lines.new.items t)) }
        ensures memory { OnErr result (GoesOn self.old self.new (λ names s t. Ends s (statements.Flush number) t)) }
        ensures grows { IfOk result (λ noted. noted ≡ true → (held self.new.folder).state.length ≡ (held self.old.folder).state.length + 1) }
        ensures count { device_count self.new ≡ device_count self.old }
    {
        lines.reserve(3)?;
        let first = self.pick(number)?;
        let picked = is_picked(&first);
        lines.push_reserved(first);
        if !picked {
            return Ok(false);
        }
        let second = self.land(number)?;
        let carried = is_carried(&second);
        lines.push_reserved(second);
        if !carried {
            return Ok(false);
        }
        let third = self.note(number)?;
        let noted = is_noted(&third);
        lines.push_reserved(third);
        Ok(noted)
    }

    // Flushes until a part is refused.
    fn drain(&mut self, number: u16) -> Result<Vec<Line>, Memory>
        requires stands { IsStanding self.old }
        requires declared { IsOneOf (device_count self.old) number }
        ensures step { IfOk result (λ lines. GoesOn self.old self.new (λ names s t. Does names s (statement.Drain number) lines.items t)) }
        ensures memory { OnErr result (GoesOn self.old self.new (λ names s t. Ends s (statements.Drain number) t)) }
    {
        let mut lines = Vec::new(self.alloc);
        'flushes: loop {
            if !self.flush(number, &mut lines)? {
                return Ok(lines);
            }
        }
    }

    // Makes the folder's last revision known.
    fn pull(&mut self, number: u16) -> Result<Line, Memory>
        requires stands { IsStanding self.old }
        requires declared { IsOneOf (device_count self.old) number }
        ensures step { IfOk result (λ line. GoesOn self.old self.new (λ names s t. Tells names number s (statements.On number statements.Pull) line (λ reply. Unit {0}) t)) }
        ensures memory { OnErr result (GoesOn self.old self.new (λ names s t. t ≡ s)) }
    {
        let name = self.name_of(number)?;
        let declared = &mut self.devices[number as usize - 1];
        let answer = declared.pull(self.alloc, &self.folder);
        let line = pulled_line(name, answer)?;
        Ok(line)
    }

    // Tells of a device's journal.
    fn tell(&self, number: u16) -> Result<Line, Memory>
        requires { IsOneOf (device_count self.now) number }
        ensures { IfOk result (λ line. (names : Names) (s : State) → WorldStands names self.now s → Tells names number s (statements.See number statements.Tell) line (λ reply. Unit {0}) s) }
    {
        let declared = &self.devices[number as usize - 1];
        let name = declared.name.clone()?;
        Ok(told_line(name, declared.device.status()))
    }

    // Arms a device's disk.
    fn arm(&mut self, number: u16, steps: u32)
        requires stands { IsStanding self.old }
        requires declared { IsOneOf (device_count self.old) number }
        ensures { GoesOn self.old self.new (λ names s t. ActStep s (statements.On number (statements.Fuse steps)) statements.Silent t) }
    {
        let declared = &mut self.devices[number as usize - 1];
        declared.fuse(steps);
    }

    // Arms a device's link.
    fn lose(&mut self, number: u16, side: Side)
        requires { IsOneOf (device_count self.old) number }
        ensures { GoesOn self.old self.new (λ names s t. ActStep s (statements.On number (statements.Lose side)) statements.Silent t) }
    {
        let declared = &mut self.devices[number as usize - 1];
        declared.lose(side);
    }

    // Cuts a device's power.
    fn cut(&mut self, number: u16, pick: Pick) -> Result<Line, Memory>
        requires { IsOneOf (device_count self.old) number }
        ensures step { IfOk result (λ line. GoesOn self.old self.new (λ names s t. Tells names number s (statements.On number statements.Power) line (λ reply. Unit {0}) t)) }
        ensures memory { OnErr result (GoesOn self.old self.new (λ names s t. t ≡ s)) }
    {
        let declared = &mut self.devices[number as usize - 1];
        let name = declared.name.clone()?;
        declared.power(pick);
        Ok(Line::Off { device: name })
    }

    // Lists the folder's chain.
    fn list(&self) -> Result<Vec<Line>, Memory>
        requires { IsStanding self.now }
        ensures { IfOk result (λ lines. (names : Names) (s : State) → WorldStands names self.now s → lines.items ≡ printed names 0 (statements.Lists s.chain)) }
    {
        chain_lines(self.alloc, &self.folder, &self.devices)
    }

    // Audits the folder.
    fn verify(&self) -> Result<Line, Memory>
        requires { IsStanding self.now }
        ensures { IfOk result (λ line. (names : Names) (s : State) → WorldStands names self.now s → Tells names 0 s statements.AuditChain line (λ reply. Unit {0}) s) }
    {
        let secrets = Secrets::new(self.seed);
        whole_line(self.alloc, &self.folder, &self.devices, &secrets)
    }

    // Shows what a device sees.
    fn look(&self, number: u16, show: &Show) -> Result<Line, Memory>
        requires { IsOneOf (device_count self.now) number }
        ensures { IfOk result (λ line. (names : Names) (s : State) → WorldStands names self.now s → Tells names number s (statements.See number (statements.Look show.now)) line (λ reply. Unit {0}) s) }
    {
        let declared = &self.devices[number as usize - 1];
        let name = declared.name.clone()?;
        let answer = declared.device.show(self.alloc, show);
        shown_line(name, answer)
    }

    // A device does a file call.
    fn call(&mut self, number: u16, request: &Request) -> Result<Line, Memory>
        requires stands { IsStanding self.old }
        requires declared { IsOneOf (device_count self.old) number }
        ensures step { IfOk result (λ line. GoesOn self.old self.new (λ names s t. Tells names number s (statements.On number (statements.Call request.now)) line (λ reply. Unit {0}) t)) }
        ensures memory { OnErr result (GoesOn self.old self.new (λ names s t. t ≡ s)) }
    {
        let declared = &mut self.devices[number as usize - 1];
        let name = declared.name.clone()?;
        let answer = declared.call(self.alloc, request, self.moment);
        called_line(name, answer)
    }

    // Sets the seed of all keys, before all devices.
    fn set_seed(&mut self, seed: Key)
        ensures { (names : Names) (s : State) → WorldStands names self.old s → MayDo names s (statement.Seed seed) → (t : State) × ActStep s (statements.SetSeed seed) statements.Silent t × WorldStands names self.new t }
    {
        beginning_law::<HmacSealer, Sha256Hash>();
        self.seed = seed;
    }

    // Sets the moment of what follows.
    fn set_moment(&mut self, moment: Moment)
        ensures { (names : Names) (s : State) → WorldStands names self.old s → MayDo names s (statement.At moment) → (t : State) × ActStep s (statements.SetMoment moment) statements.Silent t × WorldStands names self.new t }
    {
        self.moment = moment;
    }

    // Fetches what a device's branch is to be merged into.
    fn fetch(&mut self, number: u16) -> Result<Line, Memory>
        requires stands { IsStanding self.old }
        requires declared { IsOneOf (device_count self.old) number }
        ensures step { IfOk result (λ line. GoesOn self.old self.new (λ names s t. Tells names number s (statements.On number statements.Fetch) line (λ reply. resolve_stage (Some reply) ≡ stage_if (is_fetched line) ToSettle) t)) }
        ensures memory { OnErr result (GoesOn self.old self.new (λ names s t. t ≡ s)) }
        ensures count { device_count self.new ≡ device_count self.old }
    {
        let name = self.name_of(number)?;
        let declared = &mut self.devices[number as usize - 1];
        let answer = declared.fetch(self.alloc, &self.folder);
        let line = fetched_line(name, answer)?;
        Ok(line)
    }

    // Merges a device's branch into what was fetched, and settles it.
    fn settle(&mut self, number: u16) -> Result<Line, Memory>
        requires stands { IsStanding self.old }
        requires declared { IsOneOf (device_count self.old) number }
        ensures step { IfOk result (λ line. GoesOn self.old self.new (λ names s t. Tells names number s (statements.On number statements.Settle) line (λ reply. resolve_stage (Some reply) ≡ None) t)) }
        ensures memory { OnErr result (GoesOn self.old self.new (λ names s t. t ≡ s)) }
        ensures count { device_count self.new ≡ device_count self.old }
    {
        let name = self.name_of(number)?;
        let declared = &mut self.devices[number as usize - 1];
        machine_law::<HmacSealer, Sha256Hash>();
        longer_law::<HmacSealer, Sha256Hash>();
        landing_law::<HmacSealer, Sha256Hash>();
        few_are_split();
        plain_ops_law();
        let answer = declared.settle(
            self.alloc,
            &mut self.folder,
            number,
            self.moment,
            &mut self.looked,
        );
        let line = settled_line(name, answer)?;
        Ok(line)
    }

    // Fetches and settles; where the fetch is refused, it alone.
    fn resolve(&mut self, number: u16) -> Result<Vec<Line>, Memory>
        requires stands { IsStanding self.old }
        requires declared { IsOneOf (device_count self.old) number }
        ensures step { IfOk result (λ lines. GoesOn self.old self.new (λ names s t. Does names s (statement.Resolve number) lines.items t)) }
        ensures memory { OnErr result (GoesOn self.old self.new (λ names s t. Ends s (statements.Resolve number) t)) }
    {
        let mut lines = Vec::with_capacity(self.alloc, 2)?;
        let first = self.fetch(number)?;
        let fetched = is_fetched(&first);
        lines.push_reserved(first);
        if !fetched {
            return Ok(lines);
        }
        let second = self.settle(number)?;
        lines.push_reserved(second);
        Ok(lines)
    }

    /// Does a statement, and answers its lines. Where memory runs out, the world is as before the part that lacked it, but
    /// that an opening may have used one step of its device's disk.
    #[tactic(none)]
    pub fn step(&mut self, statement: &Statement) -> Result<Vec<Line>, Memory>
        requires { (names : Names) × (s : State) × WorldStands names self.old s × MayDo names s statement.now }
        ensures step { IfOk result (λ lines. DoesOn self.old self.new statement.now (λ names s t. Does names s statement.now lines.items t)) }
        ensures memory { OnErr result (DoesOn self.old self.new statement.now (λ names s t. Ends s (statement_of statement.now) t)) }
    {
        let room = room_for_one(self.alloc)?;
        match statement {
            Statement::Seed { seed } => {
                self.set_seed(*seed);
                Ok(room)
            }
            Statement::Device { name, size } => {
                self.declare(name, *size)?;
                Ok(room)
            }
            Statement::Found { device } => {
                let line = self.found(*device)?;
                Ok(one_line(room, line))
            }
            Statement::Grant { by, device, role } => {
                let line = self.grant(*by, *device, *role)?;
                Ok(one_line(room, line))
            }
            Statement::Revoke { by, device } => {
                let line = self.revoke(*by, *device)?;
                Ok(one_line(room, line))
            }
            Statement::At { moment } => {
                self.set_moment(*moment);
                Ok(room)
            }
            Statement::Open { device } => {
                let line = self.open(*device)?;
                Ok(one_line(room, line))
            }
            Statement::Pick { device } => {
                let line = self.pick(*device)?;
                Ok(one_line(room, line))
            }
            Statement::Land { device } => {
                let line = self.land(*device)?;
                Ok(one_line(room, line))
            }
            Statement::Note { device } => {
                let line = self.note(*device)?;
                Ok(one_line(room, line))
            }
            Statement::Flush { device } => {
                let mut lines = room;
                self.flush(*device, &mut lines)?;
                Ok(lines)
            }
            Statement::Drain { device } => self.drain(*device),
            Statement::Pull { device } => {
                let line = self.pull(*device)?;
                Ok(one_line(room, line))
            }
            Statement::Fetch { device } => {
                let line = self.fetch(*device)?;
                Ok(one_line(room, line))
            }
            Statement::Settle { device } => {
                let line = self.settle(*device)?;
                Ok(one_line(room, line))
            }
            Statement::Resolve { device } => self.resolve(*device),
            Statement::Status { device } => {
                let line = self.tell(*device)?;
                Ok(one_line(room, line))
            }
            Statement::Fuse { device, steps } => {
                self.arm(*device, *steps);
                Ok(room)
            }
            Statement::Lose { device, side } => {
                self.lose(*device, *side);
                Ok(room)
            }
            Statement::Power { device, pick } => {
                let line = self.cut(*device, *pick)?;
                Ok(one_line(room, line))
            }
            Statement::Folder => self.list(),
            Statement::Verify => {
                let line = self.verify()?;
                Ok(one_line(room, line))
            }
            Statement::File { device, request } => {
                let line = self.call(*device, request)?;
                Ok(one_line(room, line))
            }
            Statement::Look { device, show } => {
                let line = self.look(*device, show)?;
                Ok(one_line(room, line))
            }
        }
    }
}
