//! The answers of devices and of the folder as lines.
ghost use Rattle.std.specs.Prelude.{◌≡◌, ◌∷◌, [], ℕ, Result, Ok, Err, IfOk, OnOk, OnErr};
ghost use Rattle.kb_lines.specs.declared.lines.Line.TheVariants as shown;
ghost use Rattle.kb_world.specs.Statements as machine;
ghost use Rattle.kb_device.specs.Noting.{told};
ghost use Rattle.kb_device.specs.declared.called.CallFault.TheVariants as call;
ghost use Rattle.kb_device.specs.declared.answers.PickFault.TheVariants as pick;
ghost use Rattle.kb_device.specs.declared.answers.PullFault.TheVariants as pull;
ghost use Rattle.kb_device.specs.declared.answers.OpenFault.TheVariants as opening;
ghost use Rattle.kb_chain.specs.declared.states.PutRefusal.TheVariants as why;
ghost use Rattle.kb_rekey.specs.declared.rekeying.RekeyFault.TheVariants as rekey;
ghost use Rattle.kb_world.specs.Told.{told_call, told_look, told_tell, told_pick, told_pull, told_open, told_rekey, IsCalled, IsLook, IsPick, IsPulled, IsPull, IsOpening, IsRekeyed};
ghost use Rattle.kb_world.specs.Printed.{plan_reason, show_reason, called_line, shown_line, status_line, picked_line, landed_line, noted_line, pulled_line, opened_line, rekeyed_line};
ghost use Rattle.kb_world.specs.Turning.{IsLanding, IsLand};
ghost use Rattle.kb_world.specs.Putting.{IsReason};
ghost use Rattle.kb_world.specs.declared.replies.LandFault.TheVariants as land;
ghost use Rattle.kb_rules.specs.declared.report.Report as reports;
ghost use Rattle.kb_device.specs.Answers as says;
ghost use Rattle.kb_device.specs.declared.fetched.FetchFault.TheVariants as fetch;
ghost use Rattle.kb_world.specs.Printed.{fetched_line, settled_line};
ghost use Rattle.kb_world.specs.Branching.{told_fetch, IsFetch, IsFetched, IsSettling, IsSettled, LacksSettle};

use kb_apply::ShowFault;
use kb_chain::PutRefusal;
use kb_device::{
    CallFault, Called, Closed, FetchFault, LookFault, NoteFault, Noted, OpenFault, PickFault,
    PullFault, SettleFault, Status,
};
use kb_edge::Memory;
use kb_lines::{Line, Reason};
use kb_name::DeviceName;
use kb_ops::{PlanFault, Shown};
use kb_rekey::RekeyFault;
use kb_rules::Report;

/// Why nothing is landed.
#[derive(Clone, Copy, Debug, PartialEq, Eq)]
pub enum LandFault {
    /// No request waits.
    NoFlight,
    /// The link lost the request or its answer, and the session has ended.
    LinkFault,
    ByFolder(PutRefusal),
}

fn refused(device: DeviceName, reason: Reason) -> Line
    ensures { result ≡ shown.Refused device reason }
{
    Line::Refused { device, reason }
}

fn plan_reason(why: PlanFault) -> Reason
    ensures { result ≡ plan_reason why }
{
    match why {
        PlanFault::BadPath => Reason::BadPath,
        PlanFault::TooDeep => Reason::TooDeep,
        PlanFault::NotFound => Reason::NotFound,
        PlanFault::NotDir => Reason::NotDir,
        PlanFault::NotFile => Reason::NotFile,
        PlanFault::Exists => Reason::Exists,
        PlanFault::NotEmpty => Reason::NotEmpty,
        PlanFault::Inside => Reason::Inside,
        PlanFault::TooBig => Reason::TooBig,
        PlanFault::TreeFull => Reason::TreeFull,
        PlanFault::Memory => Reason::Memory,
    }
}

fn show_reason(why: ShowFault) -> Reason
    ensures { result ≡ show_reason why }
{
    match why {
        ShowFault::BadPath => Reason::BadPath,
        ShowFault::TooDeep => Reason::TooDeep,
        ShowFault::NotFound => Reason::NotFound,
        ShowFault::NotDir => Reason::NotDir,
        ShowFault::NotFile => Reason::NotFile,
        ShowFault::Memory => Reason::Memory,
    }
}

/// The line of a file call, unless memory ran out.
pub fn called_line(device: DeviceName, answer: Result<Called, CallFault>) -> Result<Line, Memory>
    ensures line { IfOk result (λ line. line ≡ called_line device (told_call answer)) }
    ensures answer { OnOk result (IsCalled answer) }
    ensures memory { OnErr result (answer ≡ Err call.Memory) }
{
    match answer {
        Ok(Called::Done { seq }) => Ok(Line::Done { device, seq }),
        Ok(Called::Same) => Ok(Line::Same { device }),
        Err(CallFault::Closed) => Ok(refused(device, Reason::Closed)),
        Err(CallFault::ReadOnly) => Ok(refused(device, Reason::ReadOnly)),
        Err(CallFault::ByPlan(why)) => Ok(refused(device, plan_reason(why))),
        Err(CallFault::Spent) => Ok(refused(device, Reason::Spent)),
        Err(CallFault::QueueFull) => Ok(refused(device, Reason::QueueFull)),
        Err(CallFault::Full { need, room }) => Ok(refused(device, Reason::Full { need, room })),
        Err(CallFault::Memory) => Err(Memory),
        Err(CallFault::Stopped) => Ok(refused(device, Reason::Stopped)),
    }
}

/// The line of a show, unless memory ran out.
pub fn shown_line(device: DeviceName, answer: Result<Shown, LookFault>) -> Result<Line, Memory>
    ensures line { IfOk result (λ line. line ≡ shown_line device (told_look answer)) }
    ensures answer { OnOk result (IsLook answer) }
{
    match answer {
        Ok(Shown::Cat { bytes }) => Ok(Line::Cat { device, bytes }),
        Ok(Shown::Ls { rows }) => Ok(Line::Ls { device, rows }),
        Ok(Shown::Tree { at, queue, rows }) => Ok(Line::Tree {
            device,
            at,
            queue,
            rows,
        }),
        Ok(Shown::Stat { row }) => Ok(Line::Stat { device, row }),
        Err(LookFault::Closed) => Ok(refused(device, Reason::Closed)),
        Err(LookFault::ByShow(why)) => Ok(refused(device, show_reason(why))),
        Err(LookFault::Memory) => Err(Memory),
    }
}

/// The line of what a device tells of itself.
pub fn told_line(device: DeviceName, answer: Result<Status, Closed>) -> Line
    ensures { result ≡ status_line device (told_tell answer) }
{
    match answer {
        Ok(status) => Line::Status {
            device,
            at: status.at,
            queue: status.queue,
            last: status.last,
            branched: status.branched,
            flight: status.flight,
        },
        Err(Closed) => refused(device, Reason::Closed),
    }
}

/// The line of a pick, which tells the operation's seq and the revision's number, unless memory ran out.
pub fn picked_line(
    device: DeviceName,
    answer: Result<(u32, u32), PickFault>,
) -> Result<Line, Memory>
    ensures line { IfOk result (λ line. line ≡ picked_line device (told_pick answer)) }
    ensures answer { OnOk result (IsPick answer) }
    ensures memory { OnErr result (answer ≡ Err pick.Memory) }
{
    match answer {
        Ok((seq, revision)) => Ok(Line::Picked {
            device,
            seq,
            revision,
        }),
        Err(PickFault::Closed) => Ok(refused(device, Reason::Closed)),
        Err(PickFault::InFlight) => Ok(refused(device, Reason::InFlight)),
        Err(PickFault::Branched) => Ok(refused(device, Reason::Branched)),
        Err(PickFault::Idle) => Ok(refused(device, Reason::Idle)),
        Err(PickFault::Memory) => Err(Memory),
    }
}

// The reason of a refused put, unless memory ran out.
fn put_reason(refusal: PutRefusal) -> Result<Reason, Memory>
    ensures reason { IfOk result (IsReason refusal) }
    ensures some { OnOk result (IsLand (Err (land.ByFolder refusal))) }
    ensures memory { OnErr result (refusal ≡ why.Memory) }
{
    match refusal {
        PutRefusal::BadRevision => Ok(Reason::BadRevision),
        PutRefusal::NotWriter => Ok(Reason::NotWriter),
        PutRefusal::BadSignature => Ok(Reason::BadSignature),
        PutRefusal::Stale { len, head: _ } => Ok(Reason::Stale { length: len }),
        PutRefusal::SeqGap { expected: _ } => Ok(Reason::SeqGap),
        PutRefusal::BadFit => Ok(Reason::BadFit),
        PutRefusal::ChainEnd => Ok(Reason::ChainEnd),
        PutRefusal::Collision { id } => Ok(Reason::Collision { id }),
        PutRefusal::Memory => Err(Memory),
    }
}

/// The line of a put, unless memory ran out.
pub fn landed_line(device: DeviceName, answer: Result<u32, LandFault>) -> Result<Line, Memory>
    ensures line { IfOk result (λ line. (told : Result ℕ machine.LandFault) → IsLanding answer told → line ≡ landed_line device told) }
    ensures answer { OnOk result (IsLand answer) }
    ensures memory { OnErr result (answer ≡ Err (land.ByFolder why.Memory)) }
{
    match answer {
        Ok(revision) => Ok(Line::Landed { device, revision }),
        Err(LandFault::NoFlight) => Ok(refused(device, Reason::NoFlight)),
        Err(LandFault::LinkFault) => Ok(refused(device, Reason::LinkFault)),
        Err(LandFault::ByFolder(why)) => {
            let reason = put_reason(why)?;
            Ok(refused(device, reason))
        }
    }
}

/// The line of a note.
pub fn noted_line(device: DeviceName, answer: Result<Noted, NoteFault>) -> Line
    ensures { result ≡ noted_line device (told answer) }
{
    match answer {
        Ok(Noted::Landed { number }) => Line::Noted {
            device,
            revision: number,
        },
        Ok(Noted::Branched { at }) => Line::BranchedAt {
            device,
            revision: at,
        },
        Ok(Noted::Kept) => Line::Kept { device },
        Err(NoteFault::Closed) => refused(device, Reason::Closed),
        Err(NoteFault::NoFlight) => refused(device, Reason::NoFlight),
        Err(NoteFault::Stopped) => refused(device, Reason::Stopped),
    }
}

/// The line of a pull, unless memory ran out.
pub fn pulled_line(device: DeviceName, answer: Result<u32, PullFault>) -> Result<Line, Memory>
    ensures line { IfOk result (λ line. IsPull answer → line ≡ pulled_line device (told_pull answer)) }
    ensures answer { OnOk result (IsPulled answer) }
    ensures memory { OnErr result (answer ≡ Err pull.Memory) }
{
    match answer {
        Ok(revision) => Ok(Line::At { device, revision }),
        Err(PullFault::Closed) => Ok(refused(device, Reason::Closed)),
        Err(PullFault::NotMember) => Ok(refused(device, Reason::NotMember)),
        Err(PullFault::Unflushed) => Ok(refused(device, Reason::Unflushed)),
        Err(PullFault::BadFolder { number: _ }) => Ok(refused(device, Reason::BadFolder)),
        Err(PullFault::Memory) => Err(Memory),
        Err(PullFault::Stopped) => Ok(refused(device, Reason::Stopped)),
    }
}

/// The line of an opening, unless memory ran out.
pub fn opened_line(device: DeviceName, answer: Result<Status, OpenFault>) -> Result<Line, Memory>
    ensures line { IfOk result (λ line. line ≡ opened_line device (told_open answer)) }
    ensures answer { OnOk result (IsOpening answer) }
    ensures memory { OnErr result (answer ≡ Err opening.Memory) }
{
    match answer {
        Ok(status) => Ok(Line::Opened {
            device,
            at: status.at,
            queue: status.queue,
            last: status.last,
        }),
        Err(OpenFault::AlreadyOpen) => Ok(refused(device, Reason::AlreadyOpen)),
        Err(OpenFault::NotMember) => Ok(refused(device, Reason::NotMember)),
        Err(OpenFault::Stopped) => Ok(refused(device, Reason::Stopped)),
        Err(OpenFault::BadDisk) => Ok(refused(device, Reason::BadDisk)),
        Err(OpenFault::Foreign { known: _ }) => Ok(refused(device, Reason::Foreign)),
        Err(OpenFault::BadFolder { number: _ }) => Ok(refused(device, Reason::BadFolder)),
        Err(OpenFault::Memory) => Err(Memory),
    }
}

/// The line of a fetch, unless memory ran out.
pub fn fetched_line(device: DeviceName, answer: Result<u32, FetchFault>) -> Result<Line, Memory>
    ensures line { IfOk result (λ line. IsFetch answer → line ≡ fetched_line device (told_fetch answer)) }
    ensures answer { OnOk result (IsFetched answer) }
    ensures memory { OnErr result (answer ≡ Err fetch.Memory) }
{
    match answer {
        Ok(revision) => Ok(Line::Fetched { device, revision }),
        Err(FetchFault::Closed) => Ok(refused(device, Reason::Closed)),
        Err(FetchFault::NotMember) => Ok(refused(device, Reason::NotMember)),
        Err(FetchFault::NoBranch) => Ok(refused(device, Reason::NoBranch)),
        Err(FetchFault::BadFolder { number: _ }) => Ok(refused(device, Reason::BadFolder)),
        Err(FetchFault::Memory) => Err(Memory),
    }
}

/// The line of a settle, unless memory ran out.
pub fn settled_line(
    device: DeviceName,
    answer: Result<(u32, Report), SettleFault>,
) -> Result<Line, Memory>
    ensures line { IfOk result (λ line. (told : Result (ℕ × reports.Report) says.SettleFault) → IsSettling answer told → line ≡ settled_line device told) }
    ensures answer { OnOk result (IsSettled answer) }
    ensures memory { OnErr result (LacksSettle answer) }
{
    match answer {
        Ok((revision, report)) => Ok(Line::Merged {
            device,
            revision,
            copies: u64::from(report.copies),
            renamed: report.renamed,
            joined: report.joined,
        }),
        Err(SettleFault::Closed) => Ok(refused(device, Reason::Closed)),
        Err(SettleFault::NoPlan) => Ok(refused(device, Reason::NoPlan)),
        Err(SettleFault::Memory) => Err(Memory),
        Err(SettleFault::LinkFault) => Ok(refused(device, Reason::LinkFault)),
        Err(SettleFault::ByPut(why)) => {
            let reason = put_reason(why)?;
            Ok(refused(device, reason))
        }
        Err(SettleFault::Stopped) => Ok(refused(device, Reason::Stopped)),
    }
}

fn unchanged(reason: Reason) -> Line
    ensures { result ≡ shown.FolderRefused reason }
{
    Line::FolderRefused { reason }
}

/// The line of a change of members, unless memory ran out.
pub fn rekeyed_line(answer: Result<u32, RekeyFault>) -> Result<Line, Memory>
    ensures line { IfOk result (λ line. line ≡ rekeyed_line (told_rekey answer)) }
    ensures answer { OnOk result (IsRekeyed answer) }
    ensures memory { OnErr result (answer ≡ Err rekey.Memory) }
{
    match answer {
        Ok(revision) => Ok(Line::FolderAt { revision }),
        Err(RekeyFault::NotWriter) => Ok(unchanged(Reason::NotWriter)),
        Err(RekeyFault::Known) => Ok(unchanged(Reason::Known)),
        Err(RekeyFault::NotMember) => Ok(unchanged(Reason::NotMember)),
        Err(RekeyFault::LastWriter) => Ok(unchanged(Reason::LastWriter)),
        Err(RekeyFault::GenEnd) => Ok(unchanged(Reason::GenEnd)),
        Err(RekeyFault::ChainEnd) => Ok(unchanged(Reason::ChainEnd)),
        Err(RekeyFault::Memory) => Err(Memory),
    }
}
