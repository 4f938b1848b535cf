//! Pieces of the text.
ghost use Rattle.std.specs.Prelude.{◌≡◌, ◌++◌, OnOk};
ghost use Rattle.std.specs.String.{string_bytes};
ghost use Rattle.percent_encoding.specs.Iter.{encoded_text};
ghost use Rattle.kb_name.specs.Texts.{escaped};
ghost use Rattle.kb_lines.specs.RowTexts.{kind_text, exec_text, path_text};
ghost use Rattle.kb_lines.specs.EntryTexts.{branch_text, flight_text};
ghost use Rattle.kb_lines.specs.Reasons.{reason_name, reason_text};

use super::reasons::Reason;
use kb_name::Name;
use kb_ops::Kind;
use percent_encoding::{AsciiSet, CONTROLS, PercentEncode, ascii_set, percent_encode};
use std::alloc::{AllocError, Global};

const ESCAPED: AsciiSet = ascii_set!(CONTROLS.add(b' ').add(b'%'));

/// The bytes as `escape` of kb_name writes them.
pub fn escaped(bytes: &[u8]) -> PercentEncode<'_>
    ensures { encoded_text result ≡ escaped bytes.now }
{
    percent_encode(bytes, ESCAPED)
}

pub fn kind_text(kind: Kind) -> &'static str
    ensures { result.now ≡ kind_text kind }
{
    match kind {
        Kind::Dir => "d",
        Kind::File => "f",
        Kind::Link => "l",
    }
}

pub fn exec_text(on: bool) -> &'static str
    ensures { result.now ≡ exec_text on }
{
    if on { "x" } else { "-" }
}

pub fn branch_text(branched: bool) -> &'static str
    ensures { result.now ≡ branch_text branched }
{
    if branched { "branched" } else { "merged" }
}

pub fn flight_text(flight: bool) -> &'static str
    ensures { result.now ≡ flight_text flight }
{
    if flight { "flight" } else { "idle" }
}

/// `/` and a name, repeated.
pub fn push_path(text: &mut String, names: &[Name]) -> Result<(), AllocError>
    ensures { OnOk result (string_bytes text.new ≡ string_bytes text.old ++ path_text names.now) }
{
    for name in names {
        write!(text, "/{}", escaped(name.bytes()))?;
    }
    Ok(())
}

fn reason_name(reason: &Reason) -> &'static str
    ensures { result.now ≡ reason_name reason.now }
{
    match reason {
        Reason::Closed => "Closed",
        Reason::ReadOnly => "ReadOnly",
        Reason::BadPath => "BadPath",
        Reason::TooDeep => "TooDeep",
        Reason::NotFound => "NotFound",
        Reason::NotDir => "NotDir",
        Reason::NotFile => "NotFile",
        Reason::Exists => "Exists",
        Reason::NotEmpty => "NotEmpty",
        Reason::Inside => "Inside",
        Reason::TooBig => "TooBig",
        Reason::TreeFull => "TreeFull",
        Reason::Spent => "Spent",
        Reason::QueueFull => "QueueFull",
        Reason::Full { .. } => "Full",
        Reason::Memory => "Memory",
        Reason::Stopped => "Stopped",
        Reason::AlreadyOpen => "AlreadyOpen",
        Reason::NotMember => "NotMember",
        Reason::BadDisk => "BadDisk",
        Reason::Foreign => "Foreign",
        Reason::BadFolder => "BadFolder",
        Reason::InFlight => "InFlight",
        Reason::Branched => "Branched",
        Reason::Idle => "Idle",
        Reason::NoFlight => "NoFlight",
        Reason::Unflushed => "Unflushed",
        Reason::NoBranch => "NoBranch",
        Reason::NoPlan => "NoPlan",
        Reason::LinkFault => "LinkFault",
        Reason::BadRevision => "BadRevision",
        Reason::NotWriter => "NotWriter",
        Reason::BadSignature => "BadSignature",
        Reason::Stale { .. } => "Stale",
        Reason::SeqGap => "SeqGap",
        Reason::BadFit => "BadFit",
        Reason::ChainEnd => "ChainEnd",
        Reason::Collision { .. } => "Collision",
        Reason::Known => "Known",
        Reason::LastWriter => "LastWriter",
        Reason::GenEnd => "GenEnd",
    }
}

/// The name of a refusal, and its fields where they are printed.
pub fn push_reason(alloc: Global, text: &mut String, reason: &Reason) -> Result<(), AllocError>
    ensures { OnOk result (string_bytes text.new ≡ string_bytes text.old ++ reason_text reason.now) }
{
    let name = reason_name(reason);
    match reason {
        Reason::Full { need, room } => write!(text, "{name} {need} {room}"),
        Reason::Stale { length } => write!(text, "{name} {length}"),
        Reason::Collision { id } => {
            let id = hex::encode(alloc, id.as_slice())?;
            write!(text, "{name} {id}")
        }
        _ => text.push_str(name),
    }
}
