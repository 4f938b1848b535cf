ghost use Rattle.std.specs.Prelude.{◌≡◌, ◌++◌, codes, decimal, IfOk, OnOk};
ghost use Rattle.std.specs.String.{string_bytes};
ghost use Rattle.kb_name.specs.Texts.{escaped};
ghost use Rattle.kb_lines.specs.LineTexts.{says, folder_says, text_of, text_of_all, did_text};
ghost use Rattle.kb_lines.specs.EntryTexts.{standing, branch_text, flight_text};

use super::entries::push_entry;
use super::lines::{Did, Line};
use super::pieces::{branch_text, escaped, flight_text, push_reason};
use super::rows::{push_paths, push_rows, push_stat};
use kb_edge::Memory;
use kb_name::DeviceName;
use std::alloc::{AllocError, Global};

fn push_did(text: &mut String, did: &Did) -> Result<(), AllocError>
    ensures { OnOk result (string_bytes text.new ≡ string_bytes text.old ++ did_text did.now) }
{
    match did {
        Did::Found { device } => write!(text, "found {}", escaped(device.bytes())),
        Did::Step { device, seq } => write!(text, "step {} {seq}", escaped(device.bytes())),
        Did::Merge {
            device,
            first,
            last,
        } => write!(text, "merge {} {first} {last}", escaped(device.bytes())),
        Did::GrantWriter { by, device } => {
            let device = escaped(device.bytes());
            write!(text, "grant {} {device} writer", escaped(by.bytes()))
        }
        Did::GrantReader { by, device } => {
            let device = escaped(device.bytes());
            write!(text, "grant {} {device} reader", escaped(by.bytes()))
        }
        Did::Revoke { by, device } => {
            let device = escaped(device.bytes());
            write!(text, "revoke {} {device}", escaped(by.bytes()))
        }
    }
}

fn push_branched(text: &mut String, device: &DeviceName, revision: u32) -> Result<(), AllocError>
    ensures { OnOk result (string_bytes text.new ≡ string_bytes text.old ++ says device.now (codes "branched at " ++ decimal revision)) }
{
    writeln!(text, "{}: branched at {revision}", escaped(device.bytes()))
}

/// Where a device stands.
fn push_queue(
    text: &mut String,
    device: &DeviceName,
    word: &str,
    at: u32,
    queue: u32,
    last: u32,
) -> Result<(), AllocError>
    ensures { OnOk result (string_bytes text.new ≡ string_bytes text.old ++ (escaped device.now ++ codes ": " ++ standing word.now at queue last)) }
{
    let device = escaped(device.bytes());
    write!(text, "{device}: {word} at {at} queue {queue} last {last}")
}

fn push_marks(text: &mut String, branched: bool, flight: bool) -> Result<(), AllocError>
    ensures { OnOk result (string_bytes text.new ≡ string_bytes text.old ++ (codes " " ++ branch_text branched ++ codes " " ++ flight_text flight ++ codes "\n")) }
{
    writeln!(text, " {} {}", branch_text(branched), flight_text(flight))
}

fn push_report(text: &mut String, copies: u64, renamed: u64, joined: u64) -> Result<(), AllocError>
    ensures { OnOk result (string_bytes text.new ≡ string_bytes text.old ++ (codes " copies " ++ decimal copies ++ codes " renamed " ++ decimal renamed ++ codes " joined " ++ decimal joined ++ codes "\n")) }
{
    writeln!(text, " copies {copies} renamed {renamed} joined {joined}")
}

fn push_chain(text: &mut String, revisions: u32, generation: u32) -> Result<(), AllocError>
    ensures { OnOk result (string_bytes text.new ≡ string_bytes text.old ++ folder_says (decimal revisions ++ codes " revisions generation " ++ decimal generation)) }
{
    writeln!(
        text,
        "folder: {revisions} revisions generation {generation}"
    )
}

fn push_line(alloc: Global, text: &mut String, line: &Line) -> Result<(), AllocError>
    ensures { OnOk result (string_bytes text.new ≡ string_bytes text.old ++ text_of line.now) }
{
    match line {
        Line::FolderAt { revision } => writeln!(text, "folder: at {revision}"),
        Line::FolderRefused { reason } => {
            text.push_str("folder: refused ")?;
            push_reason(alloc, text, reason)?;
            text.push_str("\n")
        }
        Line::Done { device, seq } => writeln!(text, "{}: done {seq}", escaped(device.bytes())),
        Line::Same { device } => writeln!(text, "{}: same", escaped(device.bytes())),
        Line::Refused { device, reason } => {
            write!(text, "{}: refused ", escaped(device.bytes()))?;
            push_reason(alloc, text, reason)?;
            text.push_str("\n")
        }
        Line::Cat { device, bytes } => {
            let bytes = escaped(bytes.as_slice());
            writeln!(text, "{}: ={bytes}", escaped(device.bytes()))
        }
        Line::Ls { device, rows } => {
            let rows = rows.as_slice();
            writeln!(text, "{}: ls {}", escaped(device.bytes()), rows.len())?;
            push_rows(text, rows)
        }
        Line::Tree {
            device,
            at,
            queue,
            rows,
        } => {
            let rows = rows.as_slice();
            let count = rows.len() + 1;
            let device = escaped(device.bytes());
            writeln!(text, "{device}: tree at {at} queue {queue} rows {count}")?;
            push_paths(text, rows)
        }
        Line::Stat { device, row } => {
            write!(text, "{}: ", escaped(device.bytes()))?;
            push_stat(text, row)?;
            text.push_str("\n")
        }
        Line::Picked {
            device,
            seq,
            revision,
        } => writeln!(
            text,
            "{}: picked {seq} as {revision}",
            escaped(device.bytes())
        ),
        Line::Landed { device, revision } => {
            writeln!(text, "{}: landed {revision}", escaped(device.bytes()))
        }
        Line::Noted { device, revision } => {
            writeln!(text, "{}: noted {revision}", escaped(device.bytes()))
        }
        Line::BranchedAt { device, revision } => push_branched(text, device, *revision),
        Line::Kept { device } => writeln!(text, "{}: kept", escaped(device.bytes())),
        Line::At { device, revision } => {
            writeln!(text, "{}: at {revision}", escaped(device.bytes()))
        }
        Line::Fetched { device, revision } => {
            writeln!(text, "{}: fetched {revision}", escaped(device.bytes()))
        }
        Line::Merged {
            device,
            revision,
            copies,
            renamed,
            joined,
        } => {
            write!(text, "{}: merged {revision}", escaped(device.bytes()))?;
            push_report(text, *copies, *renamed, *joined)
        }
        Line::Status {
            device,
            at,
            queue,
            last,
            branched,
            flight,
        } => {
            push_queue(text, device, "status", *at, *queue, *last)?;
            push_marks(text, *branched, *flight)
        }
        Line::Opened {
            device,
            at,
            queue,
            last,
        } => {
            push_queue(text, device, "open", *at, *queue, *last)?;
            text.push_str("\n")
        }
        Line::Off { device } => writeln!(text, "{}: off", escaped(device.bytes())),
        Line::Chain {
            revisions,
            generation,
        } => push_chain(text, *revisions, *generation),
        Line::Revision { number, did } => {
            write!(text, "{number} ")?;
            push_did(text, did)?;
            text.push_str("\n")
        }
        Line::Whole { revisions } => writeln!(text, "folder: whole {revisions}"),
        Line::FolderCell { entries } => writeln!(text, "cell folder {entries}"),
        Line::Cell { device, entries } => {
            writeln!(text, "cell {} {entries}", escaped(device.bytes()))
        }
        Line::Entry {
            worker,
            asked,
            answer,
        } => push_entry(alloc, text, *worker, asked, answer),
    }
}

/// The text of the lines, each with its line feed.
pub fn render(alloc: Global, lines: &[Line]) -> Result<Vec<u8>, Memory>
    ensures { IfOk result (λ v. v.items ≡ text_of_all lines.now) }
{
    let mut text = String::new(alloc);
    for line in lines {
        push_line(alloc, &mut text, line)?;
    }
    Ok(text.into_bytes())
}
