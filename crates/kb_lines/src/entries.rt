//! Entries of the history of a block of workers: what a worker asked for, and the answer.
ghost use Rattle.std.specs.Prelude.{◌≡◌, ◌++◌, codes, decimal, OnOk};
ghost use Rattle.std.specs.String.{string_bytes};
ghost use Rattle.kb_name.specs.Texts.{escaped};
ghost use Rattle.kb_lines.specs.EntryTexts.{request_text, range_text, show_text, asked_text, answer_text, entry_text, standing};

use super::lines::{Answer, Asked};
use super::pieces::{branch_text, escaped, exec_text, flight_text, push_reason};
use super::rows::push_stat;
use kb_ops::{Request, Show};
use std::alloc::{AllocError, Global};

fn push_link(text: &mut String, path: &str, target: &[u8]) -> Result<(), AllocError>
    ensures { OnOk result (string_bytes text.new ≡ string_bytes text.old ++ (codes "link " ++ path.now ++ codes " =" ++ escaped target.now)) }
{
    write!(text, "link {path} ={}", escaped(target))
}

fn push_write(text: &mut String, path: &str, offset: u32, bytes: &[u8]) -> Result<(), AllocError>
    ensures { OnOk result (string_bytes text.new ≡ string_bytes text.old ++ (codes "write " ++ path.now ++ codes " " ++ decimal offset ++ codes " =" ++ escaped bytes.now)) }
{
    write!(text, "write {path} {offset} ={}", escaped(bytes))
}

/// The words of a file call, without its device.
fn push_request(text: &mut String, request: &Request) -> Result<(), AllocError>
    ensures { OnOk result (string_bytes text.new ≡ string_bytes text.old ++ request_text request.now) }
{
    match request {
        Request::Mkdir { path } => write!(text, "mkdir {}", path.as_str()),
        Request::Mkfile { path } => write!(text, "mkfile {}", path.as_str()),
        Request::Link { path, target } => push_link(text, path.as_str(), target.as_slice()),
        Request::Remove { path } => write!(text, "rm {}", path.as_str()),
        Request::Move { from, to } => write!(text, "mv {} {}", from.as_str(), to.as_str()),
        Request::Write {
            path,
            offset,
            bytes,
        } => push_write(text, path.as_str(), *offset, bytes.as_slice()),
        Request::Cut { path, length } => write!(text, "cut {} {length}", path.as_str()),
        Request::Exec { path, on } => { write!(text, "chmod {} {}", path.as_str(), exec_text(*on)) }
        Request::Touch { path, mtime } => {
            write!(text, "touch {} {}", path.as_str(), mtime.seconds())
        }
    }
}

fn push_range(text: &mut String, range: Option<(u32, u32)>) -> Result<(), AllocError>
    ensures { OnOk result (string_bytes text.new ≡ string_bytes text.old ++ range_text range) }
{
    match range {
        Some((offset, length)) => write!(text, " {offset} {length}"),
        None => Ok(()),
    }
}

/// The words of a show, without its device.
fn push_show(text: &mut String, show: &Show) -> Result<(), AllocError>
    ensures { OnOk result (string_bytes text.new ≡ string_bytes text.old ++ show_text show.now) }
{
    match show {
        Show::Cat { path, range } => {
            write!(text, "cat {}", path.as_str())?;
            push_range(text, *range)
        }
        Show::Ls { path } => write!(text, "ls {}", path.as_str()),
        Show::Tree => text.push_str("tree"),
        Show::Stat { path } => write!(text, "stat {}", path.as_str()),
    }
}

fn push_status(text: &mut String, at: u32, queue: u32, last: u32) -> Result<(), AllocError>
    ensures { OnOk result (string_bytes text.new ≡ string_bytes text.old ++ standing (codes "status") at queue last) }
{
    write!(text, "status at {at} queue {queue} last {last}")
}

/// An answer as its reply has it, without the device.
fn push_answer(alloc: Global, text: &mut String, answer: &Answer) -> Result<(), AllocError>
    ensures { OnOk result (string_bytes text.new ≡ string_bytes text.old ++ answer_text answer.now) }
{
    match answer {
        Answer::Done { seq } => write!(text, "done {seq}"),
        Answer::Same => text.push_str("same"),
        Answer::Refused { reason } => {
            text.push_str("refused ")?;
            push_reason(alloc, text, reason)
        }
        Answer::Cat { bytes } => write!(text, "={}", escaped(bytes.as_slice())),
        Answer::Stat { row } => push_stat(text, row),
        Answer::Status {
            at,
            queue,
            last,
            branched,
            flight,
        } => {
            push_status(text, *at, *queue, *last)?;
            write!(text, " {} {}", branch_text(*branched), flight_text(*flight))
        }
        Answer::Picked { seq, revision } => write!(text, "picked {seq} as {revision}"),
        Answer::Landed { revision } => write!(text, "landed {revision}"),
        Answer::Noted { revision } => write!(text, "noted {revision}"),
        Answer::BranchedAt { revision } => write!(text, "branched at {revision}"),
        Answer::Kept => text.push_str("kept"),
    }
}

fn push_asked(alloc: Global, text: &mut String, asked: &Asked) -> Result<(), AllocError>
    ensures { OnOk result (string_bytes text.new ≡ string_bytes text.old ++ asked_text asked.now) }
{
    match asked {
        Asked::Call { request } => push_request(text, request),
        Asked::Look { show } => push_show(text, show),
        Asked::Status => text.push_str("status"),
        Asked::Pick => text.push_str("pick"),
        Asked::Note { put } => {
            text.push_str("note ")?;
            push_answer(alloc, text, put)
        }
        Asked::Put { revision } => write!(text, "put {revision}"),
    }
}

/// What a worker asked for, and the answer.
pub fn push_entry(
    alloc: Global,
    text: &mut String,
    worker: u32,
    asked: &Asked,
    answer: &Answer,
) -> Result<(), AllocError>
    ensures { OnOk result (string_bytes text.new ≡ string_bytes text.old ++ entry_text worker asked.now answer.now) }
{
    write!(text, "{worker} ")?;
    push_asked(alloc, text, asked)?;
    text.push_str(" -> ")?;
    push_answer(alloc, text, answer)?;
    text.push_str("\n")
}
