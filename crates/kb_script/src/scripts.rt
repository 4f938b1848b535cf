ghost use Rattle.std.specs.Prelude.{◌≡◌, ◌+◌, ◌<◌, ◌^◌, ◌↔◌, ◌++◌, ◌∷◌, [], true, false, length, reverse, MatchOption, IfOk, IfErr, IfSome, OnOk};
ghost use Rattle.std.specs.Str.{is_utf8};
ghost use Rattle.std.specs.Str.Lines.{lines_of_parts};
ghost use Rattle.kb_name.specs.Texts.{texts};
ghost use Rattle.kb_script.specs.Fit.{IsFit, AllFit};
ghost use Rattle.kb_script.specs.Seen.{known, count_in};
ghost use Rattle.kb_script.specs.Reasons.{answer};
ghost use Rattle.kb_script.specs.Gives.{GivesLine};
ghost use Rattle.kb_script.specs.Earlier.{known_of, AllFitBack};
ghost use Rattle.kb_script.specs.Scripts.{Adds, Refuses, fault_at, ReadsLines, ReadsScript, HasOneReading};
ghost use Rattle.kb_script.specs.Answers.{line_answer, worded_answer};

use super::cuts::{cut_words, is_comment, without_return, word};
use super::faults::{LineFault, ScriptFault, Why};
use super::noting::{note, start};
use super::state::Seen;
use super::statements::Statement;
use super::verbs::{Verb, is_later_word, verb_of};
use super::{reads, shows};
use kb_name::parts;
use std::alloc::Global;

/// What a statement's words say.
fn statement(alloc: Global, seen: &Seen, verb: Verb, words: &[&str]) -> Result<Statement, LineFault>
    ensures value { GivesLine (λ s. s) result (answer (known seen.now) verb (texts words.now)) }
    ensures fit { IfOk result (λ s. IsFit (count_in seen.now) seen.now.found s) }
{
    match verb {
        Verb::Seed => reads::seed(seen, words),
        Verb::Device => reads::device_line(alloc, seen, words),
        Verb::Found => reads::found(seen, words),
        Verb::Grant => reads::grant(seen, words),
        Verb::Revoke => reads::revoke(seen, words),
        Verb::At => reads::at(seen, words),
        Verb::Open => reads::open(seen, words),
        Verb::Pick => reads::pick(seen, words),
        Verb::Land => reads::land(seen, words),
        Verb::Note => reads::note(seen, words),
        Verb::Flush => reads::flush(seen, words),
        Verb::Drain => reads::drain(seen, words),
        Verb::Pull => reads::pull(seen, words),
        Verb::Fetch => reads::fetch(seen, words),
        Verb::Settle => reads::settle(seen, words),
        Verb::Resolve => reads::resolve(seen, words),
        Verb::Status => reads::status(seen, words),
        Verb::Fuse => reads::fuse(seen, words),
        Verb::Lose => reads::lose(seen, words),
        Verb::Power => reads::power(seen, words),
        Verb::Folder => reads::folder(seen, words),
        Verb::Verify => reads::verify(seen, words),
        Verb::Mkdir => reads::mkdir(alloc, seen, words),
        Verb::Mkfile => reads::mkfile(alloc, seen, words),
        Verb::Link => reads::link(alloc, seen, words),
        Verb::Remove => reads::remove(alloc, seen, words),
        Verb::Move => reads::move_line(alloc, seen, words),
        Verb::Write => reads::write(alloc, seen, words),
        Verb::Cut => reads::cut(alloc, seen, words),
        Verb::Chmod => reads::chmod(alloc, seen, words),
        Verb::Touch => reads::touch(alloc, seen, words),
        Verb::Cat => shows::cat(alloc, seen, words),
        Verb::Ls => shows::ls(alloc, seen, words),
        Verb::Tree => shows::tree(seen, words),
        Verb::Stat => shows::stat(alloc, seen, words),
    }
}

fn worded(
    alloc: Global,
    live: bool,
    seen: &Seen,
    words: &[&str],
) -> Result<Option<Statement>, LineFault>
    ensures value { GivesLine (λ s. s) result (worded_answer live (known seen.now) (texts words.now)) }
    ensures fit { IfOk result (λ o. IfSome o (λ s. IsFit (count_in seen.now) seen.now.found s)) }
{
    if is_comment(words) {
        return Ok(None);
    }
    let first = word(words, 0);
    let Some(verb) = verb_of(first) else {
        let why = if is_later_word(live, first) {
            Why::Later
        } else {
            Why::Word
        };
        return Err(LineFault::Bad(why));
    };
    let statement = statement(alloc, seen, verb, words)?;
    Ok(Some(statement))
}

/// The line, where it is UTF-8.
fn text_of(line: &[u8]) -> Option<&str>
    ensures { MatchOption result (is_utf8 line.now ≡ false) (λ t. (is_utf8 line.now ≡ true) × (t.now ≡ line.now)) }
{
    str::from_utf8(line).ok()
}

/// What a line says, which is nothing for a blank line and a comment.
fn read_line<'a>(
    alloc: Global,
    live: bool,
    seen: &Seen,
    words: &mut Vec<&'a str>,
    line: &'a [u8],
) -> Result<Option<Statement>, LineFault>
    ensures value { GivesLine (λ s. s) result (line_answer live (known seen.now) line.now) }
    ensures fit { IfOk result (λ o. IfSome o (λ s. IsFit (count_in seen.now) seen.now.found s)) }
{
    let Some(text) = text_of(line) else {
        return Err(LineFault::Bad(Why::Text));
    };
    cut_words(words, text)?;
    worded(alloc, live, seen, words)
}

/// Reads a line behind these statements, and takes note of what it says.
fn step<'a>(
    alloc: Global,
    live: bool,
    seen: &mut Seen,
    words: &mut Vec<&'a str>,
    statements: &mut Vec<Statement>,
    line: &'a [u8],
) -> Result<(), LineFault>
    requires known { known seen.old ≡ known_of (reverse statements.old.items) }
    requires fit { AllFitBack (reverse statements.old.items) }
    ensures kept { OnOk result (known seen.new ≡ known_of (reverse statements.new.items)) }
    ensures fit { OnOk result (AllFitBack (reverse statements.new.items)) }
    ensures ok { OnOk result (Adds (line_answer live (known_of (reverse statements.old.items)) line.now) statements.old.items statements.new.items) }
    ensures err { IfErr result (Refuses (line_answer live (known_of (reverse statements.old.items)) line.now)) }
{
    if let Some(statement) = read_line(alloc, live, seen, words, line)? {
        note(alloc, seen, &statement)?;
        statements.push(statement)?;
    }
    Ok(())
}

fn fault_at(line: u32, fault: LineFault) -> ScriptFault
    ensures { result ≡ fault_at line fault }
{
    match fault {
        LineFault::Bad(why) => ScriptFault::BadLine { line, why },
        LineFault::Memory => ScriptFault::Memory,
    }
}

/// Reads the lines between the line feeds. The last is one where it isn't empty.
fn read_parts<'a>(
    alloc: Global,
    live: bool,
    ended: &[&'a [u8]],
    last: &'a [u8],
) -> Result<Vec<Statement>, ScriptFault>
    requires { length ended.now + 1 < 2 ^ 32 }
    ensures value { ReadsLines (λ v. v.items) live (lines_of_parts (texts ended.now ++ last.now ∷ [])) result }
    ensures fit { IfOk result (λ v. AllFit v.items) }
{
    let mut seen = start(alloc);
    let mut words = Vec::new(alloc);
    let mut statements = Vec::new(alloc);
    for (i, part) in ended.iter().enumerate() {
        let line = without_return(part);
        match step(alloc, live, &mut seen, &mut words, &mut statements, line) {
            Ok(()) => {}
            Err(fault) => return Err(fault_at(i as u32 + 1, fault)),
        }
    }
    if last.is_empty() {
        return Ok(statements);
    }
    match step(alloc, live, &mut seen, &mut words, &mut statements, last) {
        Ok(()) => Ok(statements),
        Err(fault) => Err(fault_at(ended.len() as u32 + 1, fault)),
    }
}

/// The statements of a script: `live` says whether a block may stand in it. A bad line is counted from 1, and has the
/// first of the reasons that apply to it.
pub fn parse(alloc: Global, bytes: &[u8], live: bool) -> Result<Vec<Statement>, ScriptFault>
    ensures value { ReadsScript (λ v. v.items) live bytes.now result }
    ensures too_long { (result ≡ Err ScriptFault.TooLong) ↔ (1048576 < length bytes.now) }
    ensures fit { IfOk result (λ v. AllFit v.items) }
    ensures one_reading { HasOneReading live bytes.now }
{
    if bytes.len() > 1_048_576 {
        return Err(ScriptFault::TooLong);
    }
    let parts = parts(alloc, bytes, b'\n')?;
    let Some((last, ended)) = parts.split_last() else {
        return Ok(Vec::new(alloc));
    };
    read_parts(alloc, live, ended, last)
}
