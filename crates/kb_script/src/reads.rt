//! What the words of a statement say. Each reader goes in the order of the reasons, and allocates last.
ghost use Rattle.std.specs.Prelude.{◌≡◌, IfOk};
ghost use Rattle.kb_name.specs.Texts.{texts};
ghost use Rattle.kb_script.specs.Fit.{IsFit};
ghost use Rattle.kb_script.specs.Seen.{known, count_in};
ghost use Rattle.kb_script.specs.Reasons.{answer};
ghost use Rattle.kb_script.specs.Gives.{GivesLine};

use super::choices::{fresh, is_exec, left_by, role_of, side_of};
use super::cuts::{count, word};
use super::faults::{LineFault, Why};
use super::standing::{device, in_order};
use super::state::Seen;
use super::statements::Statement;
use super::values::{data, moment, number, seed_word, small};
use super::verbs::Verb;
use kb_ops::{Request, Word};
use std::alloc::Global;

pub fn seed(seen: &Seen, words: &[&str]) -> Result<Statement, LineFault>
    ensures value { GivesLine (λ s. s) result (answer (known seen.now) Verb.Seed (texts words.now)) }
    ensures fit { IfOk result (λ s. IsFit (count_in seen.now) seen.now.found s) }
{
    if count(words) != 2 {
        return Err(LineFault::Bad(Why::Count));
    }
    let seed = seed_word(word(words, 1))?;
    in_order(seen, Verb::Seed)?;
    Ok(Statement::Seed { seed })
}

pub fn device_line(alloc: Global, seen: &Seen, words: &[&str]) -> Result<Statement, LineFault>
    ensures value { GivesLine (λ s. s) result (answer (known seen.now) Verb.Device (texts words.now)) }
    ensures fit { IfOk result (λ s. IsFit (count_in seen.now) seen.now.found s) }
{
    if count(words) != 3 {
        return Err(LineFault::Bad(Why::Count));
    }
    let size = number(word(words, 2), 4096, 16_777_216)? as u32;
    let name = fresh(alloc, seen, word(words, 1))?;
    in_order(seen, Verb::Device)?;
    Ok(Statement::Device { name, size })
}

pub fn found(seen: &Seen, words: &[&str]) -> Result<Statement, LineFault>
    ensures value { GivesLine (λ s. s) result (answer (known seen.now) Verb.Found (texts words.now)) }
    ensures fit { IfOk result (λ s. IsFit (count_in seen.now) seen.now.found s) }
{
    if count(words) != 2 {
        return Err(LineFault::Bad(Why::Count));
    }
    let device = device(seen, word(words, 1))?;
    in_order(seen, Verb::Found)?;
    Ok(Statement::Found { device })
}

pub fn grant(seen: &Seen, words: &[&str]) -> Result<Statement, LineFault>
    ensures value { GivesLine (λ s. s) result (answer (known seen.now) Verb.Grant (texts words.now)) }
    ensures fit { IfOk result (λ s. IsFit (count_in seen.now) seen.now.found s) }
{
    if count(words) != 4 {
        return Err(LineFault::Bad(Why::Count));
    }
    let role = role_of(word(words, 3))?;
    let by = device(seen, word(words, 1))?;
    let device = device(seen, word(words, 2))?;
    in_order(seen, Verb::Grant)?;
    Ok(Statement::Grant { by, device, role })
}

pub fn revoke(seen: &Seen, words: &[&str]) -> Result<Statement, LineFault>
    ensures value { GivesLine (λ s. s) result (answer (known seen.now) Verb.Revoke (texts words.now)) }
    ensures fit { IfOk result (λ s. IsFit (count_in seen.now) seen.now.found s) }
{
    if count(words) != 3 {
        return Err(LineFault::Bad(Why::Count));
    }
    let by = device(seen, word(words, 1))?;
    let device = device(seen, word(words, 2))?;
    in_order(seen, Verb::Revoke)?;
    Ok(Statement::Revoke { by, device })
}

pub fn at(seen: &Seen, words: &[&str]) -> Result<Statement, LineFault>
    ensures value { GivesLine (λ s. s) result (answer (known seen.now) Verb.At (texts words.now)) }
    ensures fit { IfOk result (λ s. IsFit (count_in seen.now) seen.now.found s) }
{
    if count(words) != 2 {
        return Err(LineFault::Bad(Why::Count));
    }
    let moment = moment(word(words, 1))?;
    in_order(seen, Verb::At)?;
    Ok(Statement::At { moment })
}

pub fn open(seen: &Seen, words: &[&str]) -> Result<Statement, LineFault>
    ensures value { GivesLine (λ s. s) result (answer (known seen.now) Verb.Open (texts words.now)) }
    ensures fit { IfOk result (λ s. IsFit (count_in seen.now) seen.now.found s) }
{
    if count(words) != 2 {
        return Err(LineFault::Bad(Why::Count));
    }
    let device = device(seen, word(words, 1))?;
    in_order(seen, Verb::Open)?;
    Ok(Statement::Open { device })
}

pub fn pick(seen: &Seen, words: &[&str]) -> Result<Statement, LineFault>
    ensures value { GivesLine (λ s. s) result (answer (known seen.now) Verb.Pick (texts words.now)) }
    ensures fit { IfOk result (λ s. IsFit (count_in seen.now) seen.now.found s) }
{
    if count(words) != 2 {
        return Err(LineFault::Bad(Why::Count));
    }
    let device = device(seen, word(words, 1))?;
    in_order(seen, Verb::Pick)?;
    Ok(Statement::Pick { device })
}

pub fn land(seen: &Seen, words: &[&str]) -> Result<Statement, LineFault>
    ensures value { GivesLine (λ s. s) result (answer (known seen.now) Verb.Land (texts words.now)) }
    ensures fit { IfOk result (λ s. IsFit (count_in seen.now) seen.now.found s) }
{
    if count(words) != 2 {
        return Err(LineFault::Bad(Why::Count));
    }
    let device = device(seen, word(words, 1))?;
    in_order(seen, Verb::Land)?;
    Ok(Statement::Land { device })
}

pub fn note(seen: &Seen, words: &[&str]) -> Result<Statement, LineFault>
    ensures value { GivesLine (λ s. s) result (answer (known seen.now) Verb.Note (texts words.now)) }
    ensures fit { IfOk result (λ s. IsFit (count_in seen.now) seen.now.found s) }
{
    if count(words) != 2 {
        return Err(LineFault::Bad(Why::Count));
    }
    let device = device(seen, word(words, 1))?;
    in_order(seen, Verb::Note)?;
    Ok(Statement::Note { device })
}

pub fn flush(seen: &Seen, words: &[&str]) -> Result<Statement, LineFault>
    ensures value { GivesLine (λ s. s) result (answer (known seen.now) Verb.Flush (texts words.now)) }
    ensures fit { IfOk result (λ s. IsFit (count_in seen.now) seen.now.found s) }
{
    if count(words) != 2 {
        return Err(LineFault::Bad(Why::Count));
    }
    let device = device(seen, word(words, 1))?;
    in_order(seen, Verb::Flush)?;
    Ok(Statement::Flush { device })
}

pub fn drain(seen: &Seen, words: &[&str]) -> Result<Statement, LineFault>
    ensures value { GivesLine (λ s. s) result (answer (known seen.now) Verb.Drain (texts words.now)) }
    ensures fit { IfOk result (λ s. IsFit (count_in seen.now) seen.now.found s) }
{
    if count(words) != 2 {
        return Err(LineFault::Bad(Why::Count));
    }
    let device = device(seen, word(words, 1))?;
    in_order(seen, Verb::Drain)?;
    Ok(Statement::Drain { device })
}

pub fn pull(seen: &Seen, words: &[&str]) -> Result<Statement, LineFault>
    ensures value { GivesLine (λ s. s) result (answer (known seen.now) Verb.Pull (texts words.now)) }
    ensures fit { IfOk result (λ s. IsFit (count_in seen.now) seen.now.found s) }
{
    if count(words) != 2 {
        return Err(LineFault::Bad(Why::Count));
    }
    let device = device(seen, word(words, 1))?;
    in_order(seen, Verb::Pull)?;
    Ok(Statement::Pull { device })
}

pub fn fetch(seen: &Seen, words: &[&str]) -> Result<Statement, LineFault>
    ensures value { GivesLine (λ s. s) result (answer (known seen.now) Verb.Fetch (texts words.now)) }
    ensures fit { IfOk result (λ s. IsFit (count_in seen.now) seen.now.found s) }
{
    if count(words) != 2 {
        return Err(LineFault::Bad(Why::Count));
    }
    let device = device(seen, word(words, 1))?;
    in_order(seen, Verb::Fetch)?;
    Ok(Statement::Fetch { device })
}

pub fn settle(seen: &Seen, words: &[&str]) -> Result<Statement, LineFault>
    ensures value { GivesLine (λ s. s) result (answer (known seen.now) Verb.Settle (texts words.now)) }
    ensures fit { IfOk result (λ s. IsFit (count_in seen.now) seen.now.found s) }
{
    if count(words) != 2 {
        return Err(LineFault::Bad(Why::Count));
    }
    let device = device(seen, word(words, 1))?;
    in_order(seen, Verb::Settle)?;
    Ok(Statement::Settle { device })
}

pub fn resolve(seen: &Seen, words: &[&str]) -> Result<Statement, LineFault>
    ensures value { GivesLine (λ s. s) result (answer (known seen.now) Verb.Resolve (texts words.now)) }
    ensures fit { IfOk result (λ s. IsFit (count_in seen.now) seen.now.found s) }
{
    if count(words) != 2 {
        return Err(LineFault::Bad(Why::Count));
    }
    let device = device(seen, word(words, 1))?;
    in_order(seen, Verb::Resolve)?;
    Ok(Statement::Resolve { device })
}

pub fn status(seen: &Seen, words: &[&str]) -> Result<Statement, LineFault>
    ensures value { GivesLine (λ s. s) result (answer (known seen.now) Verb.Status (texts words.now)) }
    ensures fit { IfOk result (λ s. IsFit (count_in seen.now) seen.now.found s) }
{
    if count(words) != 2 {
        return Err(LineFault::Bad(Why::Count));
    }
    let device = device(seen, word(words, 1))?;
    in_order(seen, Verb::Status)?;
    Ok(Statement::Status { device })
}

pub fn fuse(seen: &Seen, words: &[&str]) -> Result<Statement, LineFault>
    ensures value { GivesLine (λ s. s) result (answer (known seen.now) Verb.Fuse (texts words.now)) }
    ensures fit { IfOk result (λ s. IsFit (count_in seen.now) seen.now.found s) }
{
    if count(words) != 3 {
        return Err(LineFault::Bad(Why::Count));
    }
    let steps = small(word(words, 2))?;
    let device = device(seen, word(words, 1))?;
    in_order(seen, Verb::Fuse)?;
    Ok(Statement::Fuse { device, steps })
}

pub fn lose(seen: &Seen, words: &[&str]) -> Result<Statement, LineFault>
    ensures value { GivesLine (λ s. s) result (answer (known seen.now) Verb.Lose (texts words.now)) }
    ensures fit { IfOk result (λ s. IsFit (count_in seen.now) seen.now.found s) }
{
    if count(words) != 3 {
        return Err(LineFault::Bad(Why::Count));
    }
    let side = side_of(word(words, 2))?;
    let device = device(seen, word(words, 1))?;
    in_order(seen, Verb::Lose)?;
    Ok(Statement::Lose { device, side })
}

pub fn power(seen: &Seen, words: &[&str]) -> Result<Statement, LineFault>
    ensures value { GivesLine (λ s. s) result (answer (known seen.now) Verb.Power (texts words.now)) }
    ensures fit { IfOk result (λ s. IsFit (count_in seen.now) seen.now.found s) }
{
    if count(words) != 3 {
        return Err(LineFault::Bad(Why::Count));
    }
    let pick = left_by(word(words, 2))?;
    let device = device(seen, word(words, 1))?;
    in_order(seen, Verb::Power)?;
    Ok(Statement::Power { device, pick })
}

pub fn folder(seen: &Seen, words: &[&str]) -> Result<Statement, LineFault>
    ensures value { GivesLine (λ s. s) result (answer (known seen.now) Verb.Folder (texts words.now)) }
    ensures fit { IfOk result (λ s. IsFit (count_in seen.now) seen.now.found s) }
{
    if count(words) != 1 {
        return Err(LineFault::Bad(Why::Count));
    }
    in_order(seen, Verb::Folder)?;
    Ok(Statement::Folder)
}

pub fn verify(seen: &Seen, words: &[&str]) -> Result<Statement, LineFault>
    ensures value { GivesLine (λ s. s) result (answer (known seen.now) Verb.Verify (texts words.now)) }
    ensures fit { IfOk result (λ s. IsFit (count_in seen.now) seen.now.found s) }
{
    if count(words) != 1 {
        return Err(LineFault::Bad(Why::Count));
    }
    in_order(seen, Verb::Verify)?;
    Ok(Statement::Verify)
}

pub fn mkdir(alloc: Global, seen: &Seen, words: &[&str]) -> Result<Statement, LineFault>
    ensures value { GivesLine (λ s. s) result (answer (known seen.now) Verb.Mkdir (texts words.now)) }
    ensures fit { IfOk result (λ s. IsFit (count_in seen.now) seen.now.found s) }
{
    if count(words) != 3 {
        return Err(LineFault::Bad(Why::Count));
    }
    let device = device(seen, word(words, 1))?;
    in_order(seen, Verb::Mkdir)?;
    let path = Word::new(alloc, word(words, 2))?;
    let request = Request::Mkdir { path };
    Ok(Statement::File { device, request })
}

pub fn mkfile(alloc: Global, seen: &Seen, words: &[&str]) -> Result<Statement, LineFault>
    ensures value { GivesLine (λ s. s) result (answer (known seen.now) Verb.Mkfile (texts words.now)) }
    ensures fit { IfOk result (λ s. IsFit (count_in seen.now) seen.now.found s) }
{
    if count(words) != 3 {
        return Err(LineFault::Bad(Why::Count));
    }
    let device = device(seen, word(words, 1))?;
    in_order(seen, Verb::Mkfile)?;
    let path = Word::new(alloc, word(words, 2))?;
    let request = Request::Mkfile { path };
    Ok(Statement::File { device, request })
}

pub fn link(alloc: Global, seen: &Seen, words: &[&str]) -> Result<Statement, LineFault>
    ensures value { GivesLine (λ s. s) result (answer (known seen.now) Verb.Link (texts words.now)) }
    ensures fit { IfOk result (λ s. IsFit (count_in seen.now) seen.now.found s) }
{
    if count(words) != 4 {
        return Err(LineFault::Bad(Why::Count));
    }
    let target = data(alloc, word(words, 3))?;
    let device = device(seen, word(words, 1))?;
    in_order(seen, Verb::Link)?;
    let path = Word::new(alloc, word(words, 2))?;
    let request = Request::Link { path, target };
    Ok(Statement::File { device, request })
}

pub fn remove(alloc: Global, seen: &Seen, words: &[&str]) -> Result<Statement, LineFault>
    ensures value { GivesLine (λ s. s) result (answer (known seen.now) Verb.Remove (texts words.now)) }
    ensures fit { IfOk result (λ s. IsFit (count_in seen.now) seen.now.found s) }
{
    if count(words) != 3 {
        return Err(LineFault::Bad(Why::Count));
    }
    let device = device(seen, word(words, 1))?;
    in_order(seen, Verb::Remove)?;
    let path = Word::new(alloc, word(words, 2))?;
    let request = Request::Remove { path };
    Ok(Statement::File { device, request })
}

pub fn move_line(alloc: Global, seen: &Seen, words: &[&str]) -> Result<Statement, LineFault>
    ensures value { GivesLine (λ s. s) result (answer (known seen.now) Verb.Move (texts words.now)) }
    ensures fit { IfOk result (λ s. IsFit (count_in seen.now) seen.now.found s) }
{
    if count(words) != 4 {
        return Err(LineFault::Bad(Why::Count));
    }
    let device = device(seen, word(words, 1))?;
    in_order(seen, Verb::Move)?;
    let from = Word::new(alloc, word(words, 2))?;
    let to = Word::new(alloc, word(words, 3))?;
    let request = Request::Move { from, to };
    Ok(Statement::File { device, request })
}

pub fn write(alloc: Global, seen: &Seen, words: &[&str]) -> Result<Statement, LineFault>
    ensures value { GivesLine (λ s. s) result (answer (known seen.now) Verb.Write (texts words.now)) }
    ensures fit { IfOk result (λ s. IsFit (count_in seen.now) seen.now.found s) }
{
    if count(words) != 5 {
        return Err(LineFault::Bad(Why::Count));
    }
    let offset = small(word(words, 3))?;
    let bytes = data(alloc, word(words, 4))?;
    let device = device(seen, word(words, 1))?;
    in_order(seen, Verb::Write)?;
    let path = Word::new(alloc, word(words, 2))?;
    let request = Request::Write {
        path,
        offset,
        bytes,
    };
    Ok(Statement::File { device, request })
}

pub fn cut(alloc: Global, seen: &Seen, words: &[&str]) -> Result<Statement, LineFault>
    ensures value { GivesLine (λ s. s) result (answer (known seen.now) Verb.Cut (texts words.now)) }
    ensures fit { IfOk result (λ s. IsFit (count_in seen.now) seen.now.found s) }
{
    if count(words) != 4 {
        return Err(LineFault::Bad(Why::Count));
    }
    let length = small(word(words, 3))?;
    let device = device(seen, word(words, 1))?;
    in_order(seen, Verb::Cut)?;
    let path = Word::new(alloc, word(words, 2))?;
    let request = Request::Cut { path, length };
    Ok(Statement::File { device, request })
}

pub fn chmod(alloc: Global, seen: &Seen, words: &[&str]) -> Result<Statement, LineFault>
    ensures value { GivesLine (λ s. s) result (answer (known seen.now) Verb.Chmod (texts words.now)) }
    ensures fit { IfOk result (λ s. IsFit (count_in seen.now) seen.now.found s) }
{
    if count(words) != 4 {
        return Err(LineFault::Bad(Why::Count));
    }
    let on = is_exec(word(words, 3))?;
    let device = device(seen, word(words, 1))?;
    in_order(seen, Verb::Chmod)?;
    let path = Word::new(alloc, word(words, 2))?;
    let request = Request::Exec { path, on };
    Ok(Statement::File { device, request })
}

pub fn touch(alloc: Global, seen: &Seen, words: &[&str]) -> Result<Statement, LineFault>
    ensures value { GivesLine (λ s. s) result (answer (known seen.now) Verb.Touch (texts words.now)) }
    ensures fit { IfOk result (λ s. IsFit (count_in seen.now) seen.now.found s) }
{
    if count(words) != 4 {
        return Err(LineFault::Bad(Why::Count));
    }
    let mtime = moment(word(words, 3))?;
    let device = device(seen, word(words, 1))?;
    in_order(seen, Verb::Touch)?;
    let path = Word::new(alloc, word(words, 2))?;
    let request = Request::Touch { path, mtime };
    Ok(Statement::File { device, request })
}
