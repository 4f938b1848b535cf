//! What the words of a statement that shows something say.
ghost use Rattle.std.specs.Prelude.{◌≡◌, length, IfOk};
ghost use Rattle.kb_name.specs.Texts.{texts};
ghost use Rattle.kb_script.specs.Fit.{IsFit};
ghost use Rattle.kb_script.specs.Seen.{known, count_in};
ghost use Rattle.kb_script.specs.Reasons.{answer};
ghost use Rattle.kb_script.specs.Gives.{GivesLine};

use super::cuts::{count, word};
use super::faults::{LineFault, Why};
use super::standing::{device, in_order};
use super::state::Seen;
use super::statements::Statement;
use super::values::small;
use super::verbs::Verb;
use kb_ops::{Show, Word};
use std::alloc::Global;

pub fn cat(alloc: Global, seen: &Seen, words: &[&str]) -> Result<Statement, LineFault>
    ensures value { GivesLine (λ s. s) result (answer (known seen.now) Verb.Cat (texts words.now)) }
    ensures fit { IfOk result (λ s. IsFit (count_in seen.now) seen.now.found s) }
{
    match count(words) {
        3 => cat_whole(alloc, seen, words),
        5 => cat_range(alloc, seen, words),
        _ => Err(LineFault::Bad(Why::Count)),
    }
}

fn cat_whole(alloc: Global, seen: &Seen, words: &[&str]) -> Result<Statement, LineFault>
    requires { length (texts words.now) ≡ 3 }
    ensures value { GivesLine (λ s. s) result (answer (known seen.now) Verb.Cat (texts words.now)) }
    ensures fit { IfOk result (λ s. IsFit (count_in seen.now) seen.now.found s) }
{
    let device = device(seen, word(words, 1))?;
    in_order(seen, Verb::Cat)?;
    let path = Word::new(alloc, word(words, 2))?;
    let show = Show::Cat { path, range: None };
    Ok(Statement::Look { device, show })
}

fn cat_range(alloc: Global, seen: &Seen, words: &[&str]) -> Result<Statement, LineFault>
    requires { length (texts words.now) ≡ 5 }
    ensures value { GivesLine (λ s. s) result (answer (known seen.now) Verb.Cat (texts words.now)) }
    ensures fit { IfOk result (λ s. IsFit (count_in seen.now) seen.now.found s) }
{
    let offset = small(word(words, 3))?;
    let length = small(word(words, 4))?;
    let device = device(seen, word(words, 1))?;
    in_order(seen, Verb::Cat)?;
    let path = Word::new(alloc, word(words, 2))?;
    let range = Some((offset, length));
    let show = Show::Cat { path, range };
    Ok(Statement::Look { device, show })
}

pub fn ls(alloc: Global, seen: &Seen, words: &[&str]) -> Result<Statement, LineFault>
    ensures value { GivesLine (λ s. s) result (answer (known seen.now) Verb.Ls (texts words.now)) }
    ensures fit { IfOk result (λ s. IsFit (count_in seen.now) seen.now.found s) }
{
    if count(words) != 3 {
        return Err(LineFault::Bad(Why::Count));
    }
    let device = device(seen, word(words, 1))?;
    in_order(seen, Verb::Ls)?;
    let path = Word::new(alloc, word(words, 2))?;
    let show = Show::Ls { path };
    Ok(Statement::Look { device, show })
}

pub fn tree(seen: &Seen, words: &[&str]) -> Result<Statement, LineFault>
    ensures value { GivesLine (λ s. s) result (answer (known seen.now) Verb.Tree (texts words.now)) }
    ensures fit { IfOk result (λ s. IsFit (count_in seen.now) seen.now.found s) }
{
    if count(words) != 2 {
        return Err(LineFault::Bad(Why::Count));
    }
    let device = device(seen, word(words, 1))?;
    in_order(seen, Verb::Tree)?;
    let show = Show::Tree;
    Ok(Statement::Look { device, show })
}

pub fn stat(alloc: Global, seen: &Seen, words: &[&str]) -> Result<Statement, LineFault>
    ensures value { GivesLine (λ s. s) result (answer (known seen.now) Verb.Stat (texts words.now)) }
    ensures fit { IfOk result (λ s. IsFit (count_in seen.now) seen.now.found s) }
{
    if count(words) != 3 {
        return Err(LineFault::Bad(Why::Count));
    }
    let device = device(seen, word(words, 1))?;
    in_order(seen, Verb::Stat)?;
    let path = Word::new(alloc, word(words, 2))?;
    let show = Show::Stat { path };
    Ok(Statement::Look { device, show })
}
