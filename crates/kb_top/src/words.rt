//! The words of the command line.
ghost use Rattle.std.specs.Prelude.{◌≡◌, ◌≤◌, ◌↔◌, ℕ, IsTrue, MatchOption, decimal};
ghost use Rattle.std.specs.Char.{is_ascii_digit};
ghost use Rattle.std.specs.List.{list_all};
ghost use Rattle.kb_edge.specs.Causes.{Rose};
ghost use Rattle.kb_world.specs.Machine.{new_state};
ghost use Rattle.kb_folder.specs.Chains.{Names};
ghost use Rattle.kb_world.specs.Standing.{WorldStands};
ghost use Rattle.kb_top.specs.Outcomes.{Headline, GenEnd, UsageEnd, IsComplete, IsWhole, IsRun, IsGen};
ghost use Rattle.kb_top.specs.Asking.{AsksFor, is_numeral};

use crate::generated::run_gen;
use crate::run::run_script;
use crate::status::Status;
use kb_edge::{DiskMaker, Failed, Sink, Source};
use kb_world::World;
use std::alloc::Global;

/// Does what the words of a command line ask for, without the program's name: `run` runs the script of the source, `gen` and
/// a number from 1 to 1,000, in digits without a leading zero, the statements generated for it. For other words the usage
/// is put, and nothing is run.
pub fn run_words<S: Source, K: Sink, M: DiskMaker>(
    alloc: Global,
    words: &[String],
    source: &mut S,
    sink: &mut K,
    world: &mut World<M>,
) -> Status
    requires { (names : Names) → WorldStands names world.old new_state }
    ensures run { IsRun words.now → Headline WorldStands world.new (K.held sink.old) (K.held sink.new) (S.left source.old) result }
    ensures complete { IsRun words.now → IsComplete (S.left source.old) (S.faults source.old) (S.faults source.new) (K.faults sink.old) (K.faults sink.new) result }
    ensures generated { (number : ℕ) → IsGen words.now number → GenEnd WorldStands world.new (K.held sink.old) (K.held sink.new) number result }
    ensures whole { (number : ℕ) → IsGen words.now number → IsWhole (K.faults sink.old) (K.faults sink.new) result }
    ensures usage { ¬ IsRun words.now → ((number : ℕ) → ¬ IsGen words.now number) → UsageEnd WorldStands world.new (K.held sink.old) (K.held sink.new) result }
    ensures read { result ≡ Status.ReadFault → Rose (S.faults source.old) (S.faults source.new) }
    ensures write { result ≡ Status.WriteFault → Rose (K.faults sink.old) (K.faults sink.new) }
{
    match asks_for(words) {
        Asked::Run => run_script(alloc, source, sink, world),
        Asked::Gen { number } => run_gen(alloc, number, sink, world),
        Asked::Nothing => match sink.put(b"usage: kbfolder run | live | gen N\n") {
            Ok(()) => Status::Usage,
            Err(Failed) => Status::WriteFault,
        },
    }
}

/// What the words ask for.
enum Asked {
    Run,
    Gen { number: u32 },
    Nothing,
}

fn asks_for(words: &[String]) -> Asked
    ensures { AsksFor words.now result }
{
    match words {
        [word] => {
            if word.as_str() == "run" {
                Asked::Run
            } else {
                Asked::Nothing
            }
        }
        [word, number] => {
            if word.as_str() != "gen" {
                return Asked::Nothing;
            }
            match number_of(number.as_str()) {
                Some(number) => Asked::Gen { number },
                None => Asked::Nothing,
            }
        }
        _ => Asked::Nothing,
    }
}

// The number from 1 to 1,000 that a word spells.
fn number_of(word: &str) -> Option<u32>
    ensures { MatchOption result ((number : ℕ) → 1 ≤ number → number ≤ 1000 → ¬ (word.now ≡ decimal number)) (λ number. (1 ≤ number) × (number ≤ 1000) × (word.now ≡ decimal number)) }
{
    if !is_numeral(word) {
        return None;
    }
    let Ok(number) = word.parse::<u32>() else {
        return None;
    };
    if !is_in_range(number) {
        return None;
    }
    Some(number)
}

// Whether there are statements for the number.
fn is_in_range(number: u32) -> bool
    ensures { IsTrue result ↔ (1 ≤ number) × (number ≤ 1000) }
{
    number >= 1 && number <= 1000
}

// Whether a word is digits of which the first isn't 0.
fn is_numeral(word: &str) -> bool
    ensures { result ≡ is_numeral word.now }
{
    let digits = word.as_bytes();
    are_digits(digits) && !digits.is_empty() && digits[0] != b'0'
}

fn are_digits(word: &[u8]) -> bool
    ensures { result ≡ list_all is_ascii_digit word.now }
{
    word.iter().all(|digit| digit.is_ascii_digit())
}
