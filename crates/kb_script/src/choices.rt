ghost use Rattle.std.specs.Prelude.{◌≡◌};
ghost use Rattle.kb_script.specs.Seen.{known};
ghost use Rattle.kb_script.specs.Choices.{fresh_answer, exec_answer, pick_answer, role_answer, side_answer};
ghost use Rattle.kb_script.specs.Gives.{GivesLine};

use super::faults::{LineFault, Why};
use super::standing::is_declared;
use super::state::Seen;
use kb_edge::{Pick, Side};
use kb_keys::Role;
use kb_name::{DeviceName, NameFault};
use std::alloc::Global;

/// The name of a device that isn't declared yet.
pub fn fresh(alloc: Global, seen: &Seen, word: &str) -> Result<DeviceName, LineFault>
    ensures { GivesLine (λ n. n) result (fresh_answer (known seen.now) word.now) }
{
    let name = match DeviceName::new(alloc, word.as_bytes()) {
        Ok(name) => name,
        Err(NameFault::BadName) => return Err(LineFault::Bad(Why::Name)),
        Err(NameFault::Memory) => return Err(LineFault::Memory),
    };
    if is_declared(seen, word) {
        return Err(LineFault::Bad(Why::Device));
    }
    Ok(name)
}

pub fn is_exec(word: &str) -> Result<bool, LineFault>
    ensures { GivesLine (λ b. b) result (exec_answer word.now) }
{
    match word {
        "x" => Ok(true),
        "-" => Ok(false),
        _ => Err(LineFault::Bad(Why::Choice)),
    }
}

/// What a power cut leaves.
pub fn left_by(word: &str) -> Result<Pick, LineFault>
    ensures { GivesLine (λ p. p) result (pick_answer word.now) }
{
    match word {
        "old" => Ok(Pick::Old),
        "new" => Ok(Pick::New),
        "noise" => Ok(Pick::Noise),
        _ => Err(LineFault::Bad(Why::Choice)),
    }
}

/// What a grant makes of a device.
pub fn role_of(word: &str) -> Result<Role, LineFault>
    ensures { GivesLine (λ r. r) result (role_answer word.now) }
{
    match word {
        "writer" => Ok(Role::Writer),
        "reader" => Ok(Role::Reader),
        _ => Err(LineFault::Bad(Why::Choice)),
    }
}

/// What a link loses.
pub fn side_of(word: &str) -> Result<Side, LineFault>
    ensures { GivesLine (λ s. s) result (side_answer word.now) }
{
    match word {
        "request" => Ok(Side::Request),
        "reply" => Ok(Side::Reply),
        _ => Err(LineFault::Bad(Why::Choice)),
    }
}
