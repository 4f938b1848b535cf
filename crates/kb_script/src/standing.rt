ghost use Rattle.std.specs.Prelude.{◌≡◌, true, IfOk, IfSome, OnOk};
ghost use Rattle.kb_script.specs.Fit.{IsDeclared};
ghost use Rattle.kb_script.specs.Seen.{known, count_in, named, is_declared, device_answer, may_stand, order_answer};
ghost use Rattle.kb_script.specs.Gives.{GivesLine};

use super::faults::{LineFault, Why};
use super::state::Seen;
use super::verbs::Verb;

/// The number of a declared device.
fn named(seen: &Seen, word: &str) -> Option<u16>
    ensures value { result ≡ named (known seen.now) word.now }
    ensures within { IfSome result (λ n. IsDeclared (count_in seen.now) n) }
{
    match seen.devices.get_index_of(word.as_bytes()) {
        Some(place) => Some(place as u16 + 1),
        None => None,
    }
}

/// Whether a device of this name is declared.
pub fn is_declared(seen: &Seen, word: &str) -> bool
    ensures { result ≡ is_declared (known seen.now) word.now }
{
    named(seen, word).is_some()
}

/// The number of the device that a statement names.
pub fn device(seen: &Seen, word: &str) -> Result<u16, LineFault>
    ensures value { GivesLine (λ n. n) result (device_answer (known seen.now) word.now) }
    ensures within { IfOk result (λ n. IsDeclared (count_in seen.now) n) }
{
    match named(seen, word) {
        Some(number) => Ok(number),
        None => Err(LineFault::Bad(Why::Device)),
    }
}

/// Whether a statement may stand here.
fn may_stand(seen: &Seen, verb: Verb) -> bool
    ensures { result ≡ may_stand (known seen.now) verb }
{
    match verb {
        Verb::At | Verb::Fuse => true,
        Verb::Device => seen.devices.len() < 32,
        Verb::Seed => !seen.begun,
        Verb::Found => !seen.found,
        _ => seen.found,
    }
}

pub fn in_order(seen: &Seen, verb: Verb) -> Result<(), LineFault>
    ensures value { GivesLine (λ u. u) result (order_answer (known seen.now) verb) }
    ensures stands { OnOk result (may_stand (known seen.now) verb ≡ true) }
{
    if may_stand(seen, verb) {
        Ok(())
    } else {
        Err(LineFault::Bad(Why::Order))
    }
}
