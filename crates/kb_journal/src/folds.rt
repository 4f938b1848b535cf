//! The state that a list of payloads leads to.
ghost use Rattle.std.specs.Prelude.{◌≡◌, IfOk};
ghost use Rattle.kb_log.specs.LogList.{lists_of};
ghost use Rattle.kb_journal.specs.Held.{state_of};
ghost use Rattle.kb_journal.specs.State.{State, Leads, empty};

use crate::entries::EntryFault;
use crate::held::Held;
use std::alloc::Global;

/// Takes all payloads in order. It is refused exactly where one is out of the grammar or may not come at its place.
pub fn fold(alloc: Global, payloads: Vec<Vec<u8>>) -> Result<Held, EntryFault>
    ensures ok { IfOk result (λ held. Leads empty (lists_of payloads.items) (state_of held)) }
    ensures bad { result ≡ Err EntryFault.BadEntry → (s : State) → Leads empty (lists_of payloads.items) s → ⊥ }
{
    let mut held = Held::new(alloc);
    for payload in payloads {
        match held.step(alloc, payload) {
            Ok(()) => {}
            Err(fault) => return Err(fault),
        }
    }
    Ok(held)
}
