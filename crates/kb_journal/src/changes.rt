//! One change of a journal on its log.
ghost use Rattle.std.specs.Prelude.{◌≡◌, ◌⊎◌, ◌+◌, ◌≤◌, ◌<◌, ◌^◌, ◌++◌, [], ◌∷◌, true, false, List, ℕ, length, vec_capacity, OnOk, OnErr};
ghost use Rattle.kb_edge.specs.Causes.{Rose};
ghost use Rattle.kb_edge.specs.Disk.{FallsBy};
ghost use Rattle.kb_log.specs.Images.{EachImage, HasList};
ghost use Rattle.kb_log.specs.LogList.{area_size};
ghost use Rattle.kb_log.specs.Steps.{RanOut};
ghost use Rattle.kb_journal.specs.Held.{state_of};
ghost use Rattle.kb_journal.specs.State.{Leads, HasState, empty, is_whole};

use crate::held::Held;
use crate::pieces::build;
use kb_edge::{Disk, Stopped};
use kb_log::{AppendFault, Log};

/// Writes the last change: its payload where it fits behind the others, and otherwise the whole list anew.
pub fn write_change<D: Disk>(
    log: &mut Log<D>,
    bytes: &mut Vec<u8>,
    ends: &mut Vec<u32>,
    held: &Held,
    payload: &[u8],
) -> Result<(), Stopped>
    requires open { log.old.is_open ≡ true }
    requires short { length payload.now < 2 ^ 31 }
    requires leads { Leads empty (log.old.payloads ++ payload.now ∷ []) (state_of held.now) }
    requires whole { is_whole (area_size (length (D.content log.old.disk))) (state_of held.now) ≡ true }
    requires room { area_size (length (D.content log.old.disk)) ≤ vec_capacity bytes.old }
    requires ends_room { 4097 ≤ vec_capacity ends.old }

    ensures opened { OnOk result (log.new.is_open ≡ true) }
    ensures leads { OnOk result (Leads empty log.new.payloads (state_of held.now)) }
    ensures size { length (D.content log.new.disk) ≡ length (D.content log.old.disk) }
    ensures durable { OnOk result (EachImage D.content D.dirty log.new.disk (HasState (state_of held.now))) }
    ensures listed { OnOk result (EachImage D.content D.dirty log.new.disk (HasList log.new.payloads)) }
    ensures every { EachImage D.content D.dirty log.new.disk (λ image. HasList log.old.payloads image ⊎ HasState (state_of held.now) image) }
    ensures left { FallsBy 4 (D.left log.old.disk) (D.left log.new.disk) }
    ensures spent { OnErr result (RanOut 4 (D.left log.old.disk) (D.left log.new.disk)) }
    ensures later { D.faults log.old.disk ≤ D.faults log.new.disk }
    ensures rose { OnErr result (Rose (D.faults log.old.disk) (D.faults log.new.disk)) }
    ensures closed { OnErr result (log.new.is_open ≡ false) }
    ensures room { vec_capacity bytes.old ≤ vec_capacity bytes.new }
    ensures ends_room { vec_capacity ends.old ≤ vec_capacity ends.new }
{
    let area = log.area();
    let need = payload.len() as u32 + 5;
    if log.used() + need <= area {
        match log.append(payload) {
            Ok(()) => Ok(()),
            Err(AppendFault::Stopped) => Err(Stopped),
            Err(AppendFault::Full { .. }) => unreachable!(),
        }
    } else {
        build(bytes, ends, held);
        match log.compact(bytes, ends) {
            Ok(()) => Ok(()),
            Err(AppendFault::Stopped) => Err(Stopped),
            Err(AppendFault::Full { .. }) => unreachable!(),
        }
    }
}
