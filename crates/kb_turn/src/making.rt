//! How a turn is made, with its passes.
ghost use Rattle.std.specs.Prelude.{◌≡◌, ◌<◌, [], ◌∷◌, All, IfOk, IfErr, length, vec_len, vec_capacity, Some};
ghost use Rattle.kb_turn.specs.Passes.{AreAll, AreDealt, IsNext, callers_of};

use crate::pass::Pass;
use crate::steps::HandOut;
use crate::told::Told;
use crate::turn::Turn;
use crate::view::View;
use atomic_table::{Refused, Seat, Table};
use std::alloc::{AllocError, AllocFailed, Global};
use std::snapshot::Snapshot;

// The value in a list of its own, or the value.
fn alone<T>(alloc: Global, value: T) -> Result<Vec<Option<T>>, T>
    ensures ok { IfOk result (λ v. v.items ≡ Some value ∷ []) }
    ensures err { IfErr result (λ x. x ≡ value) }
{
    let mut slots = Vec::new(alloc);
    match slots.push(Some(value)) {
        Ok(()) => Ok(slots),
        Err(AllocFailed { value }) => {
            slots.destroy_empty();
            Err(value.unwrap())
        }
    }
}

// The value that lies in the list alone.
fn the_one<T>(mut slots: Vec<Option<T>>) -> T
    requires { (x : T) × (slots.items ≡ Some x ∷ []) }
    ensures { slots.items ≡ Some result ∷ [] }
{
    match slots.pop() {
        Some(Some(value)) => {
            slots.destroy_empty();
            value
        }
        _ => unreachable!(),
    }
}

impl<T: Told> Turn<T> {
    /// The turn of a value that stands for no entry, and passes with the numbers from 1 to `callers`. For want of memory the value comes back.
    pub fn new(
        alloc: Global,
        value: T,
        callers: u32,
    ) -> Result<(Turn<T>, Vec<Pass<T>>), (T, AllocError)>
        requires empty { T.told value ≡ [] }
        requires callers { 0 < callers }
        ensures count { IfOk result (λ r. (vec_len r.1 ≡ callers) × (callers_of r.0 ≡ callers)) }
        ensures passes { IfOk result (λ r. AreDealt r.0 [] r.1.items) }
        ensures all { IfOk result (λ r. AreAll r.0 r.1.items) }
        ensures err { IfErr result (λ e. e.0 ≡ value) }
    {
        Turn::begun(alloc, value, 0, callers)
    }

    /// The same of a value that stands for so many entries already, none of which carries a number. All passes have seen them.
    pub fn begun(
        alloc: Global,
        value: T,
        entries: u64,
        callers: u32,
    ) -> Result<(Turn<T>, Vec<Pass<T>>), (T, AllocError)>
        requires entries { length (T.told value) ≡ entries }
        requires bare { All (λ e. T.number_of e ≡ 0) (T.told value) }
        requires callers { 0 < callers }
        ensures count { IfOk result (λ r. (vec_len r.1 ≡ callers) × (callers_of r.0 ≡ callers)) }
        ensures passes { IfOk result (λ r. AreDealt r.0 (T.told value) r.1.items) }
        ensures all { IfOk result (λ r. AreAll r.0 r.1.items) }
        ensures err { IfErr result (λ e. e.0 ≡ value) }
    {
        let Ok(passes) = Vec::with_capacity(alloc, callers as usize) else {
            return Err((value, AllocError));
        };
        let key = (callers, Snapshot::of(&value));
        match alone(alloc, value) {
            Err(value) => Err((value, AllocError)),
            Ok(slots) => match Table::new(alloc, &[entries, 0], slots, &key) {
                Ok((table, seat)) => {
                    let turn = Turn { table };
                    let passes = turn.deal(seat, passes, callers);
                    Ok((turn, passes))
                }
                Err(Refused { slots }) => Err((the_one(slots), AllocError)),
            },
        }
    }

    fn deal(
        &self,
        mut seat: Seat<Option<T>, View<T::Entry>>,
        mut passes: Vec<Pass<T>>,
        callers: u32,
    ) -> Vec<Pass<T>>
        requires seat { IsNext self.now seat.me.0.seen 1 callers seat × (callers_of self.now ≡ callers) }
        requires room { (passes.items ≡ []) × (vec_capacity passes ≡ callers) }
        ensures count { vec_len result ≡ callers }
        ensures passes { AreDealt self.now seat.me.0.seen result.items }
        ensures all { AreAll self.now result.items }
    {
        for k in 0..callers {
            let next = self.table.shared.split_seat::<HandOut>(&mut seat);
            passes.push_reserved(Pass {
                seat: next,
                number: k + 1,
            });
        }
        passes
    }
}
