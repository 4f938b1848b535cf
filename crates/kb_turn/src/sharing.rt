//! How a pass counts the entries, and how passes are split and put together.
ghost use Rattle.std.specs.Prelude.{◌≡◌, ◌<◌, ◌≤◌, ◌++◌, length, max};
ghost use Rattle.kb_turn.specs.Steps.{Leads};
ghost use Rattle.kb_turn.specs.Views.{first_half, second_half, watching, numbers_of};
ghost use Rattle.kb_turn.specs.Passes.{view, seen, number_of_pass, most_counted, IsPassOf, IsWatchOf, IsSamePass, IsSum};

use crate::pass::Pass;
use crate::steps::{Count, Halve, Unite, Watch};
use crate::told::Told;
use crate::turn::Turn;

impl<T: Told> Turn<T> {
    /// How many entries there are. No list that the pass finds later is shorter.
    pub fn count(&self, pass: &mut Pass<T>) -> u64
        requires { IsPassOf self.now pass.old }
        ensures pass { IsPassOf self.now pass.new × IsSamePass pass.old pass.new }
        ensures seen { seen pass.new ≡ seen pass.old }
        ensures count { length (seen pass.old) ≤ result }
        ensures counted { most_counted pass.new ≡ max (most_counted pass.old) result }
    {
        self.table.shared.load::<Count>(&mut pass.seat, 0)
    }

    /// A second pass, which has seen the same and has no number.
    pub fn split(&self, pass: &mut Pass<T>) -> Pass<T>
        requires { IsPassOf self.now pass.old }
        ensures pass { IsPassOf self.now pass.new × (view pass.new ≡ first_half (view pass.old)) }
        ensures new { IsPassOf self.now result × (view result ≡ second_half (view pass.old)) }
    {
        let seat = self.table.shared.split_seat::<Halve>(&mut pass.seat);
        Pass { seat, number: 0 }
    }

    /// A pass that has seen the same, with no number and no share: it can't take the turn, and need not be handed in as the turn ends.
    pub fn watch(&self, pass: &mut Pass<T>) -> Pass<T>
        requires { IsWatchOf self.now pass.old }
        ensures pass { IsWatchOf self.now pass.new × IsSamePass pass.old pass.new × (view pass.new ≡ view pass.old) }
        ensures new { IsWatchOf self.now result × (view result ≡ watching (view pass.old)) }
    {
        let seat = self.table.shared.split_seat::<Watch>(&mut pass.seat);
        Pass { seat, number: 0 }
    }

    /// The pass has then seen a list that begins with what both had seen. The number of the other one is given up.
    pub fn meet(&self, pass: &mut Pass<T>, other: Pass<T>)
        requires pass { IsWatchOf self.now pass.old }
        requires other { IsWatchOf self.now other }
        ensures watch { IsWatchOf self.now pass.new × (number_of_pass pass.new ≡ number_of_pass pass.old) }
        ensures pass { 0 < (view pass.old).parts → IsPassOf self.now pass.new }
        ensures numbers { numbers_of (view pass.new) ≡ numbers_of (view pass.old) ++ numbers_of (view other) }
        ensures first { Leads T.number_of (view pass.old) (view pass.new) }
        ensures second { Leads T.number_of (view other) (view pass.new) }
        ensures share { IsSum (view pass.old) (view other) (view pass.new) }
    {
        let shared = &self.table.shared;
        shared.join_seat::<Unite>(&mut pass.seat, other.into_seat());
        shared.load::<Count>(&mut pass.seat, 0);
    }
}
