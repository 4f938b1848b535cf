//! The value while one caller has it.
ghost use Rattle.std.specs.Prelude.{◌≡◌, ◌<◌, ◌++◌, ◌∷◌, [], length};

use crate::pass::Pass;
use crate::told::Told;
use crate::turn::Turn;

/// The value, with the pass that took it. It has to be given back.
pub struct Held<'t, 'p, T: Told> {
    pub(crate) turn: &'t Turn<T>,
    pub(crate) pass: &'p mut Pass<T>,
    pub(crate) value: T,
}

impl<'t, 'p, T: Told> Held<'t, 'p, T> {
    ghost use Rattle.std.specs.Borrow.{sem, Lends};
    ghost use mir.Syntax.{named};
    ghost use Rattle.kb_turn.specs.contracts.held.Held.{the_row};
    ghost use Rattle.kb_turn.specs.Passes.{seen, number_of_pass, most_counted, IsPassOf, IsSamePass};
    ghost use Rattle.kb_turn.specs.Held.{value_of, turn_of, pass_of, pass_left, with_value, IsOut};

    /// Lends the value.
    pub fn value<'s>(&'s mut self) -> &'s mut T
        ensures* writes_back { sem 𝓛 (Lends (the_row (record { mir = named 1; lft = [] }) (record { mir = named 2; lft = [] }) T.row T.Entry.row T.Told) T.row self.entry result (with_value self.old)) }
        ensures value { result.now ≡ value_of self.old }
    {
        &mut self.value
    }

    /// Gives the value back with one entry more, which carries the pass's number.
    pub fn give(self, entry: T::Entry)
        requires has { IsOut self }
        requires told { T.told (value_of self) ≡ seen (pass_of self) ++ entry ∷ [] }
        requires carries { T.number_of entry ≡ number_of_pass (pass_of self) }
        requires numbered { 0 < number_of_pass (pass_of self) }
        requires room { length (seen (pass_of self)) < 18446744073709551615 }
        ensures pass { IsPassOf (turn_of self.entry) (pass_left self.exit) × IsSamePass (pass_of self.entry) (pass_left self.exit) × (most_counted (pass_left self.exit) ≡ most_counted (pass_of self.entry)) }
        ensures seen { seen (pass_left self.exit) ≡ seen (pass_of self.entry) ++ entry ∷ [] }
    {
        drop(entry);
        self.give_grown();
    }

    /// The same, where the value alone has the entry.
    pub fn give_grown(self)
        requires has { IsOut self }
        requires told { (e : T.Entry) × (T.told (value_of self) ≡ seen (pass_of self) ++ e ∷ []) × (T.number_of e ≡ number_of_pass (pass_of self)) }
        requires numbered { 0 < number_of_pass (pass_of self) }
        requires room { length (seen (pass_of self)) < 18446744073709551615 }
        ensures pass { IsPassOf (turn_of self.entry) (pass_left self.exit) × IsSamePass (pass_of self.entry) (pass_left self.exit) × (most_counted (pass_left self.exit) ≡ most_counted (pass_of self.entry)) }
        ensures seen { seen (pass_left self.exit) ≡ T.told (value_of self.entry) }
    {
        let Held { turn, pass, value } = self;
        turn.put(pass, value);
    }

    /// Gives the value back as it was.
    pub fn give_back(self)
        requires has { IsOut self }
        requires told { T.told (value_of self) ≡ seen (pass_of self) }
        ensures pass { IsPassOf (turn_of self.entry) (pass_left self.exit) × IsSamePass (pass_of self.entry) (pass_left self.exit) × (most_counted (pass_left self.exit) ≡ most_counted (pass_of self.entry)) }
        ensures seen { seen (pass_left self.exit) ≡ seen (pass_of self.entry) }
    {
        let Held { turn, pass, value } = self;
        turn.put_back(pass, value);
    }
}
