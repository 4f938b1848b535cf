//! How a turn ends.
ghost use Rattle.std.specs.Prelude.{◌≡◌, ℕ, ◌+◌, ◌*◌, ◌^◌, ◌≤◌, All, IfSome, IfNone};
ghost use Rattle.kb_turn.specs.Rule.{AreNumbered};
ghost use Rattle.kb_turn.specs.Steps.{Follows, Leads};
ghost use Rattle.kb_turn.specs.Views.{weight};
ghost use Rattle.kb_turn.specs.Passes.{view, total_of, callers_of, AreAll, IsPassOf};

use crate::pass::Pass;
use crate::told::Told;
use crate::turn::Turn;

impl<T: Told> Turn<T> {
    // Puts the passes together.
    fn gather(&self, mut pass: Pass<T>, mut passes: Vec<Pass<T>>) -> Pass<T>
        requires pass { IsPassOf self.now pass }
        requires passes { All (IsPassOf self.now) passes.items }
        ensures pass { IsPassOf self.now result }
        ensures first { Leads T.number_of (view pass) (view result) }
        ensures rest { All (λ p. Leads T.number_of (view p) (view result)) passes.items }
        ensures share { (e : ℕ) → All (λ p. (view p).halvings ≤ e) passes.items → (view pass).halvings ≤ e → ((view result).halvings ≤ e) × (weight e (view result) ≡ weight e (view pass) + total_of e passes.items) }
    {
        while let Some(other) = passes.pop() {
            self.meet(&mut pass, other);
        }
        pass
    }
}

impl<T: Told + Drop> Turn<T> {
    /// The value, where the turn is at home. With all passes handed in it is.
    pub fn close(self, mut passes: Vec<Pass<T>>) -> Option<T>
        requires { All (IsPassOf self) passes.items }
        ensures some { IfSome result (λ x. All (λ p. Follows T.number_of (view p) (T.told x)) passes.items) }
        ensures numbered { IfSome result (λ x. AreNumbered T.number_of (callers_of self) (T.told x)) }
        ensures none { IfNone result (AreAll self passes.items → ⊥) }
    {
        match passes.pop() {
            Some(first) => {
                let pass = self.gather(first, passes);
                self.close_with(pass)
            }
            None => self.close_alone(),
        }
    }

    fn close_alone(self) -> Option<T>
        ensures { IfSome result (λ x. AreNumbered T.number_of (callers_of self) (T.told x)) }
    {
        let Turn { table } = self;
        let mut closed = table.close();
        let is_out = closed.word(1) != 0;
        let slot = closed.take(0);
        closed.free();
        if is_out { None } else { slot }
    }

    fn close_with(self, pass: Pass<T>) -> Option<T>
        requires { IsPassOf self pass }
        ensures some { IfSome result (λ x. Follows T.number_of (view pass) (T.told x)) }
        ensures numbered { IfSome result (λ x. AreNumbered T.number_of (callers_of self) (T.told x)) }
        ensures none { IfNone result ((e : ℕ) → (view pass).halvings ≤ e → weight e (view pass) ≡ callers_of self * 2 ^ e → ⊥) }
    {
        let Turn { table } = self;
        let mut closed = table.close_with(pass.into_seat());
        let is_out = closed.word(1) != 0;
        let slot = closed.take(0);
        closed.free();
        if is_out { None } else { slot }
    }
}
