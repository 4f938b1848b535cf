//! How the turn is taken. The steps that give it back are here too.
ghost use Rattle.std.specs.Prelude.{◌≡◌, ◌<◌, ◌++◌, ◌∷◌, [], length, IfSome, IfNone, IsTrue, IsFalse, Some, None};
ghost use Rattle.std.specs.Borrow.{sem, RestsIfNone};
ghost use Rattle.kb_turn.specs.contracts.pass.Pass.{the_row};
ghost use Rattle.kb_turn.specs.Steps.{Follows};
ghost use Rattle.kb_turn.specs.Passes.{view, seen, number_of_pass, most_counted, IsPassOf, HasTurn, HasReturned, IsSamePass, FoundOut};
ghost use Rattle.kb_turn.specs.Held.{value_of, pass_of, pass_name, IsTaken};

use crate::held::Held;
use crate::pass::Pass;
use crate::steps::{Claim, CountUp, Release};
use crate::told::Told;
use crate::turn::Turn;
use std::sync::Wait;
use std::thread;

impl<T: Told> Turn<T> {
    // The claim, which takes the value's place in the turn with it.
    fn claim_place(&self, pass: &mut Pass<T>) -> bool
        requires { IsPassOf self.now pass.old }
        ensures found { IsTrue result → (x : T) × HasReturned self.now x pass.new × (seen pass.new ≡ T.told x) × Follows T.number_of (view pass.old) (T.told x) }
        ensures same { IsTrue result → IsSamePass pass.old pass.new × (most_counted pass.new ≡ most_counted pass.old) }
        ensures out { IsFalse result → FoundOut pass.old pass.new }
    {
        let found = self
            .table
            .shared
            .compare_exchange::<Claim>(&mut pass.seat, 1, 0, 1);
        found == 0
    }

    // The move of the value out.
    fn move_out(&self, pass: &mut Pass<T>) -> T
        requires { (x : T) × HasReturned self.now x pass.old }
        ensures value { HasReturned self.now result pass.old }
        ensures pass { HasTurn self.now pass.new × IsSamePass pass.old pass.new × (view pass.new ≡ view pass.old) }
    {
        match self.table.shared.exchange(&mut pass.seat, 0, None) {
            Some(value) => value,
            None => unreachable!(),
        }
    }

    // The claim, and the move of the value out.
    pub(crate) fn claim(&self, pass: &mut Pass<T>) -> Option<T>
        requires { IsPassOf self.now pass.old }
        ensures none { IfNone result (FoundOut pass.old pass.new) }
        ensures has { IfSome result (λ x. HasTurn self.now pass.new × IsSamePass pass.old pass.new × (most_counted pass.new ≡ most_counted pass.old)) }
        ensures found { IfSome result (λ x. (seen pass.new ≡ T.told x) × Follows T.number_of (view pass.old) (T.told x)) }
    {
        if !self.claim_place(pass) {
            return None;
        }
        Some(self.move_out(pass))
    }

    // The move of the value in.
    fn move_in(&self, pass: &mut Pass<T>, value: T)
        requires { HasTurn self.now pass.old }
        ensures pass { HasReturned self.now value pass.new × IsSamePass pass.old pass.new × (most_counted pass.new ≡ most_counted pass.old) }
        ensures seen { seen pass.new ≡ seen pass.old }
    {
        match self.table.shared.exchange(&mut pass.seat, 0, Some(value)) {
            None => {}
            Some(_) => unreachable!(),
        }
    }

    // The count up with an entry, the value being home.
    fn count_up(&self, pass: &mut Pass<T>)
        requires entry { (x : T) × (e : T.Entry) × HasReturned self.now x pass.old × (T.told x ≡ seen pass.old ++ e ∷ []) × (T.number_of e ≡ number_of_pass pass.old) }
        requires numbered { 0 < number_of_pass pass.old }
        requires room { length (seen pass.old) < 18446744073709551615 }
        ensures pass { (x : T) → HasReturned self.now x pass.old → HasReturned self.now x pass.new × (seen pass.new ≡ T.told x) }
        ensures same { IsSamePass pass.old pass.new × (most_counted pass.new ≡ most_counted pass.old) }
    {
        self.table.shared.fetch_add::<CountUp>(&mut pass.seat, 0, 1);
    }

    // The release, the value being home.
    fn release(&self, pass: &mut Pass<T>)
        requires { (x : T) × HasReturned self.now x pass.old × (T.told x ≡ seen pass.old) }
        ensures pass { IsPassOf self.now pass.new × IsSamePass pass.old pass.new × (most_counted pass.new ≡ most_counted pass.old) }
        ensures seen { seen pass.new ≡ seen pass.old }
    {
        self.table.shared.swap::<Release>(&mut pass.seat, 1, 0);
    }

    pub(crate) fn put_back(&self, pass: &mut Pass<T>, unchanged: T)
        requires has { HasTurn self.now pass.old }
        requires told { T.told unchanged ≡ seen pass.old }
        ensures pass { IsPassOf self.now pass.new × IsSamePass pass.old pass.new × (most_counted pass.new ≡ most_counted pass.old) }
        ensures seen { seen pass.new ≡ seen pass.old }
    {
        self.move_in(pass, unchanged);
        self.release(pass);
    }

    pub(crate) fn put(&self, pass: &mut Pass<T>, grown: T)
        requires has { HasTurn self.now pass.old }
        requires told { (e : T.Entry) × (T.told grown ≡ seen pass.old ++ e ∷ []) × (T.number_of e ≡ number_of_pass pass.old) }
        requires numbered { 0 < number_of_pass pass.old }
        requires room { length (seen pass.old) < 18446744073709551615 }
        ensures pass { IsPassOf self.now pass.new × IsSamePass pass.old pass.new × (most_counted pass.new ≡ most_counted pass.old) }
        ensures seen { seen pass.new ≡ T.told grown }
    {
        self.move_in(pass, grown);
        self.count_up(pass);
        self.release(pass);
    }

    fn claim_in_time<R: Wait>(&self, rt: &R, pass: &mut Pass<T>) -> T
        requires { IsPassOf self.now pass.old }
        ensures has { HasTurn self.now pass.new × IsSamePass pass.old pass.new × (most_counted pass.new ≡ most_counted pass.old) }
        ensures found { (seen pass.new ≡ T.told result) × Follows T.number_of (view pass.old) (T.told result) }
    {
        for _ in rt.forever() {
            if let Some(value) = self.claim(pass) {
                return value;
            }
            thread::yield_now();
        }
        unreachable!()
    }

    /// Takes the turn, and tries again until it has it.
    pub fn take<'t, 'p, R: Wait>(&'t self, rt: &R, pass: &'p mut Pass<T>) -> Held<'t, 'p, T>
        requires { IsPassOf self.now pass.old }
        ensures same_reference { pass_name result ≡ pass.entry.ghost_name }
        ensures taken { IsTaken self.now pass.old result }
        ensures list { seen (pass_of result) ≡ T.told (value_of result) }
        ensures follows { Follows T.number_of (view pass.old) (T.told (value_of result)) }
    {
        let value = self.claim_in_time(rt, pass);
        Held {
            turn: self,
            pass,
            value,
        }
    }
}

impl<T: Told> Pass<T> {
    /// Takes the turn, unless it is out at this call's own compare and exchange.
    pub fn try_take<'t, 'p>(&'p mut self, turn: &'t Turn<T>) -> Option<Held<'t, 'p, T>>
        requires { IsPassOf turn.now self.old }
        ensures* none { sem 𝓛 (RestsIfNone (the_row T.row T.Entry.row T.Told) self.entry pass_name result (λ n. FoundOut self.old n)) }
        ensures same_reference { IfSome result (λ h. pass_name h ≡ self.entry.ghost_name) }
        ensures taken { IfSome result (λ h. IsTaken turn.now self.old h) }
        ensures list { IfSome result (λ h. seen (pass_of h) ≡ T.told (value_of h)) }
        ensures follows { IfSome result (λ h. Follows T.number_of (view self.old) (T.told (value_of h))) }
    {
        let value = turn.claim(self)?;
        Some(Held {
            turn,
            pass: self,
            value,
        })
    }
}
