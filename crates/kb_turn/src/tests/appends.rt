//! One entry at a time.
ghost use Rattle.std.specs.Prelude.{◌≡◌, ℕ, ◌<◌, List, [], ◌∷◌, ◌++◌, IfOk, IfSome};
ghost use Rattle.kb_turn.specs.Steps.{Follows};
ghost use Rattle.kb_turn.specs.Passes.{view, seen, number_of_pass, IsPassOf, IsSamePass};

use super::log::Log;
use crate::pass::Pass;
use crate::turn::Turn;
use std::alloc::AllocError;
use std::sync::Wait;
use std::thread::{Threads, join};

// Appends a number. The entry follows a list that begins with what the pass had seen.
pub fn append<R: Wait>(
    rt: &R,
    turn: &Turn<Log>,
    pass: &mut Pass<Log>,
    x: u64,
) -> Result<(), AllocError>
    requires pass { IsPassOf turn.now pass.old }
    requires numbered { 0 < number_of_pass pass.old }
    ensures pass { IsPassOf turn.now pass.new × IsSamePass pass.old pass.new }
    ensures done { IfOk result (λ _. (xs : List (ℕ × ℕ)) × Follows (λ e. e.0) (view pass.old) xs × (seen pass.new ≡ xs ++ (number_of_pass pass.old, x) ∷ [])) }
{
    let Some(number) = pass.number() else {
        unreachable!()
    };
    let mut held = turn.take(rt, pass);
    if held.value().add(number, x) {
        held.give_grown();
        Ok(())
    } else {
        held.give_back();
        Err(AllocError)
    }
}

// Appends the numbers below `count`, and hands the pass back.
fn append_all<R: Wait>(
    rt: &R,
    turn: &Turn<Log>,
    mut pass: Pass<Log>,
    count: u64,
) -> (Pass<Log>, Result<(), AllocError>)
    requires pass { IsPassOf turn.now pass }
    requires numbered { 0 < number_of_pass pass }
    ensures pass { IsPassOf turn.now result.0 × IsSamePass pass result.0 }
{
    for x in 0..count {
        if let Err(e) = append(rt, turn, &mut pass, x) {
            return (pass, Err(e));
        }
    }
    (pass, Ok(()))
}

// Two threads append, each with its own number.
pub fn two_append<R: Threads + Wait + Sync>(
    rt: &R,
    turn: Turn<Log>,
    first: Pass<Log>,
    second: Pass<Log>,
    mut passes: Vec<Pass<Log>>,
    count: u64,
) -> Option<Log>
    requires first { IsPassOf turn first × (number_of_pass first ≡ 1) }
    requires second { IsPassOf turn second × (number_of_pass second ≡ 2) }
    requires passes { passes.items ≡ [] }
{
    let at = &turn;
    let (a, b) = join(
        rt,
        move || -> (Pass<Log>, Result<(), AllocError>)
            requires { IsPassOf at.now first × (number_of_pass first ≡ 1) }
            ensures { IsPassOf at.entry.now result.0 }
        { append_all(rt, at, first, count) },
        move || -> (Pass<Log>, Result<(), AllocError>)
            requires { IsPassOf at.now second × (number_of_pass second ≡ 2) }
            ensures { IsPassOf at.entry.now result.0 }
        { append_all(rt, at, second, count) },
    );
    let (first, first_done) = a;
    let (second, second_done) = b;
    match (first_done, second_done) {
        (Ok(()), Ok(())) => close_both(turn, first, second, passes),
        _ => {
            drop(turn.close(passes));
            None
        }
    }
}

// Ends the turn, and hands in both passes.
pub fn close_both(
    turn: Turn<Log>,
    first: Pass<Log>,
    second: Pass<Log>,
    mut passes: Vec<Pass<Log>>,
) -> Option<Log>
    requires first { IsPassOf turn first }
    requires second { IsPassOf turn second }
    requires passes { passes.items ≡ [] }
    ensures { IfSome result (λ log. Follows (λ e. e.0) (view first) log.entries.items × Follows (λ e. e.0) (view second) log.entries.items) }
{
    match passes.push(first) {
        Ok(()) => match passes.push(second) {
            Ok(()) => turn.close(passes),
            Err(_) => {
                drop(turn.close(passes));
                None
            }
        },
        Err(_) => {
            drop(turn.close(passes));
            None
        }
    }
}
