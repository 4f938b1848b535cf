//! The turn in one thread and in two, and a turn whose value keeps a pass of another.
ghost use Rattle.std.specs.Prelude.{◌≡◌, ◌<◌};
ghost use Rattle.kb_turn.specs.Passes.{IsPassOf, IsSamePass, number_of_pass};

mod appends;
mod log;
mod nested;

use self::appends::{append, close_both, two_append};
use self::log::Log;
use self::nested::look_within;
use crate::pass::Pass;
use crate::turn::Turn;

// Whether the turn is found out. If not, it is given back as it was.
fn is_out(turn: &Turn<Log>, pass: &mut Pass<Log>) -> bool
    requires { IsPassOf turn.now pass.old }
    ensures { IsPassOf turn.now pass.new × IsSamePass pass.old pass.new }
{
    match pass.try_take(turn) {
        Some(held) => {
            held.give_back();
            false
        }
        None => true,
    }
}

// Whether the second pass finds the turn out while the first one has it.
fn is_out_between(turn: &Turn<Log>, first: &mut Pass<Log>, second: &mut Pass<Log>) -> bool
    requires first { IsPassOf turn.now first.old × (0 < number_of_pass first.old) }
    requires second { IsPassOf turn.now second.old }
    ensures first { IsPassOf turn.now first.new × IsSamePass first.old first.new }
    ensures second { IsPassOf turn.now second.new × IsSamePass second.old second.new }
{
    let Some(number) = first.number() else {
        unreachable!()
    };
    let Some(mut held) = first.try_take(turn) else {
        return false;
    };
    let was_out = is_out(turn, second);
    if held.value().add(number, 7) {
        held.give((number, 7));
    } else {
        held.give_back();
    }
    was_out
}

#[test]
fn a_turn_that_is_out_is_found_out(rt: HostRuntime) {
    let log = Log::new(rt.alloc());
    let Ok((turn, mut passes)) = Turn::new(rt.alloc(), log, 2) else {
        panic!(&rt; "memory")
    };
    let (Some(mut second), Some(mut first)) = (passes.pop(), passes.pop()) else {
        unreachable!()
    };
    assert!(&rt; first.number() == Some(1) && second.number() == Some(2));
    assert!(&rt; is_out_between(&turn, &mut first, &mut second));
    assert!(&rt; !is_out(&turn, &mut second));
    assert!(&rt; turn.count(&mut second) == 1);
    let Some(log) = close_both(turn, first, second, passes) else {
        panic!(&rt; "the turn is out, or memory ran out")
    };
    assert!(&rt; log.entries.as_slice() == [(1u32, 7u64)].as_slice());
}

#[test]
fn two_threads_append(rt: HostRuntime) {
    let log = Log::new(rt.alloc());
    let Ok((turn, mut passes)) = Turn::new(rt.alloc(), log, 2) else {
        panic!(&rt; "memory")
    };
    let (Some(second), Some(first)) = (passes.pop(), passes.pop()) else {
        unreachable!()
    };
    let Some(log) = two_append(&rt, turn, first, second, passes, 1000) else {
        panic!(&rt; "memory")
    };
    assert!(&rt; log.entries.len() == 2000);
    let mut next = [0u64; 3];
    for (number, x) in log.entries.as_slice() {
        let at = *number as usize;
        assert!(&rt; 0 < at && at < 3);
        assert!(&rt; next[at] == *x);
        next[at] = x.wrapping_add(1);
    }
}

#[test]
fn passes_are_split_and_meet(rt: HostRuntime) {
    let log = Log::new(rt.alloc());
    let Ok((turn, mut passes)) = Turn::new(rt.alloc(), log, 1) else {
        panic!(&rt; "memory")
    };
    let Some(mut first) = passes.pop() else {
        unreachable!()
    };
    let mut second = turn.split(&mut first);
    assert!(&rt; second.number().is_none());
    assert!(&rt; append(&rt, &turn, &mut first, 5).is_ok());
    assert!(&rt; turn.count(&mut second) == 1);
    turn.meet(&mut first, second);
    assert!(&rt; passes.push(first).is_ok());
    assert!(&rt; turn.close(passes).is_some());
}

#[test]
fn a_value_keeps_a_pass_of_another_turn(rt: HostRuntime) {
    let log = Log::new(rt.alloc());
    let Ok((folder, mut passes)) = Turn::new(rt.alloc(), log, 1) else {
        panic!(&rt; "memory")
    };
    let Some(mut pass) = passes.pop() else {
        unreachable!()
    };
    assert!(&rt; append(&rt, &folder, &mut pass, 5).is_ok());
    assert!(&rt; look_within(rt.alloc(), &folder, &mut pass) == Some(1));
    assert!(&rt; folder.close(passes).is_some());
}
