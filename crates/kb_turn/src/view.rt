//! What a pass knows, and the rule over the count, the turn and all passes.
use crate::told::Told;
use atomic_table::TableRule;
use std::collections::LinkedList;
use std::snapshot::Snapshot;

/// What a pass knows. No value of it is made.
pub struct View<E> {
    /// A beginning of the list.
    pub seen: LinkedList<E>,
    /// Whether it has the turn.
    pub holds: bool,
    /// The number that its entries carry, or 0.
    pub number: u32,
    /// The numbers of the passes that it took in.
    pub gone: LinkedList<u32>,
    /// The next number to be handed out, or 0.
    pub next: u32,
    /// The greatest count that it loaded.
    pub loaded: u64,
    /// What two passes had seen as they were joined, each with its numbers.
    pub kept: LinkedList<(LinkedList<u32>, LinkedList<E>)>,
    /// How often it found the turn out.
    pub missed: u64,
    /// Its share of the turn: `parts` of the halves that `halvings` halvings make.
    pub parts: u64,
    pub halvings: u64,
}

/// The rule of a turn. No value of it is made.
pub struct Law;

impl<T: Told> TableRule<Option<T>, View<T::Entry>, (u32, Snapshot<T>)> for Law {
    ghost use Rattle.kb_turn.specs.Rule.{Whole};
    ghost use Rattle.kb_turn.specs.Views.{maker};

    ghost holds = { λ k. Whole T.told T.number_of k.0 };

    ghost first = { λ k. maker (T.told k.1.value) k.0 };
}
