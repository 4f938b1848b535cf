//! A queue in one piece.
ghost use Rattle.std.specs.Prelude.{◌≡◌, ◌≤◌, ◌++◌, [], ◌∷◌, drop, length, OnOk};

use kb_edge::Memory;
use std::alloc::Global;
use std::marker::Model;

/// Items that come at the back and leave at the front. Those that left stay before the others until they are half of
/// all, so that for each of them at most one other is moved.
#[derive(Drop)]
pub struct Queue<T> {
    items: Vec<T>,
    gone: usize,
}

impl<T> Model for Queue<T> {
    ghost use Rattle.std.specs.Prelude.{◌-◌, ◌≤◌, drop, vec_len, vec_capacity};
    ghost use Rattle.kb_journal.specs.Queued.{Queued, queued_code};

    ghost Value = { Queued T };

    ghost coded = { queued_code T.code };

    ghost view = { λ q. record { items = drop q.gone q.items.items; room = vec_capacity q.items - vec_len q.items } };

    ghost invariant = { λ q. q.gone ≤ vec_len q.items };
}

impl<T: Drop> Queue<T> {
    /// A queue with nothing in it.
    pub fn new(alloc: Global) -> Queue<T>
        ensures { result.items ≡ [] }
    {
        Queue {
            items: Vec::new(alloc),
            gone: 0,
        }
    }

    /// The items.
    pub fn as_slice(&self) -> &[T]
        ensures { result.now ≡ self.now.items }
    {
        &self.items[self.gone..]
    }

    /// How many items there are.
    pub fn len(&self) -> usize
        ensures { result ≡ length self.now.items }
    {
        self.items.len() - self.gone
    }

    /// Makes room for one more item.
    pub fn reserve(&mut self) -> Result<(), Memory>
        ensures items { self.new.items ≡ self.old.items }
        ensures room { OnOk result (1 ≤ self.new.room) }
    {
        self.items.reserve(1)?;
        Ok(())
    }

    /// Adds an item, for which there is room.
    #[tactic(auto, using(crate::proofs::Queueing::come))]
    pub fn push(&mut self, item: T)
        requires { 1 ≤ self.old.room }
        ensures { self.new.items ≡ self.old.items ++ item ∷ [] }
    {
        self.items.push_reserved(item)
    }

    /// The first n leave.
    #[tactic(auto, using(crate::proofs::Queueing::left))]
    pub fn leave(&mut self, n: usize)
        requires { n ≤ length self.old.items }
        ensures { self.new.items ≡ drop n self.old.items }
    {
        self.gone += n;
        if self.items.len() - self.gone <= self.gone {
            drop_front(&mut self.items, self.gone);
            self.gone = 0;
        }
    }
}

// Drops the first n.
fn drop_front<T: Drop>(items: &mut Vec<T>, n: usize)
    requires { n ≤ length items.old.items }
    ensures { items.new.items ≡ drop n items.old.items }
{
    items.rotate_left(n);
    items.truncate(items.len() - n);
}
