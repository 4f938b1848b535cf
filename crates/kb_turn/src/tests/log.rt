//! A log of numbers, each with the number of who wrote it.
ghost use Rattle.std.specs.Prelude.{◌≡◌, ◌<◌, [], ◌∷◌, ◌++◌, length, MatchBool};

use crate::told::Told;
use std::alloc::Global;

#[derive(Drop)]
pub struct Log {
    pub entries: Vec<(u32, u64)>,
}

impl Told for Log {
    type Entry = (u32, u64);

    ghost told = { λ t. t.entries.items };

    ghost number_of = { λ e. e.0 };
}

impl Log {
    pub fn new(alloc: Global) -> Log
        ensures { result.entries.items ≡ [] }
    {
        Log {
            entries: Vec::new(alloc),
        }
    }

    // Whether the entry was added. Nothing has changed if not.
    pub fn add(&mut self, number: u32, x: u64) -> bool
        ensures { MatchBool result ((self.new.entries.items ≡ self.old.entries.items ++ (number, x) ∷ []) × (length self.old.entries.items < 18446744073709551615)) (self.new.entries.items ≡ self.old.entries.items) }
    {
        self.entries.len() < 1 << 40 && self.entries.push((number, x)).is_ok()
    }
}
