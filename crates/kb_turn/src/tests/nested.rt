//! A turn whose value keeps a pass of another turn.
ghost use Rattle.std.specs.Prelude.{◌≡◌, [], All};
ghost use Rattle.kb_turn.specs.Passes.{seen, name_of, IsIdleAt, IsPassOf, IsSamePass};

use super::log::Log;
use crate::pass::Pass;
use crate::told::Told;
use crate::turn::Turn;
use std::alloc::Global;
use std::marker::{Brand, PhantomData};

// Names one turn.
pub trait Room {
    ghost use Rattle.atomic_table.specs.Seated.{TableId};

    ghost turn: { TableId };
}

impl Room for Brand {
    ghost use Rattle.kb_turn.specs.Passes.{no_turn};

    ghost turn = { no_turn };
}

// Entries, and a pass of the turn that is named.
pub struct Cell<B: Room> {
    entries: Vec<(u32, u64)>,
    front: Pass<Log>,
    of: PhantomData<B>,
    ghost idle: { IsIdleAt B.turn front },
}

impl<B: Room> Told for Cell<B> {
    type Entry = (u32, u64);

    ghost told = { λ t. t.entries.items };

    ghost number_of = { λ e. e.0 };
}

impl<B: Room> Cell<B> {
    fn new(alloc: Global, folder: &Turn<Log>, front: Pass<Log>) -> Cell<B>
        requires folder { name_of folder.now ≡ B.turn }
        requires front { IsPassOf folder.now front }
        ensures { result.entries.items ≡ [] }
    {
        let _ = folder;
        Cell {
            entries: Vec::new(alloc),
            front,
            of: PhantomData,
        }
    }

    // The cell's own pass meets another, which the entries don't show.
    fn meet(&mut self, folder: &Turn<Log>, other: Pass<Log>)
        requires folder { name_of folder.now ≡ B.turn }
        requires other { IsPassOf folder.now other }
        ensures { self.new.entries.items ≡ self.old.entries.items }
    {
        folder.meet(&mut self.front, other);
    }
}

impl<B: Room> Drop for Cell<B> {
    fn drop(self) {
        let Self {
            entries,
            front,
            of: _,
        } = self;
        drop(entries);
        drop(front);
    }
}

// The cell's pass meets another, and then counts the folder's entries.
fn look<B: Room>(
    folder: &Turn<Log>,
    cell: &Turn<Cell<B>>,
    pass: &mut Pass<Cell<B>>,
    other: Pass<Log>,
) -> Option<u64>
    requires folder { name_of folder.now ≡ B.turn }
    requires pass { IsPassOf cell.now pass.old }
    requires other { IsPassOf folder.now other }
    ensures pass { IsPassOf cell.now pass.new × IsSamePass pass.old pass.new }
{
    let mut held = pass.try_take(cell)?;
    held.value().meet(folder, other);
    let kept = held.value();
    let count = folder.count(&mut kept.front);
    held.give_back();
    Some(count)
}

// A cell over the folder's turn, from its making to its end.
fn within<B: Room>(alloc: Global, folder: &Turn<Log>, mine: &mut Pass<Log>) -> Option<u64>
    requires folder { name_of folder.now ≡ B.turn }
    requires mine { IsPassOf folder.now mine.old }
    ensures { IsPassOf folder.now mine.new × (seen mine.new ≡ seen mine.old) }
{
    let front = folder.split(mine);
    let kept: Cell<B> = Cell::new(alloc, folder, front);
    match Turn::new(alloc, kept, 1) {
        Ok((cell, passes)) => {
            let other = folder.split(mine);
            look_once(folder, cell, passes, other)
        }
        Err((kept, _)) => {
            drop(kept);
            None
        }
    }
}

fn look_once<B: Room>(
    folder: &Turn<Log>,
    cell: Turn<Cell<B>>,
    mut passes: Vec<Pass<Cell<B>>>,
    other: Pass<Log>,
) -> Option<u64>
    requires folder { name_of folder.now ≡ B.turn }
    requires passes { All (IsPassOf cell) passes.items }
    requires other { IsPassOf folder.now other }
{
    let Some(mut pass) = passes.pop() else {
        drop(cell.close(passes));
        return None;
    };
    let count = look(folder, &cell, &mut pass, other);
    drop(pass);
    drop(cell.close(passes));
    count
}

// The same, of this folder.
pub fn look_within(alloc: Global, folder: &Turn<Log>, mine: &mut Pass<Log>) -> Option<u64>
    requires { IsPassOf folder.now mine.old }
    ensures { IsPassOf folder.now mine.new × (seen mine.new ≡ seen mine.old) }
{
    within::<Brand>(alloc, folder, mine)
}
