//! What one caller knows of a turn.
ghost use Rattle.std.specs.Prelude.{◌≡◌, ◌<◌, Some, None, MatchOption};

use crate::told::Told;
use crate::view::View;
use atomic_table::Seat;

/// A beginning of the list that one caller has seen, and the number that its entries carry, if it has one.
pub struct Pass<T: Told> {
    pub(crate) seat: Seat<Option<T>, View<T::Entry>>,
    pub(crate) number: u32,
    ghost numbered: { seat.me.0.number ≡ number },
}

impl<T: Told> Pass<T> {
    ghost use Rattle.kb_turn.specs.Passes.{number_of_pass};

    /// The number that its entries carry. None for a pass that was split off.
    pub fn number(&self) -> Option<u32>
        ensures { MatchOption result (number_of_pass self.now ≡ 0) (λ n. (0 < n) × (number_of_pass self.now ≡ n)) }
    {
        if self.number == 0 {
            None
        } else {
            Some(self.number)
        }
    }

    pub(crate) fn into_seat(self) -> Seat<Option<T>, View<T::Entry>>
        ensures { result ≡ self.seat }
    {
        let Self { seat, number: _ } = self;
        seat
    }
}

impl<T: Told> Drop for Pass<T> {
    fn drop(self) {
        let Self { seat, number: _ } = self;
        drop(seat);
    }
}
