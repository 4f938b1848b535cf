//! What each step tells, and how views are split and joined. These types are for the proofs alone.
ghost use Rattle.kb_turn.specs.Steps.{claimed, counted_up, released, counted};
ghost use Rattle.kb_turn.specs.Views.{first_half, second_half, watching, spent, handing, numbered, joining};

use crate::told::Told;
use crate::view::View;
use atomic_table::{Join, Play, Split};

pub(crate) struct Claim;

impl<T: Told> Play<Option<T>, View<T::Entry>> for Claim {
    ghost then = { claimed T.told T.number_of };
}

pub(crate) struct CountUp;

impl<T: Told> Play<Option<T>, View<T::Entry>> for CountUp {
    ghost then = { counted_up T.told };
}

pub(crate) struct Release;

impl<T: Told> Play<Option<T>, View<T::Entry>> for Release {
    ghost then = { released };
}

pub(crate) struct Count;

impl<T: Told> Play<Option<T>, View<T::Entry>> for Count {
    ghost then = { counted T.number_of };
}

// A view that has seen the same, and has no number.
pub(crate) struct Halve;

impl<E> Split<View<E>> for Halve {
    ghost left = { first_half };

    ghost right = { second_half };
}

// A view that has seen the same, with no number and no share.
pub(crate) struct Watch;

impl<E> Split<View<E>> for Watch {
    ghost left = { λ v. v };

    ghost right = { watching };
}

// A view with the next number.
pub(crate) struct HandOut;

impl<E> Split<View<E>> for HandOut {
    ghost left = { handing };

    ghost right = { numbered };
}

pub(crate) struct Unite;

impl<E> Join<View<E>> for Unite {
    ghost both = { joining };

    ghost spent = { spent };
}
