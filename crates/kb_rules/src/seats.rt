ghost use Rattle.std.specs.Prelude.{◌≡◌, length, slice_get, map, IfSome, ◌<◌, Bool, true, Some, IfOk};
ghost use Rattle.std.specs.Option.{option_copied};
ghost use Rattle.kb_rules.specs.Code.{AreSides, AreSeats, side_in, seat_in, kept_in, joined_in, into_in, left_in};

use super::found::place;
use super::joins::joins_of;
use super::kept::{kept_of, ups_of};
use super::sides::Sides;
use super::walks::sides_of;
use kb_edge::Memory;
use kb_name::NodeId;
use kb_ops::Row;
use std::alloc::Global;

/// Where the rows of three trees stand: for each id, in the order of the ids, whether its row is on our side, whether
/// it is kept, and what it is joined to.
#[derive(Drop)]
pub struct Seats<'a> {
    pub sides: &'a Sides<'a>,
    pub ours: Vec<bool>,
    pub kept: Vec<bool>,
    pub joined: Vec<Option<NodeId>>,
}

impl Seats<'_> {
    /// Whether the row of an id has the place that it has in ours.
    pub fn on_ours(&self, q: NodeId) -> bool
        requires { AreSeats self.now }
        ensures { result ≡ side_in self.now.sides.now q }
    {
        match place(self.sides.ids, q) {
            Some(i) => self.ours[i],
            None => true,
        }
    }

    /// Whether it is kept.
    fn is_kept(&self, q: NodeId) -> bool
        requires { AreSeats self.now }
        ensures { result ≡ kept_in self.now.sides.now q }
    {
        match place(self.sides.ids, q) {
            Some(i) => self.kept[i],
            None => false,
        }
    }

    /// What it is joined to.
    pub fn joined(&self, q: NodeId) -> Option<NodeId>
        requires { AreSeats self.now }
        ensures { result ≡ joined_in self.now.sides.now q }
    {
        match place(self.sides.ids, q) {
            Some(i) => self.joined[i],
            None => None,
        }
    }

    /// The id that it is, or is joined to.
    #[tactic(auto, unfolding(crate::specs::Code::into_in, crate::specs::Code::joined_in))]
    pub fn into(&self, q: NodeId) -> NodeId
        requires { AreSeats self.now }
        ensures { result ≡ into_in self.now.sides.now q }
    {
        match self.joined(q) {
            Some(a) => a,
            None => q,
        }
    }

    /// The row with its place.
    #[tactic(auto, unfolding(crate::specs::Code::seat_in, crate::specs::Code::side_in, crate::specs::Code::ours_in, crate::specs::Code::merged_in))]
    fn seat(&self, q: NodeId) -> Option<&Row>
        requires { AreSeats self.now }
        ensures { option_copied result ≡ seat_in self.now.sides.now q }
    {
        if self.on_ours(q) {
            self.sides.ours(q)
        } else {
            self.sides.merged(q)
        }
    }

    /// The row with its place, where it is kept and not joined.
    #[tactic(auto, unfolding(crate::specs::Code::left_in, crate::specs::Code::joined_in, crate::specs::Code::kept_in, crate::specs::Code::seat_in))]
    pub fn left(&self, q: NodeId) -> Option<&Row>
        requires { AreSeats self.now }
        ensures { option_copied result ≡ left_in self.now.sides.now q }
    {
        if self.is_kept(q) && self.joined(q).is_none() {
            self.seat(q)
        } else {
            None
        }
    }
}

/// Where the rows of three trees stand.
pub fn seats_of<'a>(alloc: Global, sides: &'a Sides<'a>) -> Result<Seats<'a>, Memory>
    requires { AreSides sides.now }
    ensures seats { IfOk result AreSeats }
    ensures sides { IfOk result (λ s. s.sides.now ≡ sides.now) }
{
    let ours = sides_of(alloc, sides)?;
    let ups = ups_of(alloc, sides, &ours)?;
    let kept = kept_of(alloc, sides, &ups)?;
    let joined = joins_of(alloc, sides, &kept, &ups)?;
    Ok(Seats {
        sides,
        ours,
        kept,
        joined,
    })
}
