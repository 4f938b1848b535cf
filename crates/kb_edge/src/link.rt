//! Links between a device and the folder, which may lose a request or its reply.
ghost use Rattle.std.specs.Prelude.{◌≡◌, ℕ, Option, None, Some, if◌then◌else◌, is_ok};
ghost use Rattle.kb_edge.specs.Causes.{HasCause, raised};
ghost use Rattle.kb_edge.specs.Links.{IsLostAt, LosesAt};
ghost use Rattle.kb_edge.specs.declared.link.Side.{Side};
ghost use Rattle.kb_edge.specs.declared.link.Side.TheVariants.{Request, Reply};

use crate::faults::Lost;
use std::marker::Model;

/// What gets lost: the request on its way to the folder, or the reply on its way back.
#[derive(Clone, Copy, Debug, PartialEq, Eq)]
pub enum Side {
    Request,
    Reply,
}

/// The link between a device and the folder. A side that is armed loses its next call, which disarms it.
///
/// A link may also fail without being armed. Of such a link nothing is promised but that no operation is lost or
/// doubled.
pub trait Link {
    /// The side that is armed, if any, where it tells that.
    ghost armed: { Self → Option (Option Side) };
    /// How often it has failed.
    ghost faults: { Self → ℕ };

    /// Brings a request to the folder, before the folder acts on it.
    fn send(&mut self) -> Result<(), Lost>
        ensures side { LosesAt Request (armed self.old) (armed self.new) result }
        ensures cause { HasCause (faults self.old) (faults self.new) result };

    /// Brings the folder's reply back, after it acted.
    fn answer(&mut self) -> Result<(), Lost>
        ensures side { LosesAt Reply (armed self.old) (armed self.new) result }
        ensures cause { HasCause (faults self.old) (faults self.new) result };
}

/// A link in memory, which fails where it is armed and nowhere else.
#[derive(Drop)]
pub struct MemLink {
    armed: Option<Side>,
    faults: u64,
}

impl Model for MemLink {
    ghost use Rattle.kb_edge.specs.Links.{LinkState};

    ghost Value = { LinkState };

    ghost view = { λ l. record { armed = l.armed; faults = l.faults } };
}

impl MemLink {
    /// A link with no side armed, which has never failed.
    pub fn new() -> MemLink
        ensures { result ≡ record { armed = None; faults = 0 } }
    {
        MemLink {
            armed: None,
            faults: 0,
        }
    }

    /// Arms this side, and disarms the other one.
    pub fn arm(&mut self, side: Side)
        ensures { self.new ≡ record self.old { armed = Some side } }
    {
        self.armed = Some(side);
    }

    // Loses a call of this side where it is armed, and disarms it.
    fn pass(&mut self, side: Side) -> Result<(), Lost>
        ensures side { IsLostAt side self.old.armed self.new.armed result }
        ensures cause { HasCause self.old.faults self.new.faults result }
        ensures faults { self.new.faults ≡ (if is_ok result then self.old.faults else raised self.old.faults) }
    {
        if self.armed != Some(side) {
            return Ok(());
        }
        self.armed = None;
        self.faults = self.faults.saturating_add(1);
        Err(Lost)
    }
}

impl Link for MemLink {
    ghost armed = { λ l. Some l.armed };

    ghost faults = { λ l. l.faults };

    fn send(&mut self) -> Result<(), Lost>
        ensures side { LosesAt Request (Some self.old.armed) (Some self.new.armed) result }
        ensures cause { HasCause self.old.faults self.new.faults result }
        ensures faults { self.new.faults ≡ (if is_ok result then self.old.faults else raised self.old.faults) }
    {
        self.pass(Side::Request)
    }

    fn answer(&mut self) -> Result<(), Lost>
        ensures side { LosesAt Reply (Some self.old.armed) (Some self.new.armed) result }
        ensures cause { HasCause self.old.faults self.new.faults result }
        ensures faults { self.new.faults ≡ (if is_ok result then self.old.faults else raised self.old.faults) }
    {
        self.pass(Side::Reply)
    }
}
