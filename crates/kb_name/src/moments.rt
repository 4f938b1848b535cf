ghost use Rattle.std.specs.Prelude.{◌≡◌, ◌↔◌, ◌<◌, ◌≤◌, IfSome, IsNone};
ghost use Rattle.kb_name.specs.Moments.{last_second};

use std::marker::Model;

/// Seconds since 1970, up to the end of 9999.
#[derive(Clone, Copy, Debug, PartialEq, Eq, PartialOrd, Ord)]
pub struct Moment {
    seconds: u64,
}

impl Model for Moment {
    ghost use Rattle.std.specs.Prelude.{ℕ, ◌≤◌};
    ghost use Rattle.kb_name.specs.Moments.{last_second};

    ghost Value = { ℕ };

    ghost view = { λ m. m.seconds };

    ghost invariant = { λ m. m.seconds ≤ last_second };

    ghost inverse = { λ n. record { seconds = n } };
}

impl Moment {
    /// The start of 1970.
    pub const START: Moment = Moment { seconds: 0 };

    /// The moment so many seconds after the start of 1970; none past the end of 9999.
    pub fn new(seconds: u64) -> Option<Moment>
        ensures past { IsNone result ↔ (last_second < seconds) }
        ensures found { IfSome result (λ m. m ≡ seconds) }
    {
        if seconds <= 253_402_300_799 {
            Some(Moment { seconds })
        } else {
            None
        }
    }

    pub fn seconds(self) -> u64
        ensures value { result ≡ self }
        ensures within { result ≤ last_second }
    {
        self.seconds
    }
}
