//! Where bytes come from, and where they go.
ghost use Rattle.std.specs.Prelude.{ℕ, List, Option};
ghost use Rattle.std.specs.Io.{ReadsAtMost};
ghost use Rattle.std.specs.Io.KnownBytes.{ReadConsumes};
ghost use Rattle.kb_edge.specs.Causes.{HasCause, Puts};

use crate::faults::Failed;

/// Where bytes come from.
pub trait Source {
    /// The bytes left, where it tells them.
    ghost left: { Self → Option (List ℕ) };
    /// How often it has failed.
    ghost faults: { Self → ℕ };

    /// Reads at most as many bytes as `into` has, and says how many: none, for an `into` that isn't empty, is the
    /// end of input.
    fn read(&mut self, into: &mut [u8]) -> Result<usize, Failed>
        ensures bound { ReadsAtMost result into.new }
        ensures bytes { ReadConsumes (left self.old) (left self.new) result into.new }
        ensures cause { HasCause (faults self.old) (faults self.new) result };
}

/// Where bytes go.
pub trait Sink {
    /// The bytes held, where it tells them.
    ghost held: { Self → Option (List ℕ) };
    /// How often it has failed.
    ghost faults: { Self → ℕ };

    /// Puts all of the piece behind the bytes held, or where it fails a beginning of it.
    fn put(&mut self, piece: &[u8]) -> Result<(), Failed>
        ensures bytes { Puts (held self.old) (held self.new) result piece.now }
        ensures cause { HasCause (faults self.old) (faults self.new) result };
}
