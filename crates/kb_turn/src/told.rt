//! What a value stands for.
ghost use Rattle.std.specs.Prelude.{ℕ, List};

/// A value that stands for a list of entries, each of which may carry a number.
pub trait Told {
    type Entry: Drop;

    /// The entries that a value stands for.
    ghost told: { Self → List Self.Entry };

    /// The number that an entry carries.
    ghost number_of: { Self.Entry → ℕ };
}
