ghost use Rattle.std.specs.Prelude.{◌≡◌, ◌≤◌, false, length};

use indexmap::IndexSet;

/// What the statements so far say to the next.
#[derive(Drop)]
pub struct Seen {
    /// The names of the declared devices, in their order.
    pub devices: IndexSet<Vec<u8>>,
    pub found: bool,
    /// A statement came.
    pub begun: bool,
    pub ghost none: { begun ≡ false → length devices.keys ≡ 0 },
    pub ghost few: { length devices.keys ≤ 32 },
}
