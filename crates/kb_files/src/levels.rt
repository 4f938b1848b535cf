//! The levels of a file's blocks.
ghost use Rattle.std.specs.Prelude.{◌≡◌, ◌≤◌};
ghost use Rattle.kb_files.specs.Files.{span, level_of};

/// How many bytes a block of the level spans at most.
pub fn span(level: u8) -> usize
    requires { level ≤ 2 }
    ensures { result ≡ span level }
{
    match level {
        0 => 4096,
        1 => 262_144,
        _ => 16_777_216,
    }
}

/// The level of the block of so many bytes.
pub fn level_of(size: usize) -> u8
    ensures { result ≡ level_of size }
{
    if size <= 4096 {
        0
    } else if size <= 262_144 {
        1
    } else {
        2
    }
}
