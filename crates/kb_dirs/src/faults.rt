use std::alloc::AllocError;

/// Why a text gives no directory.
#[derive(Clone, Copy, Debug, PartialEq, Eq)]
pub(crate) enum DirFault {
    /// It spells none.
    BadDir,
    Memory,
}

impl From<AllocError> for DirFault {
    ghost use Rattle.std.specs.Prelude.{◌≡◌};
    ghost use Rattle.kb_dirs.specs.declared.faults.DirFault.TheVariants as faults;

    ghost from_gives = { λ _ e. e ≡ faults.Memory };

    fn from(_: AllocError) -> Self {
        DirFault::Memory
    }
}
