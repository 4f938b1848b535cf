use kb_edge::Memory;
use std::alloc::AllocError;

/// Why bytes give no operation.
#[derive(Clone, Copy, Debug, PartialEq, Eq)]
pub enum OpFault {
    /// They spell none.
    BadOp,
    Memory,
}

impl From<AllocError> for OpFault {
    ghost use Rattle.std.specs.Prelude.{◌≡◌};
    ghost use Rattle.kb_ops.specs.declared.faults.OpFault.TheVariants as faults;

    ghost from_gives = { λ _ e. e ≡ faults.Memory };

    fn from(_: AllocError) -> Self {
        OpFault::Memory
    }
}
