use kb_edge::Memory;
use std::alloc::{AllocError, AllocFailed};

/// Why a line is bad, in the order in which the reasons are given.
#[derive(Clone, Copy, Debug, PartialEq, Eq)]
pub enum Why {
    /// The line isn't UTF-8.
    Text,
    /// Its first word is no statement's.
    Word,
    /// The statement isn't built yet.
    Later,
    /// The number of words is wrong.
    Count,
    /// A number isn't one, or is out of its range.
    Number,
    /// A seed isn't 64 hexadecimal digits.
    Hex,
    /// A new device's name isn't one.
    Name,
    /// A word isn't one of those listed, or a data word lacks its `=`.
    Choice,
    /// A device isn't declared in an earlier line, or is declared twice.
    Device,
    /// The statement may not stand here.
    Order,
}

/// What a line is refused for.
#[derive(Clone, Copy, Debug, PartialEq, Eq)]
pub enum LineFault {
    Bad(Why),
    Memory,
}

impl From<AllocError> for LineFault {
    ghost use Rattle.std.specs.Prelude.{◌≡◌};
    ghost use Rattle.kb_script.specs.declared.faults.LineFault.TheVariants as line;

    ghost from_gives = { λ _ e. e ≡ line.Memory };

    fn from(_: AllocError) -> Self {
        LineFault::Memory
    }
}

impl<T: Drop> From<AllocFailed<T>> for LineFault {
    ghost use Rattle.std.specs.Prelude.{◌≡◌};
    ghost use Rattle.kb_script.specs.declared.faults.LineFault.TheVariants as line;

    ghost from_gives = { λ _ e. e ≡ line.Memory };

    fn from(_: AllocFailed<T>) -> Self {
        LineFault::Memory
    }
}

impl From<Memory> for LineFault {
    ghost use Rattle.std.specs.Prelude.{◌≡◌};
    ghost use Rattle.kb_script.specs.declared.faults.LineFault.TheVariants as line;

    ghost from_gives = { λ _ e. e ≡ line.Memory };

    fn from(_: Memory) -> Self {
        LineFault::Memory
    }
}

/// Why a script is none: it has more than 1,048,576 bytes, or a line, counted from 1, is bad.
#[derive(Clone, Copy, Debug, PartialEq, Eq)]
pub enum ScriptFault {
    TooLong,
    BadLine { line: u32, why: Why },
    Memory,
}

impl From<AllocError> for ScriptFault {
    ghost use Rattle.std.specs.Prelude.{◌≡◌};
    ghost use Rattle.kb_script.specs.declared.faults.ScriptFault.TheVariants as script;

    ghost from_gives = { λ _ e. e ≡ script.Memory };

    fn from(_: AllocError) -> Self {
        ScriptFault::Memory
    }
}

impl<T: Drop> From<AllocFailed<T>> for ScriptFault {
    ghost use Rattle.std.specs.Prelude.{◌≡◌};
    ghost use Rattle.kb_script.specs.declared.faults.ScriptFault.TheVariants as script;

    ghost from_gives = { λ _ e. e ≡ script.Memory };

    fn from(_: AllocFailed<T>) -> Self {
        ScriptFault::Memory
    }
}

impl From<Memory> for ScriptFault {
    ghost use Rattle.std.specs.Prelude.{◌≡◌};
    ghost use Rattle.kb_script.specs.declared.faults.ScriptFault.TheVariants as script;

    ghost from_gives = { λ _ e. e ≡ script.Memory };

    fn from(_: Memory) -> Self {
        ScriptFault::Memory
    }
}
