//! Why a call of a log is refused.
use kb_edge::Stopped;
use std::alloc::AllocError;

/// Why a log isn't opened.
#[derive(Clone, Copy, Debug, PartialEq, Eq)]
pub enum LogFault {
    /// The disk stopped.
    Stopped,
    /// The disk's bytes are no log.
    BadLog,
    /// Memory ran out.
    Memory,
}

impl From<Stopped> for LogFault {
    ghost use Rattle.std.specs.Prelude.{◌≡◌};
    ghost use Rattle.kb_log.specs.declared.faults.LogFault.TheVariants as faults;

    ghost from_gives = { λ _ e. e ≡ faults.Stopped };

    fn from(_: Stopped) -> LogFault {
        LogFault::Stopped
    }
}

impl From<AllocError> for LogFault {
    ghost use Rattle.std.specs.Prelude.{◌≡◌};
    ghost use Rattle.kb_log.specs.declared.faults.LogFault.TheVariants as faults;

    ghost from_gives = { λ _ e. e ≡ faults.Memory };

    fn from(_: AllocError) -> LogFault {
        LogFault::Memory
    }
}

/// Why a log's list isn't changed.
#[derive(Clone, Copy, Debug, PartialEq, Eq)]
pub enum AppendFault {
    /// It needs more bytes than are free.
    Full { need: u32, free: u32 },
    /// The disk stopped, and the log has to be opened again.
    Stopped,
}

impl From<Stopped> for AppendFault {
    ghost use Rattle.std.specs.Prelude.{◌≡◌};
    ghost use Rattle.kb_log.specs.declared.faults.AppendFault.TheVariants as faults;

    ghost from_gives = { λ _ e. e ≡ faults.Stopped };

    fn from(_: Stopped) -> AppendFault {
        AppendFault::Stopped
    }
}
