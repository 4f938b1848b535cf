//! What holds of a block of the plain machine: callers and flushers at once, by the histories of devices and of the folder.
//! Each function does nothing: what it ensures is the law.
ghost use Rattle.kb_world.specs.Live.{ActsKeep, BlocksAreActs, BlocksKeep, BlocksOwn, LiveRunsAreGood};

/// Parts of the machine, one after another, keep what holds of its states.
pub fn acts_keep()
    ensures { ActsKeep }
{}

/// The histories of a block are those of parts of the machine, one after another, and what it leaves is what these lead to, but that
/// what waits may be dropped.
pub fn blocks_are_acts()
    ensures { BlocksAreActs }
{}

/// The chain that a block leaves is lawful, and each device meets it.
pub fn blocks_keep()
    ensures { BlocksKeep }
{}

/// After a block each device's acknowledged operations stand once and in order in the chain and then in its journal.
pub fn blocks_are_owned()
    ensures { BlocksOwn }
{}

/// Every run of statements and blocks comes to such a state.
pub fn live_runs_are_good()
    ensures { LiveRunsAreGood }
{}
