//! Laws of a journal's state. Each function does nothing: what it ensures is the law.
ghost use Rattle.kb_journal.specs.Laws.{CompactedLeads, LeadsOnce, HasOneState, ZerosAreEmpty};
ghost use Rattle.kb_journal.specs.Runs.{StaysJournal};

use kb_edge::Disk;

/// The compacted list of a state that a list leads to leads to that state.
pub fn compacted_law()
    ensures { CompactedLeads }
{}

/// A list of payloads leads to one state at most.
pub fn once_law()
    ensures { LeadsOnce }
{}

/// The bytes of a disk have one state at most.
pub fn one_state_law()
    ensures { HasOneState }
{}

/// A disk of zeros is an empty journal.
pub fn zeros_law()
    ensures { ZerosAreEmpty }
{}

/// A disk that began as zeros, and that a device alone has used, is never refused as no journal, whatever is answered
/// and whatever the power cuts leave.
pub fn journal_law<D: Disk>()
    ensures { StaysJournal D.content D.dirty }
{}
