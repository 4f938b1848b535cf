//! The laws of lawful chains. The function does nothing: what it ensures is the law.
ghost use Rattle.kb_snap.specs.ChainLaws.{LawfulChains};

/// A lawful chain has each device's operations in order, and well formed trees.
pub fn chains_are_lawful()
    ensures { LawfulChains }
{}
