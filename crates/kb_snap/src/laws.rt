//! Laws of what pointers hold. Each function does nothing: what it ensures is the law.
ghost use Rattle.kb_snap.specs.Laws.{OneTree, MoreBlocks, MoreKeys, RowsHold, HoldsRows, StayHeld, LeftHold, SetHolds, BytesHeld};

use kb_blocks::BlockHash;
use kb_seal::Sealer;

/// A pointer holds one tree whose root has a given mtime.
pub fn one_tree_law<S: Sealer, H: BlockHash>()
    ensures { OneTree S.sealed H.hashed }
{}

/// What a pointer holds it holds while blocks are added.
pub fn more_blocks_law<S: Sealer, H: BlockHash>()
    ensures { MoreBlocks S.sealed H.hashed }
{}

/// What a pointer holds it holds while keys are added.
pub fn more_keys_law<S: Sealer, H: BlockHash>()
    ensures { MoreKeys S.sealed H.hashed }
{}

/// A pointer holds a tree where each row has a pointer that holds it by its own block, and only there.
pub fn row_by_row_law<S: Sealer, H: BlockHash>()
    ensures down { RowsHold S.sealed H.hashed }
    ensures up { HoldsRows S.sealed H.hashed }
{}

/// A row that stays, with all below it, stays held.
pub fn stays_law<S: Sealer, H: BlockHash>()
    ensures { StayHeld S.sealed H.hashed }
{}

/// Pointers that are left after a change hold their rows, where the rows that changed are clear of theirs.
pub fn left_law<S: Sealer, H: BlockHash>()
    ensures { LeftHold S.sealed H.hashed }
{}

/// A row's bytes are held by its kept pointer, and pointers that hold their rows, with one more that holds a row's
/// bytes, hold theirs.
pub fn set_law<S: Sealer, H: BlockHash>()
    ensures sets { SetHolds S.sealed H.hashed }
    ensures held { BytesHeld S.sealed H.hashed }
{}
