//! Laws of how many blocks a change touches, and of storing what was made. Each function does nothing: what it ensures
//! is the law.
ghost use Rattle.kb_ranges.specs.Laws.{WritesTouch, CutsTouch, ByteTouches, PutsAdd};

use kb_blocks::BlockHash;

/// A write touches at most three blocks for each 4,096 bytes of its own and of the gap before them, and six more.
pub fn write_law()
    ensures { WritesTouch }
{}

/// A cut touches at most six blocks, and a growth at most three for each 4,096 bytes that are added, and six more.
pub fn cut_law()
    ensures { CutsTouch }
{}

/// A byte touches one block of each level.
pub fn byte_law()
    ensures { ByteTouches }
{}

/// Blocks that a store took are added to those that it had, so what a patch holds, it holds in that store.
pub fn put_law<H: BlockHash>()
    ensures { PutsAdd H.hashed }
{}
