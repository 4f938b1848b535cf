//! Laws of a device's part in the plain machine. Each function does nothing: what it ensures is the law.
ghost use Rattle.std.specs.Prelude.{ℕ, List};
ghost use Rattle.kb_folder.specs.Chains.{Names};
ghost use Rattle.kb_device.specs.PicksFor.{PicksAreFor};
ghost use Rattle.kb_device.specs.SettlesFor.{SettlesAreFor};
ghost use Rattle.kb_device.specs.PartLaws.{OthersKeep, JournalsArePlain, PartIsOwned, FindsNoneForeign, FindsOneBeyond, FindsSpelled, KeptIsOld, KeptReturns};

use kb_blocks::BlockHash;
use kb_seal::Sealer;

/// What a device knows of its chain survives the revisions of others.
pub fn others_keep()
    ensures { OthersKeep }
{}

/// What a journal's payloads do is what the plain machine does.
pub fn journals_are_plain()
    ensures { JournalsArePlain }
{}

/// Each acknowledged operation stands once and in order in the chain and then in each journal that an opening may find. No
/// such journal is foreign, and beyond its known revision the chain has at most one revision of the device. Its operations
/// can be spelled and fit an area of the disk.
pub fn part_law()
    ensures owned { PartIsOwned }
    ensures ours { FindsNoneForeign }
    ensures one { FindsOneBeyond }
    ensures spelled { FindsSpelled }
{}

/// What the shelf keeps of a device goes no further than what was acknowledged. Where it goes as far, the journal that is
/// put back meets the chain, and nothing that was acknowledged is lost or stands twice.
pub fn return_law()
    ensures old { KeptIsOld }
    ensures back { KeptReturns }
{}

/// Where the left pointers hold their rows in the folder's blocks, the request of a pick is for the machine's ask.
pub fn picks_law<S: Sealer, H: BlockHash>()
    ensures { (seed : List ℕ) (names : Names) → PicksAreFor S.sealed S.signed H.hashed seed names }
{}

/// So is the request of a settle for the machine's merge.
pub fn settles_law<S: Sealer, H: BlockHash>()
    ensures { (seed : List ℕ) (names : Names) → SettlesAreFor S.sealed S.signed H.hashed seed names }
{}
