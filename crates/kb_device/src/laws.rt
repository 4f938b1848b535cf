//! Laws of devices. Each function does nothing: what it ensures is the law.
ghost use Rattle.std.specs.Prelude.{ℕ, List};
ghost use Rattle.kb_folder.specs.Chains.{Names};
ghost use Rattle.kb_device.specs.Forms.{StandsLonger};
ghost use Rattle.kb_device.specs.Answering.{SentLands, AnswersStay};
ghost use Rattle.kb_device.specs.Behind.{PlainOpsLead};

use kb_blocks::BlockHash;
use kb_seal::Sealer;

/// A device stands for its part while the folder goes on.
pub fn longer_law<S: Sealer, H: BlockHash>()
    ensures { (seed : List ℕ) (names : Names) → StandsLonger S.sealed S.signed H.hashed seed names }
{}

/// A put of a flight's request lands the flight, which stays landed while the folder goes on.
pub fn landing_law<S: Sealer, H: BlockHash>()
    ensures lands { (seed : List ℕ) (names : Names) → SentLands S.sealed S.signed H.hashed seed names }
    ensures stays { (seed : List ℕ) (names : Names) → AnswersStay S.sealed S.signed H.hashed seed names }
{}

/// The operations of revisions of which none is a merge lead from the tree before them to the tree after them.
pub fn plain_ops_law()
    ensures { PlainOpsLead }
{}
