//! Laws of what is shown. Each function does nothing: what it ensures is the law.
ghost use Rattle.kb_apply.specs.Laws.{ListedArePlaced, AllAreListed};

/// Each row that is listed of a tree is the tree's, and the names of its path lead to it.
pub fn placed_law()
    ensures { ListedArePlaced }
{}

/// Each row of a tree but the root's is listed.
pub fn listed_law()
    ensures { AllAreListed }
{}
