//! Laws of trees, operations and plans. Each function does nothing: what it ensures is the law.
ghost use Rattle.kb_ops.specs.Laws.{PlanIsByTable, PlannedFits, StartIsWellFormed, FittingKeeps, FoldingKeeps, FoldsJoin, OthersStay, KindsStay, SpelledOnce, SpelledApart, PlannedIsProper};

/// What a request comes to is the first refusal that applies, else nothing where all is as asked already, else the
/// operation that is asked for.
pub fn plan_law()
    ensures { PlanIsByTable }
{}

/// A planned operation fits the tree that it was planned for.
pub fn planned_law()
    ensures { PlannedFits }
{}

/// A new tree is well formed.
pub fn start_law()
    ensures { StartIsWellFormed }
{}

/// An operation that fits keeps a tree well formed.
pub fn kept_law()
    ensures { FittingKeeps }
{}

/// Operations that fit one after another keep a tree well formed.
pub fn fold_law()
    ensures { FoldingKeeps }
{}

/// Folding over joined lists is folding over the one and then over the other.
pub fn join_law()
    ensures { FoldsJoin }
{}

/// An operation changes no rows but those of the nodes that it names or makes.
pub fn others_law()
    ensures { OthersStay }
{}

/// An operation changes no row's id or kind.
pub fn kinds_law()
    ensures { KindsStay }
{}

/// A planned operation can be encoded.
pub fn proper_law()
    ensures { PlannedIsProper }
{}

/// Bytes spell one operation at most, and so do the bytes at the front of others.
pub fn spelling_law()
    ensures once { SpelledOnce }
    ensures apart { SpelledApart }
{}
