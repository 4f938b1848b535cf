//! Laws of how revisions are spelled. Each function does nothing: what it ensures is the law.
ghost use Rattle.kb_chain.specs.Laws.{RevisionsApart, PrivatesApart, RevisionIsProper, PrivateIsProper};

/// Bytes spell one revision at most, and a text one private part of a kind.
pub fn spelling_law()
    ensures revisions { RevisionsApart }
    ensures privates { PrivatesApart }
{}

/// What was read can be written again.
pub fn proper_law()
    ensures revisions { RevisionIsProper }
    ensures privates { PrivateIsProper }
{}
