ghost use Rattle.std.specs.Prelude.{◌≡◌};
ghost use Rattle.kb_script.specs.Table.{verb_of, is_later_word};

/// Which statement a line begins.
#[derive(Clone, Copy, Debug, PartialEq, Eq)]
pub enum Verb {
    Seed,
    Device,
    Found,
    Grant,
    Revoke,
    At,
    Open,
    Pick,
    Land,
    Note,
    Flush,
    Drain,
    Pull,
    Fetch,
    Settle,
    Resolve,
    Status,
    Fuse,
    Lose,
    Power,
    Folder,
    Verify,
    Mkdir,
    Mkfile,
    Link,
    Remove,
    Move,
    Write,
    Cut,
    Chmod,
    Touch,
    Cat,
    Ls,
    Tree,
    Stat,
}

/// The statement that begins with this word, if one does.
pub fn verb_of(word: &str) -> Option<Verb>
    ensures { result ≡ verb_of word.now }
{
    match word {
        "seed" => Some(Verb::Seed),
        "device" => Some(Verb::Device),
        "found" => Some(Verb::Found),
        "grant" => Some(Verb::Grant),
        "revoke" => Some(Verb::Revoke),
        "at" => Some(Verb::At),
        "open" => Some(Verb::Open),
        "pick" => Some(Verb::Pick),
        "land" => Some(Verb::Land),
        "note" => Some(Verb::Note),
        "flush" => Some(Verb::Flush),
        "drain" => Some(Verb::Drain),
        "pull" => Some(Verb::Pull),
        "fetch" => Some(Verb::Fetch),
        "settle" => Some(Verb::Settle),
        "resolve" => Some(Verb::Resolve),
        "status" => Some(Verb::Status),
        "fuse" => Some(Verb::Fuse),
        "lose" => Some(Verb::Lose),
        "power" => Some(Verb::Power),
        "folder" => Some(Verb::Folder),
        "verify" => Some(Verb::Verify),
        "mkdir" => Some(Verb::Mkdir),
        "mkfile" => Some(Verb::Mkfile),
        "link" => Some(Verb::Link),
        "rm" => Some(Verb::Remove),
        "mv" => Some(Verb::Move),
        "write" => Some(Verb::Write),
        "cut" => Some(Verb::Cut),
        "chmod" => Some(Verb::Chmod),
        "touch" => Some(Verb::Touch),
        "cat" => Some(Verb::Cat),
        "ls" => Some(Verb::Ls),
        "tree" => Some(Verb::Tree),
        "stat" => Some(Verb::Stat),
        _ => None,
    }
}

/// Whether a statement that isn't built yet begins with this word: a block's words are such under `live` alone.
pub fn is_later_word(live: bool, word: &str) -> bool
    ensures { result ≡ is_later_word live word.now }
{
    match word {
        "par" | "caller" | "flusher" | "end" => live,
        _ => false,
    }
}
