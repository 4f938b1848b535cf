use kb_ops::Row;

/// What a merge did: how many files have a copy, how many rows a conflicted name, and how many directories became one
/// with another.
#[derive(Clone, Copy, Debug, PartialEq, Eq)]
pub struct Report {
    pub copies: u32,
    pub renamed: u64,
    pub joined: u64,
}

/// The merged tree, as the list of its rows in ascending order of ids, and what the merge did.
#[derive(Debug, Drop)]
pub struct Merged {
    pub rows: Vec<Row>,
    pub report: Report,
}
