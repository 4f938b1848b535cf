//! What a device is asked for, and what it answers.
ghost use Rattle.std.specs.Prelude.{◌≡◌, IfOk};

use super::rows::{Op, Row, WalkFault};
use super::shown::{PlacedRows, Rows};
use super::values::Bytes;
use kb_edge::Memory;
use kb_name::Moment;
use std::alloc::{AllocError, Global};
use std::marker::Model;

/// A word as a script has it. A path's word is read when the call that has it is done.
#[derive(Debug, Drop)]
pub struct Word {
    text: String,
}

impl Model for Word {
    ghost use Rattle.std.specs.Prelude.{List, ℕ};
    ghost use Rattle.std.specs.String.{string_bytes};

    ghost Value = { List ℕ };

    ghost view = { λ w. string_bytes w.text };
}

impl Word {
    pub fn new(alloc: Global, text: &str) -> Result<Self, Memory>
        ensures { IfOk result (λ w. w ≡ text.now) }
    {
        let text = String::from_str(alloc, text)?;
        Ok(Word { text })
    }

    pub fn as_str(&self) -> &str
        ensures { result.now ≡ self.now }
    {
        self.text.as_str()
    }
}

/// What a file call asks for. Offsets and lengths are in bytes.
#[derive(Debug, Drop)]
pub enum Request {
    Mkdir {
        path: Word,
    },
    Mkfile {
        path: Word,
    },
    Link {
        path: Word,
        target: Bytes,
    },
    Remove {
        path: Word,
    },
    Move {
        from: Word,
        to: Word,
    },
    Write {
        path: Word,
        offset: u32,
        bytes: Bytes,
    },
    Cut {
        path: Word,
        length: u32,
    },
    Exec {
        path: Word,
        on: bool,
    },
    Touch {
        path: Word,
        mtime: Moment,
    },
}

/// What is to be shown. A range is an offset and a length, in bytes.
#[derive(Debug, Drop)]
pub enum Show {
    Cat {
        path: Word,
        range: Option<(u32, u32)>,
    },
    Ls {
        path: Word,
    },
    Tree,
    Stat {
        path: Word,
    },
}

/// What is shown: the bytes of a file or the target of a link; the children of a directory in byte order of names; all
/// rows but the root, each directory before its children and children in byte order of names, with the known revision
/// and the number of queued operations; one row.
#[derive(Debug, Drop)]
pub enum Shown {
    Cat {
        bytes: Bytes,
    },
    Ls {
        rows: Rows,
    },
    Tree {
        at: u32,
        queue: u32,
        rows: PlacedRows,
    },
    Stat {
        row: Row,
    },
}

/// Why a request was refused, in the order in which the refusals are given.
#[derive(Clone, Copy, Debug, PartialEq, Eq)]
pub enum PlanFault {
    BadPath,
    TooDeep,
    NotFound,
    NotDir,
    NotFile,
    Exists,
    NotEmpty,
    Inside,
    TooBig,
    TreeFull,
    Memory,
}

/// What a request comes to.
#[derive(Debug, Drop)]
pub enum Planned {
    Same,
    Made(Op),
}

impl From<AllocError> for PlanFault {
    ghost use Rattle.std.specs.Prelude.{◌≡◌};
    ghost use Rattle.kb_ops.specs.declared.requests.PlanFault.TheVariants.{Memory};

    ghost from_gives = { λ _ e. e ≡ Memory };

    fn from(_: AllocError) -> Self {
        PlanFault::Memory
    }
}

impl From<WalkFault> for PlanFault {
    ghost use Rattle.std.specs.Prelude.{◌≡◌};
    ghost use Rattle.kb_ops.specs.Plan.{walk_fault};

    ghost from_gives = { λ w e. e ≡ walk_fault w };

    fn from(fault: WalkFault) -> Self {
        match fault {
            WalkFault::NotDir => PlanFault::NotDir,
            WalkFault::NotFound => PlanFault::NotFound,
        }
    }
}
