//! How a top call ends.
ghost use Rattle.std.specs.Prelude.{◌≡◌};
ghost use Rattle.kb_top.specs.Codes.{code_of};

/// How a top call ends.
#[derive(Clone, Copy, Debug, PartialEq, Eq)]
pub enum Status {
    /// Every statement ran, and its lines were put.
    Done,
    /// The words of the command line ask for nothing that there is.
    Usage,
    /// The text is no script; nothing ran.
    Script,
    /// The source failed; nothing ran.
    ReadFault,
    /// The sink failed.
    WriteFault,
    /// Memory ran out.
    Memory,
}

impl Status {
    /// The exit status of a program that ends so.
    pub fn code(self) -> u8
        ensures { result ≡ code_of self }
    {
        match self {
            Status::Done => 0,
            Status::Usage => 2,
            Status::Script => 3,
            Status::ReadFault => 4,
            Status::WriteFault => 5,
            Status::Memory => 6,
        }
    }
}
