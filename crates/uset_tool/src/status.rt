//! How a run ended.
ghost use Rattle.std.specs.Prelude.{◌≡◌};
ghost use Rattle.uset_tool.specs.Status.{code_of};

/// How a run ended.
#[derive(Clone, Copy, Debug, PartialEq, Eq)]
pub enum Status {
    /// The whole answer was written, and no line of it is an `err` line.
    Done,
    /// The whole answer was written, and some line of it is an `err` line.
    SomeErr,
    /// The words are no known list. Nothing was read.
    Usage,
    /// The table text has a fault.
    Tables,
    /// The source failed. Nothing was written.
    ReadFault,
    /// The sink failed before the whole answer was written.
    WriteFault,
    /// A request for memory was refused. A front of the answer was written.
    NoMemory,
    /// The input is not UTF-8.
    NotText,
    /// The input has more than 2^23 bytes.
    TooLong,
}

impl Status {
    /// The number that the program ends with.
    pub fn code(self) -> u8
        ensures { result ≡ code_of self }
    {
        match self {
            Status::Done => 0,
            Status::SomeErr => 1,
            Status::Usage => 2,
            Status::Tables => 3,
            Status::ReadFault => 4,
            Status::WriteFault => 5,
            Status::NoMemory => 6,
            Status::NotText => 7,
            Status::TooLong => 8,
        }
    }
}
