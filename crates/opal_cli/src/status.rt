/// How a call of the program ends.
#[derive(Clone, Copy, Debug, PartialEq, Eq)]
pub enum Status {
    /// The whole job is done.
    Done,
    /// The script ended with an exception that nothing rescued.
    Uncaught,
    /// The words have no reading.
    Usage,
    /// A file is refused at a place.
    Refused,
    /// A file isn't there.
    Missing,
    /// The files or the input failed.
    ReadFault,
    /// Out or err failed.
    WriteFault,
    /// The script left the profile.
    Outside,
    /// The script goes on after its budget of steps.
    OutOfSteps,
    /// The script would pass its budget of cells.
    CellsFull,
    /// The bytes are no script.
    NotScript,
    /// The input isn't UTF-8 or is too long.
    BadInput,
    /// No memory was found.
    NoMemory,
    /// The script's text would be too long.
    TooLong,
}

impl Status {
    ghost use Rattle.std.specs.Prelude.{◌≡◌};
    ghost use Rattle.opal_cli.specs.Codes.{code_of};

    /// The exit status.
    pub fn code(&self) -> u8
        ensures { result ≡ code_of self.now }
    {
        match self {
            Status::Done => 0,
            Status::Uncaught => 1,
            Status::Usage => 2,
            Status::Refused => 3,
            Status::Missing => 4,
            Status::ReadFault => 5,
            Status::WriteFault => 6,
            Status::Outside => 7,
            Status::OutOfSteps => 8,
            Status::CellsFull => 9,
            Status::NotScript => 10,
            Status::BadInput => 11,
            Status::NoMemory => 12,
            Status::TooLong => 16,
        }
    }
}
