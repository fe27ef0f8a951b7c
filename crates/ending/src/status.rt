ghost use Rattle.std.specs.Prelude.{◌≡◌};

/// How a run ends.
#[derive(Clone, Copy, Debug, PartialEq, Eq)]
pub enum Status {
    /// The answer was written.
    Done,
    /// The words aren't in the grammar of the commands.
    BadWords,
    /// A named file isn't in the folder.
    NoFile,
    /// The program's text isn't accepted, or a name doesn't fit it.
    Refused,
    /// A data or seed file isn't in its grammar or shape.
    BadData,
    /// Two iterations of a parallel loop meet at a place.
    Conflicted,
    /// The program stops.
    Trapped,
    /// The certificate isn't accepted.
    BadCertificate,
    /// A counted quantity passes its limit.
    OverLimit,
    /// The folder failed.
    ReadFault,
    /// The sink failed.
    WriteFault,
    /// Memory was wanting.
    NoMemory,
}

impl Status {
    ghost use Rattle.ending.specs.Numbers.{number_of};

    /// The number that the process ends with.
    pub fn number(self) -> u8
        ensures { result ≡ number_of self }
    {
        match self {
            Status::Done => 0,
            Status::BadWords => 1,
            Status::NoFile => 2,
            Status::Refused => 3,
            Status::BadData => 4,
            Status::Conflicted => 5,
            Status::Trapped => 6,
            Status::BadCertificate => 7,
            Status::OverLimit => 8,
            Status::ReadFault => 9,
            Status::WriteFault => 10,
            Status::NoMemory => 11,
        }
    }
}
