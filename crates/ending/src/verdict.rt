use crate::status::Status;

/// What a command says of its files in place of an answer.
#[derive(Clone, Copy, Debug, PartialEq, Eq)]
pub enum Verdict {
    /// The program's text isn't accepted, or a name doesn't fit it.
    Refused,
    /// A data or seed file isn't in its grammar or shape.
    BadData,
    /// Two iterations of a parallel loop meet at a place.
    Conflicted,
    /// The program stops.
    Trapped,
    /// The certificate isn't accepted.
    BadCertificate,
    /// A counted quantity passes its limit.
    OverLimit,
}

impl Verdict {
    ghost use Rattle.std.specs.Prelude.{◌≡◌};
    ghost use Rattle.ending.specs.Verdicts.{status_of};

    /// The status that a call with this verdict ends with.
    pub fn status(self) -> Status
        ensures { result ≡ status_of self }
    {
        match self {
            Verdict::Refused => Status::Refused,
            Verdict::BadData => Status::BadData,
            Verdict::Conflicted => Status::Conflicted,
            Verdict::Trapped => Status::Trapped,
            Verdict::BadCertificate => Status::BadCertificate,
            Verdict::OverLimit => Status::OverLimit,
        }
    }
}
